//! A memory seen with its changes on top.

ghost use Rattle.std.specs.Prelude.{◌≡◌, ◌<◌, ◌↔◌, [], length, slice_index, IsTrue};
ghost use Rattle.dc_exec.specs.Changes.{with_changes};

use crate::memories::Memory;
use arrayvec::ArrayVec;
use std::marker::Model;

/// A memory of 4,096 words, seen with at most 64 changes on top. The memory below stays as it is.
#[derive(Drop)]
pub struct Window<'a> {
    words: &'a [u32],
    changes: ArrayVec<(u32, u32), 64>,
}

impl<'a> Model for Window<'a> {
    ghost use Rattle.dc_exec.specs.Changes.{Overlay};

    ghost Value = { Overlay };

    ghost use Rattle.dc_exec.specs.Windows.{overlay_seen, IsWindow};

    ghost view = { overlay_seen };

    ghost invariant = { IsWindow };
}

impl<'a> Window<'a> {
    /// The memory without changes.
    pub fn over(mem: &'a [u32]) -> Window<'a>
        requires { length mem.now ≡ 4096 }
        ensures { result ≡ record { below = mem.now; changes = [] } }
    {
        Window {
            words: mem,
            changes: ArrayVec::new(),
        }
    }

    /// Whether there is no room for another change.
    pub fn is_full(&self) -> bool
        ensures { IsTrue result ↔ (length self.now.changes ≡ 64) }
    {
        self.changes.is_full()
    }
}

impl<'a> Memory for Window<'a> {
    ghost use Rattle.dc_exec.specs.Changes.{memory_of, room_of};

    ghost words = { memory_of };

    ghost room = { room_of };

    fn word(&self, address: u32) -> u32 {
        word_under(self.words, self.changes.as_slice(), address)
    }

    fn put(&mut self, address: u32, word: u32) {
        self.changes.push((address, word));
    }
}

/// The word at an address under the changes, of which the newest counts.
fn word_under(words: &[u32], changes: &[(u32, u32)], address: u32) -> u32
    requires { address < length words.now }
    ensures { result ≡ slice_index (with_changes words.now changes.now) address }
{
    for i in (0..changes.len()).rev() {
        if changes[i].0 == address {
            return changes[i].1;
        }
    }
    words[address as usize]
}
