ghost use Rattle.std.specs.Prelude.{◌≡◌, ◌<◌, ◌≤◌, ◌↔◌, [], ◌∷◌, ◌++◌, length, slice_get, IsTrue, IsOk, IfOk, OnOk, OnErr};
ghost use Rattle.dc_base.specs.Limits.{console_room};

use dc_base::limits::CONSOLE_ROOM;
use dc_base::memory::Memory;
use std::alloc::Global;
use std::marker::Model;

/// The console has 65,536 words.
#[derive(Clone, Copy, Debug, PartialEq, Eq)]
pub struct ConsoleFull;

/// The words that a block has put out, in order, at most 65,536.
#[derive(Debug, Drop)]
pub struct Console {
    words: Vec<u32>,
}

// Contracts see the list of the words.
impl Model for Console {
    ghost use Rattle.std.specs.Prelude.{ℕ, List};

    ghost Value = { List ℕ };

    ghost use Rattle.dc_channel.specs.Consoles.{HasRoom};

    ghost view = { λ c. c.words.items };

    ghost invariant = { HasRoom };
}

impl Console {
    /// A console without words, which takes the memory for all of them.
    pub fn new(alloc: Global) -> Result<Console, Memory>
        ensures { IfOk result (λ c. c ≡ []) }
    {
        let words = Vec::with_capacity(alloc, CONSOLE_ROOM)?;
        Ok(Console { words })
    }

    /// Puts the word last.
    pub fn push(&mut self, w: u32) -> Result<(), ConsoleFull>
        ensures room { IsOk result ↔ (length self.old < console_room) }
        ensures pushed { OnOk result (self.new ≡ self.old ++ w ∷ []) }
        ensures kept { OnErr result (self.new ≡ self.old) }
    {
        if self.words.len() >= CONSOLE_ROOM {
            return Err(ConsoleFull);
        }
        self.words.push_reserved(w);
        Ok(())
    }

    pub fn len(&self) -> u32
        ensures value { result ≡ length self.now }
        ensures within { length self.now ≤ console_room }
    {
        self.words.len() as u32
    }

    pub fn is_empty(&self) -> bool
        ensures { IsTrue result ↔ (self.now ≡ []) }
    {
        self.words.is_empty()
    }

    /// The word at a place, the first at 0.
    pub fn at(&self, i: u32) -> Option<u32>
        ensures { result ≡ slice_get self.now i }
    {
        self.words.get(i as usize).copied()
    }
}
