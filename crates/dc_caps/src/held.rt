//! What the slots of a forest hold, with one capability for each slot.

ghost use Rattle.std.specs.Prelude.{◌≡◌, ◌+◌, ◌<◌, ◌≤◌, length, fold};
ghost use Rattle.dc_base.specs.Words.{Each};
ghost use Rattle.dc_base.specs.Capabilities.{has_child_within};
ghost use Rattle.dc_mdb.specs.Forests.{IsForest, without_slot};
ghost use Rattle.dc_caps.specs.Caps.{IsCap};
ghost use Rattle.dc_caps.specs.Seats.{seats_of, line_slots, child_within};

use crate::kinds::{cap_in, is_memory_within, is_of_line};
use dc_base::capabilities::Cap;
use dc_base::numbers::LineNo;
use dc_mdb::Forest;

/// Whether slot `s` is a child of another that is memory which meets the `words` words from `first` on.
fn is_child_within(forest: &Forest, caps: &[Cap], slot: u32, s: u32, first: u32, words: u32) -> bool
    requires slot { s < 256 }
    requires length { length caps.now ≡ 256 }
    requires caps { Each caps.now (λ i cap. IsCap cap) }
    requires range { first + words ≤ 4096 }
    ensures value { result ≡ child_within caps.now forest.now slot first words s }
    ensures forest { IsForest forest.now }
{
    match forest.parent(s) {
        Some(parent) => parent == slot && is_memory_within(cap_in(caps, s).kind, first, words),
        None => false,
    }
}

/// Whether a child of the slot is memory that meets the `words` words from `first` on. Only where it has a child is each slot looked at.
pub(crate) fn has_child_within(
    forest: &Forest,
    caps: &[Cap],
    slot: u32,
    first: u32,
    words: u32,
) -> bool
    requires slot { slot < 256 }
    requires length { length caps.now ≡ 256 }
    requires caps { Each caps.now (λ i cap. IsCap cap) }
    requires range { first + words ≤ 4096 }
    ensures { result ≡ has_child_within (seats_of caps.now forest.now) slot first words }
{
    if !forest.has_children(slot) {
        return false;
    }
    for s in 0..256 {
        if is_child_within(forest, caps, slot, s, first, words) {
            return true;
        }
    }
    false
}

/// Takes out all slots that hold a capability of the line, one after another.
pub(crate) fn remove_line(forest: &mut Forest, caps: &[Cap], line: LineNo)
    requires { length caps.now ≡ 256 }
    ensures { forest.new ≡ fold (λ nodes s. without_slot s nodes) forest.old (line_slots line.0 caps.now forest.old) }
{
    let slots = forest.slots();
    for &slot in slots.as_slice() {
        if is_of_line(cap_in(caps, slot).kind, line) {
            let _ = forest.remove(slot);
        }
    }
}
