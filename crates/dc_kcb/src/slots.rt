//! What slots of a table hold, of any number.

ghost use Rattle.std.specs.Prelude.{◌≡◌, ◌<◌, IfSome};
ghost use Rattle.std.specs.Option.{option_map};
ghost use Rattle.dc_base.specs.declared.numbers.SlotNo.{SlotNo as Slot};
ghost use Rattle.dc_base.specs.Capabilities.{cap_at, parent_at};
ghost use Rattle.dc_caps.specs.Caps.{IsCap};

use dc_base::capabilities::Cap;
use dc_base::numbers::SlotNo;
use dc_caps::Table;

/// What the slot of this number holds. A slot past those of the dispatchers is empty.
pub fn cap_in(table: &Table, s: SlotNo) -> Option<Cap>
    ensures value { result ≡ cap_at table.now.set s.0 }
    ensures form { IfSome result IsCap }
    ensures within { IfSome result (λ _. s.0 < 256) }
{
    let low = table.cap(SlotNo(s.0 % 256));
    if s.0 < 256 { low } else { None }
}

/// The parent of the slot of this number; None for a root, and for an empty slot.
pub fn parent_in(table: &Table, s: SlotNo) -> Option<SlotNo>
    ensures { option_map (λ (p : Slot). p.0) result ≡ parent_at table.now.set s.0 }
{
    match cap_in(table, s) {
        Some(_) => table.parent(s),
        None => None,
    }
}
