ghost use Rattle.std.specs.Prelude.{◌≡◌};
ghost use Rattle.dc_caps.specs.Outcomes.{trap_of};

use dc_base::traps::{EMPTY_SLOT, HAS_CHILDREN, NO_RIGHT, OUT_OF_RANGE, USED_SLOT, WRONG_KIND};

/// Why a call on a table is refused. The kinds stand in the order in which a call tests them; as traps they have the numbers 4 to 9.
#[derive(Clone, Copy, Debug, PartialEq, Eq)]
pub enum CapFault {
    EmptySlot,
    UsedSlot,
    WrongKind,
    NoRight,
    OutOfRange,
    HasChildren,
}

/// The trap number of a fault.
pub fn trap(fault: CapFault) -> u8
    ensures { result ≡ trap_of fault }
{
    match fault {
        CapFault::EmptySlot => EMPTY_SLOT,
        CapFault::UsedSlot => USED_SLOT,
        CapFault::WrongKind => WRONG_KIND,
        CapFault::NoRight => NO_RIGHT,
        CapFault::OutOfRange => OUT_OF_RANGE,
        CapFault::HasChildren => HAS_CHILDREN,
    }
}
