//! How many objects there are.
ghost use Rattle.std.specs.Prelude.{◌≡◌, ◌<◌, ◌^◌, length};
ghost use Rattle.dc_base.specs.Objects.{objects as in_order};
ghost use Rattle.dc_objects.specs.States.{state_of};

use dc_kernel::Driver;
use dc_objects::Objects;

/// How many objects there are of all kinds: the room that a list of all needs. It is a number of 64 bits.
#[tactic(auto, using(crate::proofs::Totals::objects_by_kind))]
pub fn room_for<D: Driver>(objects: &Objects<D>) -> usize
    requires few { length (in_order (state_of objects.now)) < 2 ^ 64 }
    ensures { result ≡ length (in_order (state_of objects.now)) }
{
    objects.cores.len()
        + objects.blocks.len()
        + objects.channels.len()
        + objects.lines.len()
        + objects.mailboxes.len()
        + objects.consoles.len()
        + 1
}
