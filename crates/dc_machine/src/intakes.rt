//! Intake: the pending raise of a line reaches its signal.

ghost use Rattle.std.specs.Prelude.{◌≡◌, ◌<◌, Some, length, slice_get};
ghost use Rattle.dc_base.specs.declared.actions.Actor.TheVariants as actor;
ghost use Rattle.dc_base.specs.declared.actions.Action.TheVariants as action;
ghost use Rattle.dc_base.specs.Cores.{core_step};
ghost use Rattle.dc_base.specs.Lines.{Wire};
ghost use Rattle.dc_base.specs.Sound.{IsSound};
ghost use Rattle.dc_base.specs.States.{Block, Core};
ghost use Rattle.dc_bodies.specs.Pendings.{IsPending};
ghost use Rattle.dc_bodies.specs.TakenIn.{StandToTake};
ghost use Rattle.dc_objects.specs.Blocks.{IsHeld};
ghost use Rattle.dc_objects.specs.States.{state_of};
ghost use Rattle.dc_machine.specs.Answers.{Answers, IsQuiet};

use dc_base::entries::Reason;
use dc_base::numbers::{CoreNo, LineNo};
use dc_bodies::{Pending, Stepped, raise_for, take_in_held};
use dc_kernel::Driver;
use dc_objects::Objects;

/// The pending raise of line `l` comes to its signal.
fn take_in<D: Driver>(objects: &mut Objects<D>, c: CoreNo, l: LineNo, p: Pending) -> Stepped
    requires sound { IsSound (state_of objects.old) }
    requires line { (w : Wire) × (slice_get objects.old.lines.items l.0 ≡ Some w) × (w.bound ≡ Some (p.block.0, p.signal.0)) × (w.pending ≡ Some p.number) }
    requires block { (x : Block) × (slice_get objects.old.blocks.items p.block.0 ≡ Some x) × IsHeld x }
    ensures step { (k : Core) (w : Wire) (x : Block) → IsPending c.0 k w p → StandToTake (state_of objects.old) c.0 k l.0 w p x →
        Answers result (state_of objects.old) (state_of objects.new) (core_step (state_of objects.old) 0 (actor.Core c) (action.Intake l)) }
    ensures quiet { IsQuiet result }
{
    let block = &mut objects.blocks[p.block.0 as usize];
    let line = &mut objects.lines[l.0 as usize];
    Stepped::Did(take_in_held(block, line, c, l, p))
}

/// A core takes the pending raise of line `l` in, if it may.
#[inline(always)]
pub(crate) fn intake_turn<D: Driver>(objects: &mut Objects<D>, c: CoreNo, l: LineNo) -> Stepped
    requires sound { IsSound (state_of objects.old) }
    requires core { c.0 < length objects.old.cores.items }
    requires line { l.0 < length objects.old.lines.items }
    ensures step { Answers result (state_of objects.old) (state_of objects.new) (core_step (state_of objects.old) 0 (actor.Core c) (action.Intake l)) }
    ensures quiet { IsQuiet result }
{
    let core = &objects.cores[c.0 as usize];
    if core.version().is_none() {
        return Stepped::NotEnabled(Reason::CoreOff);
    }
    match raise_for(core, c, &objects.lines[l.0 as usize]) {
        Ok(p) => take_in(objects, c, l, p),
        Err(why) => Stepped::NotEnabled(why),
    }
}
