//! Step: a slice of the first runnable block, or idle until the first timer is due.

ghost use Rattle.std.specs.Prelude.{◌≡◌, ◌<◌, Some, true, slice_get, length};
ghost use Rattle.dc_base.specs.declared.actions.Actor.TheVariants as actor;
ghost use Rattle.dc_base.specs.declared.actions.Action.TheVariants as action;
ghost use Rattle.dc_base.specs.Cores.{core_step};
ghost use Rattle.dc_base.specs.Outcomes.{has};
ghost use Rattle.dc_base.specs.Sound.{IsSound};
ghost use Rattle.dc_base.specs.States.{Core, Block};
ghost use Rattle.dc_base.specs.IdleTurns.{idle_outcome};
ghost use Rattle.dc_base.specs.SliceTurns.{slice_turn};
ghost use Rattle.dc_base.specs.Turns.{outcome};
ghost use Rattle.dc_objects.specs.States.{state_of};
ghost use Rattle.dc_machine.specs.Answers.{Answers, IsQuiet};
ghost use Rattle.dc_machine.specs.Begun.{BeginsAt};

use crate::outsides::{put_outside, take_outside};
use dc_base::entries::Reason;
use dc_base::numbers::{BlockNo, CoreNo};
use dc_bodies::{Next, Stepped, idle_held, next_of, slice_held, stopped};
use dc_kernel::{Begun, Driver};
use dc_objects::Objects;

/// A slice begins of a block in its place.
fn begin<D: Driver>(objects: &mut Objects<D>, c: CoreNo, b: BlockNo) -> Begun
    requires sound { IsSound (state_of objects.old) }
    requires core { (k : Core) × (slice_get objects.old.cores.items c.0 ≡ Some k) × (has k.share b.0 ≡ true) }
    ensures begun { (k : Core) (x : Block) → slice_get objects.old.cores.items c.0 ≡ Some k → slice_get objects.old.blocks.items b.0 ≡ Some x →
        BeginsAt c.0 b.0 (state_of objects.old) (state_of objects.new) k x result }
{
    let core = &objects.cores[c.0 as usize];
    let clock = core.clock();
    let quantum = core.settings().quantum();
    objects.blocks[b.0 as usize].begin(clock, quantum)
}

/// A slice of objects in their places.
fn slice<D: Driver>(objects: &mut Objects<D>, c: CoreNo, b: BlockNo) -> Stepped
    requires sound { IsSound (state_of objects.old) }
    requires core { (k : Core) × (slice_get objects.old.cores.items c.0 ≡ Some k) × (has k.share b.0 ≡ true) × (k.used < k.settings.slices) }
    ensures step { (k : Core) → slice_get objects.old.cores.items c.0 ≡ Some k →
        Answers result (state_of objects.old) (state_of objects.new)
        (outcome (state_of objects.old) (slice_turn c.0 k b.0 (slice_get objects.old.blocks.items b.0))) }
    ensures quiet { IsQuiet result }
{
    let begun = begin(objects, c, b);
    let mut outside = take_outside(objects, b, begun.need);
    let core = &mut objects.cores[c.0 as usize];
    let block = &mut objects.blocks[b.0 as usize];
    let entry = slice_held(core, block, c, b, &begun, &mut outside);
    put_outside(objects, b, begun.need, outside);
    Stepped::Did(entry)
}

/// The same, of a core in its place.
fn idle<D: Driver>(objects: &mut Objects<D>, c: CoreNo, clock: u64) -> Stepped
    requires { (k : Core) × (slice_get objects.old.cores.items c.0 ≡ Some k) × (k.used < k.settings.slices) }
    ensures step { (k : Core) → slice_get objects.old.cores.items c.0 ≡ Some k →
        Answers result (state_of objects.old) (state_of objects.new) (idle_outcome c.0 k (Some clock)) }
    ensures quiet { IsQuiet result }
{
    Stepped::Did(idle_held(&mut objects.cores[c.0 as usize], c, clock))
}

/// A core's step.
#[inline(always)]
pub(crate) fn step_turn<D: Driver>(objects: &mut Objects<D>, c: CoreNo) -> Stepped
    requires sound { IsSound (state_of objects.old) }
    requires core { c.0 < length objects.old.cores.items }
    ensures step { Answers result (state_of objects.old) (state_of objects.new) (core_step (state_of objects.old) 0 (actor.Core c) action.Step) }
    ensures quiet { IsQuiet result }
{
    let core = &objects.cores[c.0 as usize];
    if let Some(stop) = stopped(core) {
        return stop;
    }
    match next_of(core, objects) {
        Next::Nothing => Stepped::NotEnabled(Reason::Nothing),
        Next::Idle(clock) => idle(objects, c, clock),
        Next::Slice(block) => slice(objects, c, block),
    }
}
