//! Wake: a dispatcher that waits on a channel goes on.

ghost use Rattle.std.specs.Prelude.{◌≡◌, ◌<◌, Some, IsSome, length, slice_get};
ghost use Rattle.dc_base.specs.declared.actions.Actor.TheVariants as actor;
ghost use Rattle.dc_base.specs.declared.actions.Action.TheVariants as action;
ghost use Rattle.dc_base.specs.Channels.{Ring};
ghost use Rattle.dc_base.specs.Cores.{core_step};
ghost use Rattle.dc_base.specs.Sound.{IsSound};
ghost use Rattle.dc_base.specs.States.{Block, Core};
ghost use Rattle.dc_bodies.specs.declared.wakes.ChannelWait.{ChannelWait as Wait};
ghost use Rattle.dc_bodies.specs.Waits.{channel_wait};
ghost use Rattle.dc_bodies.specs.Woken.{CanWake, StandToWake};
ghost use Rattle.dc_objects.specs.Blocks.{IsHeld};
ghost use Rattle.dc_objects.specs.States.{state_of};
ghost use Rattle.dc_machine.specs.Answers.{Answers, IsQuiet};

use dc_base::entries::Reason;
use dc_base::numbers::{BlockNo, CoreNo, DispNo};
use dc_bodies::{Stepped, channel_of, channel_wait, goes_on, stopped, wake_held};
use dc_kernel::Driver;
use dc_objects::Objects;

/// Dispatcher `d`, which waits on a channel, is ready again.
fn wake<D: Driver>(objects: &mut Objects<D>, c: CoreNo, b: BlockNo, d: DispNo) -> Stepped
    requires core { (k : Core) × (slice_get objects.old.cores.items c.0 ≡ Some k) × (k.used < k.settings.slices) }
    requires block { (x : Block) × (slice_get objects.old.blocks.items b.0 ≡ Some x) × IsHeld x × IsSome (channel_wait (slice_get x.control.states d.0)) }
    ensures step { (k : Core) (x : Block) (w : Wait) (r : Ring) → CanWake k b.0 d.0 x w r → StandToWake (state_of objects.old) c.0 k b.0 x w r →
        Answers result (state_of objects.old) (state_of objects.new) (core_step (state_of objects.old) 0 (actor.Core c) (action.Wake b d)) }
    ensures quiet { IsQuiet result }
{
    let core = &mut objects.cores[c.0 as usize];
    let block = &mut objects.blocks[b.0 as usize];
    Stepped::Did(wake_held(core, block, c, b, d))
}

/// A core wakes dispatcher `d` of block `b`, if it can go on.
#[inline(always)]
pub(crate) fn wake_turn<D: Driver>(
    objects: &mut Objects<D>,
    c: CoreNo,
    b: BlockNo,
    d: DispNo,
) -> Stepped
    requires sound { IsSound (state_of objects.old) }
    requires core { c.0 < length objects.old.cores.items }
    requires block { b.0 < length objects.old.blocks.items }
    ensures step { Answers result (state_of objects.old) (state_of objects.new) (core_step (state_of objects.old) 0 (actor.Core c) (action.Wake b d)) }
    ensures quiet { IsQuiet result }
{
    let core = &objects.cores[c.0 as usize];
    if let Some(stop) = stopped(core) {
        return stop;
    }
    if !core.share().contains(b) {
        return Stepped::NotEnabled(Reason::NotHere { block: b });
    }
    let Some(wait) = channel_wait(&objects.blocks[b.0 as usize], d) else {
        return Stepped::NotEnabled(Reason::NotWaiting);
    };
    if !goes_on(wait, &objects.channels[channel_of(wait).0 as usize]) {
        return Stepped::NotEnabled(Reason::StillWaits);
    }
    wake(objects, c, b, d)
}
