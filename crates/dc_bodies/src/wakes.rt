//! Wake: a dispatcher that waits on a channel goes on.

ghost use Rattle.std.specs.Prelude.{◌≡◌, ◌<◌, IsSome, slice_get};
ghost use Rattle.dc_base.specs.KeptByBlocks.{HasShape};
ghost use Rattle.dc_objects.specs.Blocks.{IsHeld};
ghost use Rattle.dc_bodies.specs.Waits.{channel_of, channel_wait, goes_on};
ghost use Rattle.dc_bodies.specs.Woken.{IsWake};

use crate::entries::by_core;
use dc_base::entries::{Entry, What};
use dc_base::numbers::{BlockNo, ChanNo, CoreNo, DispNo};
use dc_channel::Channel;
use dc_isa::{DispState, Wait};
use dc_kernel::Driver;
use dc_objects::{BlockState, CoreState};

/// What a dispatcher waits for on a channel: room to send, or a message to receive.
#[derive(Clone, Copy)]
pub enum ChannelWait {
    Sends(ChanNo),
    Receives(ChanNo),
}

/// The channel on which a dispatcher in this state waits, if it does.
fn wait_in(state: DispState) -> Option<ChannelWait>
    ensures { result ≡ channel_wait (Some state) }
{
    match state {
        DispState::Waits(Wait::Csend(x)) => Some(ChannelWait::Sends(x)),
        DispState::Waits(Wait::Crecv(x)) => Some(ChannelWait::Receives(x)),
        _ => None,
    }
}

/// The channel on which dispatcher `d` waits, if it does.
#[tactic(auto, using(crate::proofs::Disps::state_told, crate::proofs::Disps::none_told))]
pub fn channel_wait<D: Driver>(block: &BlockState<D>, d: DispNo) -> Option<ChannelWait>
    requires { HasShape block.now.control }
    ensures { result ≡ channel_wait (slice_get block.now.control.states d.0) }
{
    match block.disp(d) {
        Some(disp) => wait_in(disp.state),
        None => None,
    }
}

/// The channel that it waits on.
pub fn channel_of(wait: ChannelWait) -> ChanNo
    ensures { result ≡ channel_of wait }
{
    match wait {
        ChannelWait::Sends(x) => x,
        ChannelWait::Receives(x) => x,
    }
}

/// Whether a dispatcher that waits so on the channel can go on.
pub fn goes_on(wait: ChannelWait, channel: &Channel) -> bool
    ensures { result ≡ goes_on wait channel.now }
{
    match wait {
        ChannelWait::Sends(_) => !channel.is_full(),
        ChannelWait::Receives(_) => channel.len() > 0,
    }
}

/// Dispatcher `d`, which waits on a channel, is ready again.
pub fn wake_held<D: Driver>(
    core: &mut CoreState,
    block: &mut BlockState<D>,
    c: CoreNo,
    b: BlockNo,
    d: DispNo,
) -> Entry
    requires budget { core.old.used < core.old.settings.slices }
    requires held { IsHeld block.old }
    requires waits { IsSome (channel_wait (slice_get block.old.control.states d.0)) }
    ensures { IsWake c.0 b.0 d.0 core.old core.new block.old block.new result }
{
    core.count();
    block.wake(d);
    by_core(c, What::Wake { block: b, disp: d })
}
