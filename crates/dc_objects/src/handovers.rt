//! Blocks that change hands.

ghost use Rattle.std.specs.Prelude.{◌≡◌, ◌<◌, ◌^◌, ◌≤◌, true, Some};
ghost use Rattle.dc_base.specs.Orders.{block_at_rest, block_under};
ghost use Rattle.dc_base.specs.States.{rest, place_on};
ghost use Rattle.dc_objects.specs.Blocks.{IsHeld, IsTimed};
ghost use Rattle.dc_objects.specs.Places.{IsResting, kept_in};

use crate::blocks::{BlockState, Form};
use core::mem::replace_with;
use dc_base::kernels::Version;
use dc_base::numbers::CoreNo;
use dc_kcb::Kcb;
use dc_kernel::Driver;

/// The block at rest, with its time of now.
fn released<D: Driver>(block: BlockState<D>, clock: u64) -> (BlockState<D>, ())
    requires { IsTimed clock block }
    ensures { result.0 ≡ block_at_rest clock block }
{
    match block.form {
        Form::Rest(kcb) => (BlockState::resting(kcb), ()),
        Form::Held { core: _, kernel } => (BlockState::resting(kernel.surrender(clock)), ()),
    }
}

/// The block under a kernel of this version, at the same time.
fn replaced<D: Driver>(block: BlockState<D>, to: (Version, u64)) -> (BlockState<D>, ())
    requires timed { IsTimed to.1 block }
    requires served { D.served to.0 ≡ true }
    ensures { result.0 ≡ block_under to.0 block }
{
    let (v, clock) = to;
    match block.form {
        Form::Rest(kcb) => (BlockState::resting(kcb), ()),
        Form::Held { core, kernel } => {
            let kcb = kernel.surrender(clock);
            let kernel = D::adopt(v, kcb, clock);
            (
                BlockState {
                    form: Form::Held { core, kernel },
                },
                (),
            )
        }
    }
}

/// Where a block goes on: the core, its version and clock, and the block's time.
#[derive(Clone, Copy)]
struct Place {
    core: CoreNo,
    version: Version,
    clock: u64,
    time: u64,
}

/// The block on that core, from that time on.
fn adopted<D: Driver>(block: BlockState<D>, to: Place) -> (BlockState<D>, ())
    requires resting { IsResting block }
    requires served { D.served to.version ≡ true }
    requires clock { to.clock < 2 ^ 63 }
    requires forward { kept_in block ≤ to.time }
    requires time { to.time < 2 ^ 63 }
    ensures { result.0 ≡ record block { whereabouts = place_on to.core.0 to.clock to.time to.version } }
{
    match block.form {
        Form::Rest(kcb) => {
            let mut kcb = kcb;
            kcb.advance_to(to.time);
            let kernel = D::adopt(to.version, kcb, to.clock);
            (
                BlockState {
                    form: Form::Held {
                        core: to.core,
                        kernel,
                    },
                },
                (),
            )
        }
        Form::Held { core: _, kernel: _ } => unreachable!(),
    }
}

impl<D: Driver> BlockState<D> {
    /// A block at rest.
    pub fn resting(kcb: Kcb) -> BlockState<D>
        ensures { result ≡ record { control = kcb.control; whereabouts = rest kcb.kept } }
    {
        BlockState {
            form: Form::Rest(kcb),
        }
    }

    /// The block comes to rest, with its time of now.
    #[inline(never)]
    pub fn release(&mut self, clock: u64)
        requires { IsTimed clock self.old }
        ensures { self.new ≡ block_at_rest clock self.old }
    {
        let change = |block: BlockState<D>, clock: u64| -> (BlockState<D>, ())
            requires { IsTimed clock block }
            ensures { result.0 ≡ block_at_rest clock block }
        { released(block, clock) };
        replace_with(self, clock, change)
    }

    /// The block goes on under a kernel of this version, at the same time.
    #[inline(never)]
    pub fn replace(&mut self, v: Version, clock: u64)
        requires timed { IsTimed clock self.old }
        requires served { D.served v ≡ true }
        ensures { self.new ≡ block_under v self.old }
    {
        let change = |block: BlockState<D>, to: (Version, u64)| -> (BlockState<D>, ())
            requires { IsTimed to.1 block × (D.served to.0 ≡ true) }
            ensures { result.0 ≡ block_under to.0 block }
        { replaced(block, to) };
        replace_with(self, (v, clock), change)
    }

    /// The block goes on, on a core whose clock stands so, under a kernel of this version, from this time on.
    #[inline(never)]
    pub fn adopt(&mut self, core: CoreNo, v: Version, clock: u64, time: u64)
        requires resting { IsResting self.old }
        requires served { D.served v ≡ true }
        requires clock { clock < 2 ^ 63 }
        requires forward { kept_in self.old ≤ time }
        requires time { time < 2 ^ 63 }
        ensures { self.new ≡ record self.old { whereabouts = place_on core.0 clock time v } }
    {
        let to = Place {
            core,
            version: v,
            clock,
            time,
        };
        let change = |block: BlockState<D>, to: Place| -> (BlockState<D>, ())
            requires { IsResting block × (D.served to.version ≡ true) × (to.clock < 2 ^ 63) × (kept_in block ≤ to.time) × (to.time < 2 ^ 63) }
            ensures { result.0 ≡ record block { whereabouts = place_on to.core.0 to.clock to.time to.version } }
        { adopted(block, to) };
        replace_with(self, to, change)
    }
}
