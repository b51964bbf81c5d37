ghost use Rattle.std.specs.Prelude.{◌≡◌, ℕ, ◌<◌, Some, true, slice_get, length, IsSome, IfSome};
ghost use Rattle.std.specs.Option.{option_map};
ghost use Rattle.dc_base.specs.Firing.{latch_in};
ghost use Rattle.dc_base.specs.Named.{waits_on_channel};
ghost use Rattle.dc_base.specs.Ports.{latch_at, how_latched};
ghost use Rattle.dc_base.specs.States.{with_control};
ghost use Rattle.dc_base.specs.Steps.{can_run};
ghost use Rattle.dc_base.specs.Timers.{soonest};
ghost use Rattle.dc_base.specs.Wakes.{ready_again};
ghost use Rattle.dc_base.specs.declared.interrupts.Timer.{Timer as Armed};
ghost use Rattle.std.specs.Prelude.{pos, ◌-ℤ◌};
ghost use Rattle.dc_kernel.specs.Done.{done, told};
ghost use Rattle.dc_kernel.specs.Begins.{IsQuantum, IsBegun, IsSomeBegun, halfway_in, need_in};
ghost use Rattle.dc_kernel.specs.Running.{Running};
ghost use Rattle.dc_calls.specs.Outsides.{outside_seen, HasRoom, Fits};
ghost use Rattle.dc_objects.specs.Blocks.{running_of, IsHeld, IsTimed, CanSlice};

use dc_base::calls::Need;
use dc_base::interrupts::{Latch, Latched};
use dc_base::numbers::{BlockNo, CoreNo, DispNo, SignalNo};
use dc_calls::{Outside, Sliced};
use dc_kcb::Kcb;
use dc_kernel::{Begun, Driver};
use std::marker::Model;

/// At rest, or under a kernel on a core.
#[derive(Drop)]
pub(crate) enum Form<D: Driver> {
    Rest(Kcb),
    Held { core: CoreNo, kernel: D },
}

/// A block: at rest, or under a kernel on a core. Where a call takes a clock, it is that of the block's core.
#[derive(Drop)]
pub struct BlockState<D: Driver> {
    pub(crate) form: Form<D>,
}

// Contracts see a block of the machine with cores.
impl<D: Driver> Model for BlockState<D> {
    ghost use Rattle.dc_base.specs.States.{Block};
    ghost use Rattle.dc_objects.specs.Blocks.{block_seen};

    ghost Value = { Block };

    ghost view = { λ b. block_seen D.held b.form };
}

impl<D: Driver> BlockState<D> {
    /// Whether a dispatcher is ready or a timer is due.
    pub fn runnable(&self, clock: u64) -> bool
        requires { IsTimed clock self.now }
        ensures { result ≡ can_run clock self.now }
    {
        match &self.form {
            Form::Rest(_) => false,
            Form::Held { core: _, kernel } => kernel.runnable(clock),
        }
    }

    /// The core's clock at which the first timer is due. None where no timer is armed.
    pub fn earliest(&self) -> Option<i128>
        requires { IsHeld self.now }
        ensures { result ≡ option_map (λ (t : Armed). pos t.deadline -ℤ (running_of self.now).offset) (soonest self.now.control.parts.timers) }
    {
        match &self.form {
            Form::Rest(_) => None,
            Form::Held { core: _, kernel } => kernel.earliest(),
        }
    }

    /// The object outside the block that the call of a slice will need. Nothing changes.
    pub fn need(&self, clock: u64, quantum: u32) -> Need
        requires timed { IsTimed clock self.now }
        requires quantum { IsQuantum quantum }
        ensures { result ≡ need_in (halfway_in quantum clock (running_of self.now)) }
    {
        match &self.form {
            Form::Rest(_) => unreachable!(),
            Form::Held { core: _, kernel } => kernel.need(clock, quantum),
        }
    }

    /// A slice begins: the due timers fire, a dispatcher is picked, and its plain part runs.
    pub fn begin(&mut self, clock: u64, quantum: u32) -> Begun
        requires timed { IsTimed clock self.old }
        requires quantum { IsQuantum quantum }
        ensures begun { IsBegun quantum clock (running_of self.old) (running_of self.new) result }
        ensures whereabouts { self.new ≡ with_control self.new.control self.old }
    {
        match &mut self.form {
            Form::Rest(_) => unreachable!(),
            Form::Held { core: _, kernel } => kernel.begin(clock, quantum),
        }
    }

    /// The call at which a slice that has begun stands, with the object that it needs, and the end of the slice.
    /// `core` and `block` are what a bind writes into its line.
    pub fn finish(
        &mut self,
        clock: u64,
        core: CoreNo,
        block: BlockNo,
        begun: &Begun,
        outside: &mut Outside,
    ) -> Sliced
        requires timed { IsTimed clock self.old }
        requires bounds { CanSlice self.old }
        requires begun { IsSomeBegun clock (running_of self.old) begun.now }
        requires outside { Fits begun.now.need outside.old }
        requires room { HasRoom outside.old }
        ensures done { (q : ℕ) (before : Running) → IsQuantum q → IsBegun q clock before (running_of self.old) begun.now →
            Some (told self.new.control result (outside_seen outside.new)) ≡ done (λ n. outside_seen outside.old) q core.0 block.0 clock before }
        ensures kind { Fits begun.now.need outside.new }
        ensures whereabouts { self.new ≡ with_control self.new.control self.old }
    {
        match &mut self.form {
            Form::Rest(_) => unreachable!(),
            Form::Held { core: _, kernel } => kernel.finish(clock, core, block, begun, outside),
        }
    }

    /// A latch comes to a signal of the block, and wakes all that wait for it.
    pub fn intake(&mut self, s: SignalNo, l: Latch) -> Latched
        requires held { IsHeld self.old }
        requires signal { s.0 < length self.old.control.parts.signals }
        ensures how { result ≡ how_latched (latch_at self.old.control.parts.signals s.0) }
        ensures block { self.new ≡ with_control (latch_in s.0 l self.old.control) self.old }
    {
        match &mut self.form {
            Form::Rest(_) => unreachable!(),
            Form::Held { core: _, kernel } => kernel.intake(s, l),
        }
    }

    /// A dispatcher that waits on a channel is ready again, last of all.
    pub fn wake(&mut self, d: DispNo)
        requires held { IsHeld self.old }
        requires waits { option_map waits_on_channel (slice_get self.old.control.states d.0) ≡ Some true }
        ensures { self.new ≡ with_control (ready_again d.0 self.old.control) self.old }
    {
        match &mut self.form {
            Form::Rest(_) => unreachable!(),
            Form::Held { core: _, kernel } => kernel.wake(d),
        }
    }
}
