//! What a kernel is.

ghost use Rattle.std.specs.Prelude.{◌≡◌, ℕ, ◌-◌, ◌^◌, ◌<◌, Bool, true, Some, IfSome, length, slice_get, ℤ, pos, ◌-ℤ◌};
ghost use Rattle.std.specs.Option.{option_map, option_copied};
ghost use Rattle.dc_base.specs.declared.dispatchers.DispState.TheVariants as disp;
ghost use Rattle.dc_base.specs.declared.dispatchers.Wait.{Wait};
ghost use Rattle.dc_base.specs.declared.interrupts.Timer.{Timer as Armed};
ghost use Rattle.dc_base.specs.declared.kernels.Version.{Version as Policy};
ghost use Rattle.dc_base.specs.declared.numbers.SlotNo.{SlotNo as Slot};
ghost use Rattle.dc_base.specs.Words.{Each};
ghost use Rattle.dc_base.specs.Capabilities.{cap_at, parent_at};
ghost use Rattle.dc_base.specs.Firing.{latch_in};
ghost use Rattle.dc_base.specs.Named.{waits_on_channel};
ghost use Rattle.dc_base.specs.Ports.{latch_at, how_latched};
ghost use Rattle.dc_base.specs.Steps.{can_run};
ghost use Rattle.dc_base.specs.Timers.{soonest, in_order};
ghost use Rattle.dc_base.specs.Wakes.{ready_again};
ghost use Rattle.dc_caps.specs.Caps.{IsCap};
ghost use Rattle.dc_ready.specs.Entries.{dispatchers, entries_of, AreDues, IsReadyList};
ghost use Rattle.dc_kcb.specs.Readings.{disp_at};
ghost use Rattle.dc_kernel.specs.Running.{Running, on_core, time_in, IsTimely, adopted, surrendered};
ghost use Rattle.dc_calls.specs.Outsides.{outside_seen, HasRoom, Fits};
ghost use Rattle.dc_kernel.specs.Begins.{IsQuantum, IsBegun, IsSomeBegun, halfway_in, need_in};
ghost use Rattle.dc_kernel.specs.Done.{done, told};

use arrayvec::ArrayVec;
use dc_base::calls::Need;
use dc_base::capabilities::Cap;
use dc_base::interrupts::{Latch, Latched, Timer};
use dc_base::kernels::Version;
use dc_base::numbers::{BlockNo, CoreNo, DispNo, PortNo, SignalNo, SlotNo};
use dc_calls::{Outside, Sliced};
use dc_exec::Ran;
use dc_isa::Dispatcher;
use dc_kcb::Kcb;
use dc_ports::Port;

/// What a slice did up to its call: the dispatcher that runs, how many timers fired, the plain part, and the object outside the block that the call needs.
#[derive(Clone, Copy, Debug, PartialEq, Eq)]
pub struct Begun {
    pub disp: Option<DispNo>,
    pub fired: u32,
    pub plain: Ran,
    pub need: Need,
}

/// A kernel with the block that it drives. `now` is the core's clock, from 0 to 2^63 - 1, and so is the block's time then.
pub trait Driver: Drop + Send + Sync {
    ghost held: { Self → Running };

    ghost served: { Policy → Bool };

    /// Whether the kernel is of this version.
    fn serves(v: Version) -> bool
        ensures { result ≡ served v };

    /// The block goes on under the kernel, at its kept time.
    fn adopt(v: Version, kcb: Kcb, now: u64) -> Self
        requires served { served v ≡ true }
        requires now { now < 2 ^ 63 }
        ensures { held result ≡ adopted v kcb now };

    /// The block at rest, with its time of now. Adopted and given back at once it is the same.
    fn surrender(self, now: u64) -> Kcb
        requires { IsTimely now (held self) }
        ensures { result ≡ surrendered now (held self) };

    fn version(&self) -> Version
        ensures { result ≡ (held self.now).version };

    /// The block's time.
    fn time(&self, now: u64) -> u64
        requires { IsTimely now (held self.now) }
        ensures { result ≡ time_in now (held self.now) };

    /// Whether a dispatcher is ready or a timer is due.
    fn runnable(&self, now: u64) -> bool
        requires { IsTimely now (held self.now) }
        ensures { (c : ℕ) → result ≡ can_run now (on_core c (held self.now)) };

    /// The core's clock at which the first timer is due: the least deadline, less how far the block's time is ahead.
    fn earliest(&self) -> Option<i128>
        ensures { result ≡ option_map (λ (t : Armed). pos t.deadline -ℤ (held self.now).offset) (soonest (held self.now).control.parts.timers) };

    /// The object outside the block that the call of a slice will need. Nothing changes.
    fn need(&self, now: u64, quantum: u32) -> Need
        requires now { IsTimely now (held self.now) }
        requires quantum { IsQuantum quantum }
        ensures { result ≡ need_in (halfway_in quantum now (held self.now)) };

    /// A slice begins: the due timers fire, a dispatcher is picked, and its plain part runs.
    fn begin(&mut self, now: u64, quantum: u32) -> Begun
        requires now { IsTimely now (held self.old) }
        requires quantum { IsQuantum quantum }
        ensures begun { IsBegun quantum now (held self.old) (held self.new) result }
        ensures offset { (held self.new).offset ≡ (held self.old).offset }
        ensures version { (held self.new).version ≡ (held self.old).version };

    /// The call at which a slice that has begun stands, with the object that it needs, and the end of the slice.
    /// `core` and `block` are what a bind writes into its line.
    fn finish(
        &mut self,
        now: u64,
        core: CoreNo,
        block: BlockNo,
        begun: &Begun,
        outside: &mut Outside,
    ) -> Sliced
        requires now { IsTimely now (held self.old) }
        requires timers { (held self.old).control.parts.next_timer < 2 ^ 32 - 1 }
        requires dues { Each (held self.old).control.dues (λ d due. due < 2 ^ 63) }
        requires begun { IsSomeBegun now (held self.old) begun.now }
        requires outside { Fits begun.now.need outside.old }
        requires room { HasRoom outside.old }
        ensures done { (q : ℕ) (before : Running) → IsQuantum q → IsBegun q now before (held self.old) begun.now →
            Some (told (held self.new).control result (outside_seen outside.new)) ≡ done (λ n. outside_seen outside.old) q core.0 block.0 now before }
        ensures kind { Fits begun.now.need outside.new }
        ensures offset { (held self.new).offset ≡ (held self.old).offset }
        ensures version { (held self.new).version ≡ (held self.old).version };

    /// A latch comes to a signal of the block, and wakes all that wait for it.
    fn intake(&mut self, s: SignalNo, l: Latch) -> Latched
        requires { s.0 < length (held self.old).control.parts.signals }
        ensures how { result ≡ how_latched (latch_at (held self.old).control.parts.signals s.0) }
        ensures block { held self.new ≡ record (held self.old) { control = latch_in s.0 l (held self.old).control } };

    /// A dispatcher that waits on a channel is ready again, last of all.
    fn wake(&mut self, d: DispNo)
        requires { option_map waits_on_channel (slice_get (held self.old).control.states d.0) ≡ Some true }
        ensures { held self.new ≡ record (held self.old) { control = ready_again d.0 (held self.old).control } };

    /// Dispatcher `d`. None where there is none of this number.
    fn disp(&self, d: DispNo) -> Option<Dispatcher>
        ensures { result ≡ disp_at (held self.now).control d.0 };

    /// How many dispatchers there are.
    fn disps(&self) -> u32
        ensures { result ≡ length (held self.now).control.states };

    /// The ready dispatchers in order of arrival, each with its due.
    fn ready(&self) -> ArrayVec<(DispNo, u64), 16>
        ensures order { dispatchers (entries_of result.items) ≡ (held self.now).control.ready }
        ensures dues { AreDues (held self.now).control.dues (entries_of result.items) }
        ensures once { IsReadyList (entries_of result.items) };

    /// The armed timers by (deadline, number).
    fn timers(&self) -> ArrayVec<Timer, 64>
        ensures { result.items ≡ in_order (held self.now).control.parts.timers };

    /// The number of the timer that is armed next.
    fn next_timer(&self) -> u32
        ensures { result ≡ (held self.now).control.parts.next_timer };

    /// What the slot of this number holds.
    fn cap(&self, s: SlotNo) -> Option<Cap>
        ensures value { result ≡ cap_at (held self.now).control.parts.caps s.0 }
        ensures form { IfSome result IsCap };

    /// The parent of the slot of this number; None for a root, and for an empty slot.
    fn parent(&self, s: SlotNo) -> Option<SlotNo>
        ensures { option_map (λ (p : Slot). p.0) result ≡ parent_at (held self.now).control.parts.caps s.0 };

    /// The port of this number.
    fn port(&self, p: PortNo) -> Option<&Port>
        ensures { option_copied result ≡ slice_get (held self.now).control.parts.ports p.0 };

    /// How many ports there are.
    fn ports(&self) -> u32
        ensures { result ≡ length (held self.now).control.parts.ports };

    /// What the signal of this number holds. None where it holds no latch, and where there is none of this number.
    fn signal(&self, s: SignalNo) -> Option<Latch>
        ensures { result ≡ latch_at (held self.now).control.parts.signals s.0 };

    /// How many signals there are.
    fn signals(&self) -> u32
        ensures { result ≡ length (held self.now).control.parts.signals };

    /// The word at an address. None past the memory.
    fn word(&self, address: u32) -> Option<u32>
        ensures { result ≡ slice_get (held self.now).control.parts.memory address };
}
