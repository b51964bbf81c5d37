//! What a block shows of itself.

ghost use Rattle.std.specs.Prelude.{◌≡◌, length, slice_get, IfSome};
ghost use Rattle.std.specs.Option.{option_map, option_copied};
ghost use Rattle.dc_base.specs.declared.numbers.CoreNo.{CoreNo as Core};
ghost use Rattle.dc_base.specs.declared.numbers.SlotNo.{SlotNo as Slot};
ghost use Rattle.dc_base.specs.Capabilities.{cap_at, parent_at};
ghost use Rattle.dc_base.specs.Ports.{latch_at};
ghost use Rattle.dc_base.specs.States.{core_in, time_at};
ghost use Rattle.dc_base.specs.Timers.{in_order};
ghost use Rattle.dc_caps.specs.Caps.{IsCap};
ghost use Rattle.dc_ready.specs.Entries.{dispatchers, entries_of, AreDues, IsReadyList};
ghost use Rattle.dc_kcb.specs.Readings.{disp_at};
ghost use Rattle.dc_objects.specs.Blocks.{IsTimed};
ghost use Rattle.dc_objects.specs.Places.{IsTimedOrResting};

use crate::blocks::{BlockState, Form};
use arrayvec::ArrayVec;
use dc_base::capabilities::Cap;
use dc_base::interrupts::{Latch, Timer};
use dc_base::numbers::{CoreNo, DispNo, PortNo, SignalNo, SlotNo};
use dc_isa::Dispatcher;
use dc_kernel::Driver;
use dc_ports::Port;

impl<D: Driver> BlockState<D> {
    /// The core that the block is on, if it is on one.
    pub fn core(&self) -> Option<CoreNo>
        ensures { option_map (λ (c : Core). c.0) result ≡ core_in self.now.whereabouts }
    {
        match &self.form {
            Form::Rest(_) => None,
            Form::Held { core, kernel: _ } => Some(*core),
        }
    }

    /// The block's time, where the clock of its core, if it is on one, stands so.
    pub fn time(&self, clock: u64) -> u64
        requires { IsTimedOrResting clock self.now }
        ensures { result ≡ time_at clock self.now.whereabouts }
    {
        match &self.form {
            Form::Rest(kcb) => kcb.time(),
            Form::Held { core: _, kernel } => kernel.time(clock),
        }
    }

    /// Dispatcher `d`. None where there is none of this number.
    pub fn disp(&self, d: DispNo) -> Option<Dispatcher>
        ensures { result ≡ disp_at self.now.control d.0 }
    {
        match &self.form {
            Form::Rest(kcb) => kcb.disp(d),
            Form::Held { core: _, kernel } => kernel.disp(d),
        }
    }

    /// How many dispatchers there are.
    pub fn disps(&self) -> u32
        ensures { result ≡ length self.now.control.states }
    {
        match &self.form {
            Form::Rest(kcb) => kcb.disps(),
            Form::Held { core: _, kernel } => kernel.disps(),
        }
    }

    /// The ready dispatchers in order of arrival, each with its due.
    pub fn ready(&self) -> ArrayVec<(DispNo, u64), 16>
        ensures order { dispatchers (entries_of result.items) ≡ self.now.control.ready }
        ensures dues { AreDues self.now.control.dues (entries_of result.items) }
        ensures once { IsReadyList (entries_of result.items) }
    {
        match &self.form {
            Form::Rest(kcb) => kcb.ready(),
            Form::Held { core: _, kernel } => kernel.ready(),
        }
    }

    /// The armed timers by (deadline, number).
    pub fn timers(&self) -> ArrayVec<Timer, 64>
        ensures { result.items ≡ in_order self.now.control.parts.timers }
    {
        match &self.form {
            Form::Rest(kcb) => kcb.timers(),
            Form::Held { core: _, kernel } => kernel.timers(),
        }
    }

    /// What the slot of this number holds.
    pub fn cap(&self, s: SlotNo) -> Option<Cap>
        ensures value { result ≡ cap_at self.now.control.parts.caps s.0 }
        ensures form { IfSome result IsCap }
    {
        match &self.form {
            Form::Rest(kcb) => kcb.cap(s),
            Form::Held { core: _, kernel } => kernel.cap(s),
        }
    }

    /// The parent of the slot of this number; None for a root, and for an empty slot.
    pub fn parent(&self, s: SlotNo) -> Option<SlotNo>
        ensures { option_map (λ (p : Slot). p.0) result ≡ parent_at self.now.control.parts.caps s.0 }
    {
        match &self.form {
            Form::Rest(kcb) => kcb.parent(s),
            Form::Held { core: _, kernel } => kernel.parent(s),
        }
    }

    /// The port of this number.
    pub fn port(&self, p: PortNo) -> Option<&Port>
        ensures { option_copied result ≡ slice_get self.now.control.parts.ports p.0 }
    {
        match &self.form {
            Form::Rest(kcb) => kcb.port(p),
            Form::Held { core: _, kernel } => kernel.port(p),
        }
    }

    /// What the signal of this number holds. None where it holds no latch, and where there is none of this number.
    pub fn signal(&self, s: SignalNo) -> Option<Latch>
        ensures { result ≡ latch_at self.now.control.parts.signals s.0 }
    {
        match &self.form {
            Form::Rest(kcb) => kcb.signal(s),
            Form::Held { core: _, kernel } => kernel.signal(s),
        }
    }

    /// How many signals there are.
    pub fn signals(&self) -> u32
        ensures { result ≡ length self.now.control.parts.signals }
    {
        match &self.form {
            Form::Rest(kcb) => kcb.signals(),
            Form::Held { core: _, kernel } => kernel.signals(),
        }
    }
}
