//! What is read of a block under a kernel.

ghost use Rattle.std.specs.Prelude.{◌≡◌, ◌||◌, nat_lt, IfSome, length, slice_get};
ghost use Rattle.std.specs.Option.{option_map, option_copied};
ghost use Rattle.dc_base.specs.declared.interrupts.Timer.{Timer as Armed};
ghost use Rattle.dc_base.specs.declared.numbers.SlotNo.{SlotNo as Slot};
ghost use Rattle.dc_base.specs.Capabilities.{cap_at, parent_at};
ghost use Rattle.dc_base.specs.Ports.{latch_at};
ghost use Rattle.dc_base.specs.Timers.{in_order, is_due, soonest};
ghost use Rattle.dc_caps.specs.Caps.{IsCap};
ghost use Rattle.dc_ready.specs.Entries.{dispatchers, entries_of, AreDues, IsReadyList};
ghost use Rattle.dc_kcb.specs.Readings.{disp_at};

use crate::forms::Form;
use arrayvec::ArrayVec;
use dc_base::capabilities::Cap;
use dc_base::interrupts::{Latch, Timer};
use dc_base::numbers::{DispNo, PortNo, SignalNo, SlotNo};
use dc_isa::Dispatcher;
use dc_kcb::{cap_in, disp_in, dispatchers_are_read, latch_in, parent_in, port_in};
use dc_ports::Port;
use dc_ready::ReadyList;
use dc_timers::TimerQueue;

impl<R: ReadyList, T: TimerQueue> Form<R, T> {
    /// Dispatcher `d`. None where there is none of this number.
    pub fn disp(&self, d: DispNo) -> Option<Dispatcher>
        ensures { result ≡ disp_at self.now d.0 }
    {
        dispatchers_are_read();
        disp_in(&self.agenda.disps, d)
    }

    /// How many dispatchers there are.
    pub fn disps(&self) -> u32
        ensures { result ≡ length self.now.states }
    {
        self.agenda.disps.len() as u32
    }

    /// The ready dispatchers in order of arrival, each with its due.
    pub fn ready(&self) -> ArrayVec<(DispNo, u64), 16>
        ensures order { dispatchers (entries_of result.items) ≡ self.now.ready }
        ensures dues { AreDues self.now.dues (entries_of result.items) }
        ensures once { IsReadyList (entries_of result.items) }
    {
        self.agenda.ready.to_list()
    }

    /// The armed timers by (deadline, number).
    pub fn timers(&self) -> ArrayVec<Timer, 64>
        ensures { result.items ≡ in_order self.now.parts.timers }
    {
        self.agenda.timers.to_list()
    }

    /// Whether a dispatcher is ready or a timer is due.
    pub fn can_run(&self, time: u64) -> bool
        ensures { result ≡ (nat_lt 0 (length self.now.ready) || is_due time self.now.parts.timers) }
    {
        self.agenda.can_run(time)
    }

    /// The least deadline of a timer.
    pub fn deadline(&self) -> Option<u64>
        ensures { result ≡ option_map (λ (t : Armed). t.deadline) (soonest self.now.parts.timers) }
    {
        self.agenda.deadline()
    }

    /// The number of the timer that is armed next.
    pub fn next_timer(&self) -> u32
        ensures { result ≡ self.now.parts.next_timer }
    {
        self.agenda.timers.next()
    }

    /// What the slot of this number holds.
    pub fn cap(&self, s: SlotNo) -> Option<Cap>
        ensures value { result ≡ cap_at self.now.parts.caps s.0 }
        ensures form { IfSome result IsCap }
    {
        cap_in(&self.table, s)
    }

    /// The parent of the slot of this number; None for a root, and for an empty slot.
    pub fn parent(&self, s: SlotNo) -> Option<SlotNo>
        ensures { option_map (λ (p : Slot). p.0) result ≡ parent_at self.now.parts.caps s.0 }
    {
        parent_in(&self.table, s)
    }

    /// The port of this number.
    pub fn port(&self, p: PortNo) -> Option<&Port>
        ensures { option_copied result ≡ slice_get self.now.parts.ports p.0 }
    {
        port_in(&self.ports, p)
    }

    /// How many ports there are.
    pub fn ports(&self) -> u32
        ensures { result ≡ length self.now.parts.ports }
    {
        self.ports.len() as u32
    }

    /// What the signal of this number holds. None where it holds no latch, and where there is none of this number.
    pub fn latch_at(&self, s: SignalNo) -> Option<Latch>
        ensures { result ≡ latch_at self.now.parts.signals s.0 }
    {
        latch_in(&self.agenda.signals, s)
    }

    /// How many signals there are.
    pub fn signals(&self) -> u32
        ensures { result ≡ length self.now.parts.signals }
    {
        self.agenda.signals.len() as u32
    }

    /// The word at an address. None past the memory.
    pub fn word(&self, address: u32) -> Option<u32>
        ensures { result ≡ slice_get self.now.parts.memory address }
    {
        self.memory.get(address as usize).copied()
    }
}
