ghost use Rattle.std.specs.Prelude.{◌≡◌, IfSome, length, slice_get};
ghost use Rattle.std.specs.Option.{option_map, option_copied};
ghost use Rattle.dc_base.specs.declared.numbers.SlotNo.{SlotNo as Slot};
ghost use Rattle.dc_base.specs.Capabilities.{cap_at, parent_at};
ghost use Rattle.dc_base.specs.Ports.{latch_at};
ghost use Rattle.dc_base.specs.Timers.{in_order};
ghost use Rattle.dc_caps.specs.Caps.{IsCap};
ghost use Rattle.dc_ready.specs.Entries.{dispatchers, entries_of, AreDues, IsReadyList};
ghost use Rattle.dc_kcb.specs.Readings.{disp_at};

use crate::copies::copied;
use crate::fields::{code_in, disp_in, dispatchers_are_read, latch_in, port_in};
use crate::kcb::Kcb;
use crate::slots::{cap_in, parent_in};
use arrayvec::ArrayVec;
use dc_base::capabilities::Cap;
use dc_base::interrupts::{Latch, Timer};
use dc_base::numbers::{DispNo, PortNo, SignalNo, SlotNo};
use dc_isa::Dispatcher;
use dc_ports::Port;

impl Kcb {
    /// Dispatcher `d`. None where there is none of this number.
    pub fn disp(&self, d: DispNo) -> Option<Dispatcher>
        ensures { result ≡ disp_at self.now.control d.0 }
    {
        dispatchers_are_read();
        disp_in(&self.parts.disps, d)
    }

    /// How many dispatchers there are.
    pub fn disps(&self) -> u32
        ensures { result ≡ length self.now.control.states }
    {
        self.parts.disps.len() as u32
    }

    /// The ready dispatchers in order of arrival, each with its due.
    pub fn ready(&self) -> ArrayVec<(DispNo, u64), 16>
        ensures order { dispatchers (entries_of result.items) ≡ self.now.control.ready }
        ensures dues { AreDues self.now.control.dues (entries_of result.items) }
        ensures once { IsReadyList (entries_of result.items) }
    {
        copied(&self.parts.ready)
    }

    /// The armed timers by (deadline, number).
    pub fn timers(&self) -> ArrayVec<Timer, 64>
        ensures { result.items ≡ in_order self.now.control.parts.timers }
    {
        copied(&self.parts.timers)
    }

    /// The number of the timer that is armed next.
    pub fn next_timer(&self) -> u32
        ensures { result ≡ self.now.control.parts.next_timer }
    {
        self.parts.next_timer
    }

    /// What the slot of this number holds.
    pub fn cap(&self, s: SlotNo) -> Option<Cap>
        ensures value { result ≡ cap_at self.now.control.parts.caps s.0 }
        ensures form { IfSome result IsCap }
    {
        cap_in(&self.parts.table, s)
    }

    /// The parent of the slot of this number; None for a root, and for an empty slot.
    pub fn parent(&self, s: SlotNo) -> Option<SlotNo>
        ensures { option_map (λ (p : Slot). p.0) result ≡ parent_at self.now.control.parts.caps s.0 }
    {
        parent_in(&self.parts.table, s)
    }

    /// The port of this number.
    pub fn port(&self, p: PortNo) -> Option<&Port>
        ensures { option_copied result ≡ slice_get self.now.control.parts.ports p.0 }
    {
        port_in(&self.parts.ports, p)
    }

    /// How many ports there are.
    pub fn ports(&self) -> u32
        ensures { result ≡ length self.now.control.parts.ports }
    {
        self.parts.ports.len() as u32
    }

    /// What the signal of this number holds. None where it holds no latch, and where there is none of this number.
    pub fn signal(&self, s: SignalNo) -> Option<Latch>
        ensures { result ≡ latch_at self.now.control.parts.signals s.0 }
    {
        latch_in(&self.parts.signals, s)
    }

    /// How many signals there are.
    pub fn signals(&self) -> u32
        ensures { result ≡ length self.now.control.parts.signals }
    {
        self.parts.signals.len() as u32
    }

    /// The word at an address. None past the memory.
    pub fn word(&self, address: u32) -> Option<u32>
        ensures { result ≡ slice_get self.now.control.parts.memory address }
    {
        self.parts.memory.get(address as usize).copied()
    }

    /// The memory.
    pub fn memory(&self) -> &[u32]
        ensures { result.now ≡ self.now.control.parts.memory }
    {
        self.parts.memory.as_slice()
    }

    /// The code of dispatcher `d`. None where there is none of this number.
    pub fn code(&self, d: DispNo) -> Option<&[u32]>
        ensures { option_copied result ≡ slice_get self.now.control.parts.code d.0 }
    {
        code_in(self.parts.code.as_slice(), d)
    }
}
