//! `wait`: the latch of a signal is taken. `arm`: a timer of a signal is armed.

ghost use Rattle.std.specs.Prelude.{◌≡◌, ℕ, ◌<◌, ◌-◌, ◌^◌, Some, IsTrue, IfOk, slice_get, length, is_none, if◌then◌else◌};
ghost use Rattle.std.specs.Option.{option_map};
ghost use Rattle.dc_base.specs.declared.capabilities.Cap.{Cap as Held};
ghost use Rattle.dc_base.specs.declared.instructions.Instr.TheVariants.{Wait as WaitInstr, Arm as ArmInstr};
ghost use Rattle.dc_base.specs.declared.capabilities.CapKind.TheVariants.{Signal as of_signal};
ghost use Rattle.dc_base.specs.declared.numbers.SignalNo.{SignalNo as Number};
ghost use Rattle.dc_base.specs.Capabilities.{is_other, is_signal, lacks};
ghost use Rattle.dc_base.specs.Effects.{Context};
ghost use Rattle.dc_base.specs.Instructions.{is_proper};
ghost use Rattle.dc_base.specs.Kernel.{Call, faults, call_of, cap_in, number_in};
ghost use Rattle.dc_base.specs.Serving.{Outside as Seen};
ghost use Rattle.dc_calls.specs.Ends.{on_signal};
ghost use Rattle.dc_calls.specs.Serves.{Serves, IsRunning};

use crate::answers::Answer;
use crate::calls::ends::{READ, WRITE, is_without};
use crate::forms::Form;
use dc_base::capabilities::{Cap, CapKind};
use dc_base::dispatchers::Wait;
use dc_base::numbers::{DispNo, SignalNo};
use dc_base::traps::TIMERS_FULL;
use dc_caps::{CapFault, trap};
use dc_ready::ReadyList;
use dc_timers::TimerQueue;

/// The signal that a slot names with a right, by what the slot holds.
fn signal_of(a: Option<Cap>, right: u8) -> Result<SignalNo, CapFault>
    ensures call { (call : ℕ → Call) → (if is_none a then faults 4 else if is_other is_signal a then faults 6 else if lacks right a then faults 7
        else call (number_in a)) ≡ on_signal result call }
    ensures signal { IfOk result (λ (s : Number). option_map (λ (cap : Held). cap.kind) a ≡ Some (of_signal s)) }
{
    let Some(a) = a else {
        return Err(CapFault::EmptySlot);
    };
    let CapKind::Signal(signal) = a.kind else {
        return Err(CapFault::WrongKind);
    };
    if is_without(a, right) {
        return Err(CapFault::NoRight);
    }
    Ok(signal)
}

impl<R: ReadyList, T: TimerQueue> Form<R, T> {
    /// The signal in slot `a`, with a right.
    fn signal(&self, d: DispNo, a: u32, right: u8) -> Result<SignalNo, CapFault>
        requires running { IsRunning d.0 self.now }
        requires slot { a < 16 }
        ensures call { (call : ℕ → Call) → let o = cap_in d.0 self.now.parts a in
            (if is_none o then faults 4 else if is_other is_signal o then faults 6 else if lacks right o then faults 7
            else call (number_in o)) ≡ on_signal result call }
        ensures named { IfOk result (λ (s : Number). s.0 < length self.now.parts.signals) }
    {
        let held = self.table.look(d, a);
        signal_of(held, right)
    }

    /// Takes the latch of the signal in slot `a`, with its value into register `b`.
    pub(crate) fn wait(&mut self, d: DispNo, a: u32, b: u32) -> Answer
        requires running { IsRunning d.0 self.old }
        requires proper { IsTrue (is_proper (WaitInstr a b)) }
        ensures served { (c n time : ℕ) (out : Seen) (x : Context) → slice_get self.old.parts.contexts d.0 ≡ Some x →
            Serves c n (call_of time d.0 x (WaitInstr a b) self.old.parts) self.old self.new out out result }
    {
        let signal = match self.signal(d, a, READ) {
            Ok(signal) => signal,
            Err(fault) => return Answer::Fault(trap(fault)),
        };
        let Some(latch) = self.agenda.take_latch(signal) else {
            return Answer::Hold(Wait::Signal(signal));
        };
        let disp = self.agenda.disp(d);
        let mut regs = disp.regs;
        regs[b as usize] = latch.value;
        self.agenda.go_to(d, regs, disp.place + 1);
        Answer::Made(None)
    }

    /// Arms a timer of the signal in slot `a` with the value `imm`, due when as much time has passed as register `b` says.
    pub(crate) fn arm(&mut self, d: DispNo, a: u32, b: u32, imm: u32, time: u64) -> Answer
        requires running { IsRunning d.0 self.old }
        requires proper { IsTrue (is_proper (ArmInstr a b imm)) }
        requires time { time < 2 ^ 63 }
        requires timers { self.old.parts.next_timer < 2 ^ 32 - 1 }
        ensures served { (c n : ℕ) (out : Seen) (x : Context) → slice_get self.old.parts.contexts d.0 ≡ Some x →
            Serves c n (call_of time d.0 x (ArmInstr a b imm) self.old.parts) self.old self.new out out result }
    {
        let signal = match self.signal(d, a, WRITE) {
            Ok(signal) => signal,
            Err(fault) => return Answer::Fault(trap(fault)),
        };
        let after = self.agenda.disp(d).regs[b as usize];
        let deadline = time + u64::from(after);
        if self.agenda.arm(deadline, signal, imm).is_err() {
            return Answer::Fault(TIMERS_FULL);
        }
        self.go_on(d);
        Answer::Made(None)
    }
}
