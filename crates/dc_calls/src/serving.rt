//! A kernel call, by its instruction.

ghost use Rattle.std.specs.Prelude.{◌≡◌, ◌<◌, ◌-◌, ◌^◌, Some, slice_get, IsTrue};
ghost use Rattle.dc_base.specs.declared.calls.Need.{Need};
ghost use Rattle.dc_base.specs.Effects.{Context};
ghost use Rattle.dc_base.specs.Kernel.{call_of};
ghost use Rattle.dc_exec.specs.Calls.{is_proper_call};
ghost use Rattle.dc_calls.specs.Outsides.{outside_seen, HasRoom, Fits};
ghost use Rattle.dc_calls.specs.Serves.{IsRunning, Serves};

use crate::answers::Answer;
use crate::forms::Form;
use crate::outsides::Outside;
use dc_base::numbers::{BlockNo, CoreNo, DispNo};
use dc_base::traps::EMPTY_SLOT;
use dc_isa::Instr;
use dc_ready::ReadyList;
use dc_timers::TimerQueue;

impl<R: ReadyList, T: TimerQueue> Form<R, T> {
    /// Makes a kernel call of the dispatcher, as far as it can be made.
    pub fn call(
        &mut self,
        d: DispNo,
        instr: &Instr,
        time: u64,
        core: CoreNo,
        block: BlockNo,
        outside: &mut Outside,
    ) -> Answer
        requires running { IsRunning d.0 self.old }
        requires proper { IsTrue (is_proper_call instr.now) }
        requires timers { self.old.parts.next_timer < 2 ^ 32 - 1 }
        requires time { time < 2 ^ 63 }
        requires room { HasRoom outside.old }
        ensures served { (x : Context) → slice_get self.old.parts.contexts d.0 ≡ Some x →
            Serves core.0 block.0 (call_of time d.0 x instr.now self.old.parts) self.old self.new (outside_seen outside.old)
            (outside_seen outside.new) result }
        ensures kind { (n : Need) → Fits n outside.old → Fits n outside.new }
    {
        match *instr {
            Instr::Out { a } => self.print(d, a, outside),
            Instr::Yield => self.give_way(d),
            Instr::Send { a, b, imm } => self.send(d, a, b, imm),
            Instr::Recv { a, b, imm } => self.recv(d, a, b, imm),
            Instr::Csend { a, b, imm } => self.csend(d, a, b, imm, outside),
            Instr::Crecv { a, b, imm } => self.crecv(d, a, b, imm, outside),
            Instr::Wait { a, b } => self.wait(d, a, b),
            Instr::Arm { a, b, imm } => self.arm(d, a, b, imm, time),
            Instr::Copy { a, b, imm } => self.copy(d, a, b, imm),
            Instr::Retype { a, b, imm } => self.retype(d, a, b, imm),
            Instr::Delete { a } => self.delete(d, a),
            Instr::Revoke { a } => self.revoke(d, a),
            Instr::Bind { a, b } => self.bind(d, a, b, core, block, outside),
            Instr::Give { a, b } => self.give(d, a, b, outside),
            Instr::Claim { a, b, imm } => self.claim(d, a, b, imm, outside),
            _ => Answer::Fault(EMPTY_SLOT),
        }
    }
}
