//! `retype`: a part of raw memory becomes a capability of its own.

ghost use Rattle.std.specs.Prelude.{◌≡◌, ℕ, Some, IsTrue, slice_get};
ghost use Rattle.dc_base.specs.declared.instructions.Instr.TheVariants.{Retype};
ghost use Rattle.dc_base.specs.Effects.{Context};
ghost use Rattle.dc_base.specs.Instructions.{is_proper};
ghost use Rattle.dc_base.specs.Kernel.{call_of};
ghost use Rattle.dc_base.specs.Serving.{Outside as Seen};
ghost use Rattle.dc_calls.specs.Serves.{Serves, IsRunning};

use crate::answers::Answer;
use crate::forms::Form;
use dc_base::numbers::DispNo;
use dc_caps::trap;
use dc_ready::ReadyList;
use dc_timers::TimerQueue;

impl<R: ReadyList, T: TimerQueue> Form<R, T> {
    /// Makes a child of the raw memory in slot `a`, in slot `b`: of as many words as register 7 says, from the one on that register 6 says. A frame where
    /// `imm` is 1.
    pub(crate) fn retype(&mut self, d: DispNo, a: u32, b: u32, imm: u32) -> Answer
        requires running { IsRunning d.0 self.old }
        requires proper { IsTrue (is_proper (Retype a b imm)) }
        ensures served { (c n time : ℕ) (out : Seen) (x : Context) → slice_get self.old.parts.contexts d.0 ≡ Some x →
            Serves c n (call_of time d.0 x (Retype a b imm) self.old.parts) self.old self.new out out result }
    {
        let regs = self.agenda.disp(d).regs;
        if let Err(fault) = self.table.retype(d, a, b, imm == 1, regs[6], regs[7]) {
            return Answer::Fault(trap(fault));
        }
        self.go_on(d);
        Answer::Made(None)
    }
}
