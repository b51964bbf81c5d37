//! `copy`: a capability of the dispatcher, with some of its rights, goes to a slot of a dispatcher of the block.

ghost use Rattle.std.specs.Prelude.{◌≡◌, ℕ, Some, IsTrue, slice_get};
ghost use Rattle.dc_base.specs.declared.instructions.Instr.TheVariants.{Copy};
ghost use Rattle.dc_base.specs.Effects.{Context};
ghost use Rattle.dc_base.specs.Instructions.{is_proper};
ghost use Rattle.dc_base.specs.Kernel.{call_of};
ghost use Rattle.dc_base.specs.Serving.{Outside as Seen};
ghost use Rattle.dc_calls.specs.Serves.{Serves, IsRunning};

use crate::answers::Answer;
use crate::forms::Form;
use dc_base::numbers::DispNo;
use dc_caps::trap;
use dc_ready::ReadyList;
use dc_timers::TimerQueue;

impl<R: ReadyList, T: TimerQueue> Form<R, T> {
    /// Copies what slot `a` holds, with the rights in bits 0 to 2 of `imm`, to slot `b` of the dispatcher in bits 4 to 7.
    pub(crate) fn copy(&mut self, d: DispNo, a: u32, b: u32, imm: u32) -> Answer
        requires running { IsRunning d.0 self.old }
        requires proper { IsTrue (is_proper (Copy a b imm)) }
        ensures served { (c n time : ℕ) (out : Seen) (x : Context) → slice_get self.old.parts.contexts d.0 ≡ Some x →
            Serves c n (call_of time d.0 x (Copy a b imm) self.old.parts) self.old self.new out out result }
    {
        let to = DispNo(imm / 16);
        if let Err(fault) = self.table.copy(d, a, to, b, (imm % 16) as u8) {
            return Answer::Fault(trap(fault));
        }
        self.go_on(d);
        Answer::Made(None)
    }
}
