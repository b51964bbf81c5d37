//! `delete`: a slot is emptied. `revoke`: all that descend from it are.

ghost use Rattle.std.specs.Prelude.{◌≡◌, ℕ, Some, IsTrue, slice_get};
ghost use Rattle.dc_base.specs.declared.instructions.Instr.TheVariants.{Delete, Revoke};
ghost use Rattle.dc_base.specs.Effects.{Context};
ghost use Rattle.dc_base.specs.Instructions.{is_proper};
ghost use Rattle.dc_base.specs.Kernel.{call_of};
ghost use Rattle.dc_base.specs.Serving.{Outside as Seen};
ghost use Rattle.dc_calls.specs.Serves.{Serves, IsRunning};

use crate::answers::Answer;
use crate::forms::Form;
use dc_base::numbers::DispNo;
use dc_caps::trap;
use dc_ready::ReadyList;
use dc_timers::TimerQueue;

impl<R: ReadyList, T: TimerQueue> Form<R, T> {
    /// Empties slot `a`.
    pub(crate) fn delete(&mut self, d: DispNo, a: u32) -> Answer
        requires running { IsRunning d.0 self.old }
        requires proper { IsTrue (is_proper (Delete a)) }
        ensures served { (c n time : ℕ) (out : Seen) (x : Context) → slice_get self.old.parts.contexts d.0 ≡ Some x →
            Serves c n (call_of time d.0 x (Delete a) self.old.parts) self.old self.new out out result }
    {
        if let Err(fault) = self.table.delete(d, a) {
            return Answer::Fault(trap(fault));
        }
        self.go_on(d);
        Answer::Made(None)
    }

    /// Empties all slots that descend from slot `a`.
    pub(crate) fn revoke(&mut self, d: DispNo, a: u32) -> Answer
        requires running { IsRunning d.0 self.old }
        requires proper { IsTrue (is_proper (Revoke a)) }
        ensures served { (c n time : ℕ) (out : Seen) (x : Context) → slice_get self.old.parts.contexts d.0 ≡ Some x →
            Serves c n (call_of time d.0 x (Revoke a) self.old.parts) self.old self.new out out result }
    {
        if let Err(fault) = self.table.revoke(d, a) {
            return Answer::Fault(trap(fault));
        }
        self.go_on(d);
        Answer::Made(None)
    }
}
