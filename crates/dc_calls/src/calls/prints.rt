//! `out`: a word goes to the console. `yield`: others run first.

ghost use Rattle.std.specs.Prelude.{◌≡◌, ℕ, Some, IsTrue, slice_get};
ghost use Rattle.dc_base.specs.declared.calls.Need.{Need};
ghost use Rattle.dc_base.specs.declared.instructions.Instr.TheVariants.{Out, Yield};
ghost use Rattle.dc_base.specs.Effects.{Context};
ghost use Rattle.dc_base.specs.Instructions.{is_proper};
ghost use Rattle.dc_base.specs.Kernel.{call_of};
ghost use Rattle.dc_base.specs.Serving.{Outside as Seen};
ghost use Rattle.dc_calls.specs.Outsides.{outside_seen, Fits};
ghost use Rattle.dc_calls.specs.Serves.{Serves, IsRunning};

use crate::answers::Answer;
use crate::forms::Form;
use crate::outsides::Outside;
use dc_base::numbers::DispNo;
use dc_base::traps::CONSOLE_FULL;
use dc_ready::ReadyList;
use dc_timers::TimerQueue;

impl<R: ReadyList, T: TimerQueue> Form<R, T> {
    /// Puts the word of a register out.
    pub(crate) fn print(&mut self, d: DispNo, a: u32, outside: &mut Outside) -> Answer
        requires running { IsRunning d.0 self.old }
        requires proper { IsTrue (is_proper (Out a)) }
        ensures served { (c n time : ℕ) (x : Context) → slice_get self.old.parts.contexts d.0 ≡ Some x →
            Serves c n (call_of time d.0 x (Out a) self.old.parts) self.old self.new (outside_seen outside.old) (outside_seen outside.new) result }
        ensures kind { (m : Need) → Fits m outside.old → Fits m outside.new }
    {
        let word = self.agenda.disp(d).regs[a as usize];
        let Outside::Console(console) = outside else {
            return Answer::Fault(CONSOLE_FULL);
        };
        if console.push(word).is_err() {
            return Answer::Fault(CONSOLE_FULL);
        }
        self.go_on(d);
        Answer::Made(None)
    }

    /// Lets others run first.
    pub(crate) fn give_way(&mut self, d: DispNo) -> Answer
        requires running { IsRunning d.0 self.old }
        ensures served { (c n time : ℕ) (out : Seen) (x : Context) → slice_get self.old.parts.contexts d.0 ≡ Some x →
            Serves c n (call_of time d.0 x Yield self.old.parts) self.old self.new out out result }
    {
        self.go_on(d);
        Answer::Made(None)
    }
}
