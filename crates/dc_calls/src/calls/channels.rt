//! `csend`: a message goes to a channel. `crecv`: one comes from it.

ghost use Rattle.std.specs.Prelude.{◌≡◌, ℕ, Some, IsTrue, slice_get};
ghost use Rattle.dc_base.specs.declared.calls.Need.{Need};
ghost use Rattle.dc_base.specs.declared.instructions.Instr.TheVariants.{Csend as CsendInstr, Crecv as CrecvInstr};
ghost use Rattle.dc_base.specs.Effects.{Context};
ghost use Rattle.dc_base.specs.Instructions.{is_proper};
ghost use Rattle.dc_base.specs.Kernel.{call_of};
ghost use Rattle.dc_calls.specs.Outsides.{outside_seen, HasRoom, Fits};
ghost use Rattle.dc_calls.specs.Serves.{Serves, IsRunning};

use crate::answers::Answer;
use crate::calls::ends::Way;
use crate::calls::messages::{words_at, write_words};
use crate::forms::Form;
use crate::outsides::Outside;
use dc_base::dispatchers::Wait;
use dc_base::numbers::{ChanNo, DispNo};
use dc_caps::trap;
use dc_ready::ReadyList;
use dc_timers::TimerQueue;

impl<R: ReadyList, T: TimerQueue> Form<R, T> {
    /// Sends the four words from `imm` on of the frame in slot `b` to the channel whose sending end is in slot `a`.
    pub(crate) fn csend(
        &mut self,
        d: DispNo,
        a: u32,
        b: u32,
        imm: u32,
        outside: &mut Outside,
    ) -> Answer
        requires running { IsRunning d.0 self.old }
        requires proper { IsTrue (is_proper (CsendInstr a b imm)) }
        requires room { HasRoom outside.old }
        ensures served { (c n time : ℕ) (x : Context) → slice_get self.old.parts.contexts d.0 ≡ Some x →
            Serves c n (call_of time d.0 x (CsendInstr a b imm) self.old.parts) self.old self.new (outside_seen outside.old)
            (outside_seen outside.new) result }
        ensures kind { (m : Need) → Fits m outside.old → Fits m outside.new }
    {
        let between = match self.between(Way::Csend, d, a, b, imm) {
            Ok(between) => between,
            Err(fault) => return Answer::Fault(trap(fault)),
        };
        let hold = Answer::Hold(Wait::Csend(ChanNo(between.end)));
        let m = words_at(&self.memory, between.address);
        let Outside::Channel(channel) = outside else {
            return hold;
        };
        if channel.push(m).is_err() {
            return hold;
        }
        self.go_on(d);
        Answer::Made(None)
    }

    /// Receives the first message of the channel whose receiving end is in slot `a` into the four words from `imm` on of the frame in slot `b`.
    pub(crate) fn crecv(
        &mut self,
        d: DispNo,
        a: u32,
        b: u32,
        imm: u32,
        outside: &mut Outside,
    ) -> Answer
        requires running { IsRunning d.0 self.old }
        requires proper { IsTrue (is_proper (CrecvInstr a b imm)) }
        ensures served { (c n time : ℕ) (x : Context) → slice_get self.old.parts.contexts d.0 ≡ Some x →
            Serves c n (call_of time d.0 x (CrecvInstr a b imm) self.old.parts) self.old self.new (outside_seen outside.old)
            (outside_seen outside.new) result }
        ensures kind { (m : Need) → Fits m outside.old → Fits m outside.new }
    {
        let between = match self.between(Way::Crecv, d, a, b, imm) {
            Ok(between) => between,
            Err(fault) => return Answer::Fault(trap(fault)),
        };
        let hold = Answer::Hold(Wait::Crecv(ChanNo(between.end)));
        let Outside::Channel(channel) = outside else {
            return hold;
        };
        let Some(m) = channel.pop() else {
            return hold;
        };
        write_words(&mut self.memory, between.address, m);
        self.go_on(d);
        Answer::Made(None)
    }
}
