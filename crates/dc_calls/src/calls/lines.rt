//! `bind`: a line comes to a signal of the block. `give`: a line is offered over a channel. `claim`: what is offered over a channel is taken.

ghost use Rattle.std.specs.Prelude.{◌≡◌, ℕ, Some, IsTrue, slice_get};
ghost use Rattle.dc_base.specs.declared.calls.Need.{Need};
ghost use Rattle.dc_base.specs.declared.instructions.Instr.TheVariants.{Bind, Give, Claim};
ghost use Rattle.dc_base.specs.Effects.{Context};
ghost use Rattle.dc_base.specs.Instructions.{is_proper};
ghost use Rattle.dc_base.specs.Kernel.{call_of};
ghost use Rattle.dc_calls.specs.Outsides.{outside_seen, Fits};
ghost use Rattle.dc_calls.specs.Serves.{Serves, IsRunning};

use crate::answers::Answer;
use crate::calls::tested::{to_bind, to_claim, to_give};
use crate::forms::Form;
use crate::outsides::Outside;
use dc_base::numbers::{BlockNo, CoreNo, DispNo, LineNo};
use dc_base::traps::NOT_OFFERED;
use dc_caps::trap;
use dc_ready::ReadyList;
use dc_timers::TimerQueue;

impl<R: ReadyList, T: TimerQueue> Form<R, T> {
    /// Binds the line in slot `a` to the signal in slot `b`, and routes it to the core.
    pub(crate) fn bind(
        &mut self,
        d: DispNo,
        a: u32,
        b: u32,
        core: CoreNo,
        block: BlockNo,
        outside: &mut Outside,
    ) -> Answer
        requires running { IsRunning d.0 self.old }
        requires proper { IsTrue (is_proper (Bind a b)) }
        ensures served { (time : ℕ) (x : Context) → slice_get self.old.parts.contexts d.0 ≡ Some x →
            Serves core.0 block.0 (call_of time d.0 x (Bind a b) self.old.parts) self.old self.new (outside_seen outside.old)
            (outside_seen outside.new) result }
        ensures kind { (m : Need) → Fits m outside.old → Fits m outside.new }
    {
        let signal = match to_bind(self.table.look(d, a), self.table.look(d, b)) {
            Ok((_, signal)) => signal,
            Err(fault) => return Answer::Fault(trap(fault)),
        };
        let Outside::Line(line) = outside else {
            return Answer::Fault(NOT_OFFERED);
        };
        line.bind(block, signal, core);
        self.go_on(d);
        Answer::Made(None)
    }

    /// Offers the line in slot `b` over the channel whose sending end is in slot `a`. The block keeps no capability of it.
    pub(crate) fn give(&mut self, d: DispNo, a: u32, b: u32, outside: &mut Outside) -> Answer
        requires running { IsRunning d.0 self.old }
        requires proper { IsTrue (is_proper (Give a b)) }
        ensures served { (c n time : ℕ) (x : Context) → slice_get self.old.parts.contexts d.0 ≡ Some x →
            Serves c n (call_of time d.0 x (Give a b) self.old.parts) self.old self.new (outside_seen outside.old) (outside_seen outside.new) result }
        ensures kind { (m : Need) → Fits m outside.old → Fits m outside.new }
    {
        let gift = match to_give(self.table.look(d, a), self.table.look(d, b)) {
            Ok(gift) => gift,
            Err(fault) => return Answer::Fault(trap(fault)),
        };
        let Outside::Line(line) = outside else {
            return Answer::Fault(NOT_OFFERED);
        };
        self.table.give(gift.line);
        line.give(gift.channel, gift.rights);
        self.go_on(d);
        Answer::Made(None)
    }

    /// Takes the line `imm` into slot `b`, where it is offered over the channel whose receiving end is in slot `a`.
    pub(crate) fn claim(
        &mut self,
        d: DispNo,
        a: u32,
        b: u32,
        imm: u32,
        outside: &mut Outside,
    ) -> Answer
        requires running { IsRunning d.0 self.old }
        requires proper { IsTrue (is_proper (Claim a b imm)) }
        ensures served { (c n time : ℕ) (x : Context) → slice_get self.old.parts.contexts d.0 ≡ Some x →
            Serves c n (call_of time d.0 x (Claim a b imm) self.old.parts) self.old self.new (outside_seen outside.old) (outside_seen outside.new) result }
        ensures kind { (m : Need) → Fits m outside.old → Fits m outside.new }
    {
        let channel = match to_claim(self.table.look(d, a), self.table.look(d, b).is_some()) {
            Ok(channel) => channel,
            Err(fault) => return Answer::Fault(trap(fault)),
        };
        let Outside::Line(line) = outside else {
            return Answer::Fault(NOT_OFFERED);
        };
        let Some(rights) = line.claim(channel) else {
            return Answer::Fault(NOT_OFFERED);
        };
        self.table.claim(d, b, LineNo(imm), rights).unwrap();
        self.go_on(d);
        Answer::Made(None)
    }
}
