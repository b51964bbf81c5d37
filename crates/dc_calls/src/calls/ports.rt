//! `send`: a message goes to a port. `recv`: one comes from it.

ghost use Rattle.std.specs.Prelude.{◌≡◌, ℕ, Some, IsTrue, slice_get};
ghost use Rattle.dc_base.specs.declared.instructions.Instr.TheVariants.{Send as SendInstr, Recv as RecvInstr};
ghost use Rattle.dc_base.specs.Effects.{Context};
ghost use Rattle.dc_base.specs.Instructions.{is_proper};
ghost use Rattle.dc_base.specs.Kernel.{call_of};
ghost use Rattle.dc_base.specs.Serving.{Outside as Seen};
ghost use Rattle.dc_calls.specs.Serves.{Serves, IsRunning};

use crate::answers::Answer;
use crate::calls::ends::Way;
use crate::calls::messages::{words_at, write_words};
use crate::forms::Form;
use dc_base::dispatchers::Wait;
use dc_base::numbers::{DispNo, PortNo};
use dc_caps::trap;
use dc_ready::ReadyList;
use dc_timers::TimerQueue;

impl<R: ReadyList, T: TimerQueue> Form<R, T> {
    /// Sends the four words from `imm` on of the frame in slot `b` to the port in slot `a`.
    pub(crate) fn send(&mut self, d: DispNo, a: u32, b: u32, imm: u32) -> Answer
        requires running { IsRunning d.0 self.old }
        requires proper { IsTrue (is_proper (SendInstr a b imm)) }
        ensures served { (c n time : ℕ) (out : Seen) (x : Context) → slice_get self.old.parts.contexts d.0 ≡ Some x →
            Serves c n (call_of time d.0 x (SendInstr a b imm) self.old.parts) self.old self.new out out result }
    {
        let between = match self.between(Way::Send, d, a, b, imm) {
            Ok(between) => between,
            Err(fault) => return Answer::Fault(trap(fault)),
        };
        let port = PortNo(between.end);
        let m = words_at(&self.memory, between.address);
        if self.ports[port.0 as usize].push(m).is_err() {
            return Answer::Hold(Wait::Send(port));
        }
        self.go_on(d);
        Answer::Made(Some(Wait::Recv(port)))
    }

    /// Receives the first message of the port in slot `a` into the four words from `imm` on of the frame in slot `b`.
    pub(crate) fn recv(&mut self, d: DispNo, a: u32, b: u32, imm: u32) -> Answer
        requires running { IsRunning d.0 self.old }
        requires proper { IsTrue (is_proper (RecvInstr a b imm)) }
        ensures served { (c n time : ℕ) (out : Seen) (x : Context) → slice_get self.old.parts.contexts d.0 ≡ Some x →
            Serves c n (call_of time d.0 x (RecvInstr a b imm) self.old.parts) self.old self.new out out result }
    {
        let between = match self.between(Way::Recv, d, a, b, imm) {
            Ok(between) => between,
            Err(fault) => return Answer::Fault(trap(fault)),
        };
        let port = PortNo(between.end);
        let Some(m) = self.ports[port.0 as usize].pop() else {
            return Answer::Hold(Wait::Recv(port));
        };
        write_words(&mut self.memory, between.address, m);
        self.go_on(d);
        Answer::Made(Some(Wait::Send(port)))
    }
}
