//! The object outside its block that a call needs.

ghost use Rattle.std.specs.Prelude.{◌≡◌, ℕ, ◌<◌, ◌^◌, length, IfSome, IsTrue};
ghost use Rattle.dc_base.specs.declared.messages.Message.{Message};
ghost use Rattle.dc_base.specs.Capabilities.{is_used, is_send_end, is_recv_end, read_right, write_right};
ghost use Rattle.dc_base.specs.Effects.{Context};
ghost use Rattle.dc_base.specs.Kernel.{call_of, sends, receives, with_end_and_frame, bind_call, give_call, claim_call, number_in};
ghost use Rattle.dc_base.specs.Parts.{Parts};
ghost use Rattle.dc_base.specs.Serving.{need};
ghost use Rattle.dc_caps.specs.Caps.{IsCap};
ghost use Rattle.dc_exec.specs.Calls.{is_proper_call};

use crate::calls::tested::{to_bind, to_claim, to_crecv, to_csend, to_give};
use crate::forms::Form;
use dc_base::calls::Need;
use dc_base::capabilities::Cap;
use dc_base::instructions::Instr;
use dc_base::numbers::{DispNo, LineNo};
use dc_ready::ReadyList;
use dc_timers::TimerQueue;

impl<R: ReadyList, T: TimerQueue> Form<R, T> {
    /// The object that the call of a dispatcher needs, as its capabilities tell.
    pub fn need(&self, d: DispNo, instr: &Instr) -> Need
        requires there { d.0 < length self.now.states }
        requires proper { IsTrue (is_proper_call instr.now) }
        ensures { (time : ℕ) (x : Context) (p : Parts) → p.caps ≡ self.now.parts.caps → result ≡ need (call_of time d.0 x instr.now p) }
    {
        let table = &self.table;
        prove!(d.0 < table.disps());
        match *instr {
            Instr::Out { .. } => Need::Console,
            Instr::Csend { a, b, imm } => csend_need(table.look(d, a), table.look(d, b), imm),
            Instr::Crecv { a, b, imm } => crecv_need(table.look(d, a), table.look(d, b), imm),
            Instr::Bind { a, b } => bind_need(table.look(d, a), table.look(d, b)),
            Instr::Give { a, b } => give_need(table.look(d, a), table.look(d, b)),
            Instr::Claim { a, b, imm } => {
                claim_need(table.look(d, a), table.look(d, b).is_some(), LineNo(imm))
            }
            _ => Need::Nothing,
        }
    }
}

fn csend_need(a: Option<Cap>, b: Option<Cap>, imm: u32) -> Need
    requires imm { imm < 2 ^ 16 }
    requires form { IfSome b IsCap }
    ensures { (m : Message) (p : Parts) → result ≡ need (with_end_and_frame is_send_end write_right read_right imm a b (sends (number_in a) m p)) }
{
    match to_csend(a, b, imm) {
        Ok(channel) => Need::Channel(channel),
        Err(_) => Need::Nothing,
    }
}

fn crecv_need(a: Option<Cap>, b: Option<Cap>, imm: u32) -> Need
    requires imm { imm < 2 ^ 16 }
    requires form { IfSome b IsCap }
    ensures { (address : ℕ) (p : Parts) → result ≡ need (with_end_and_frame is_recv_end read_right write_right imm a b (receives (number_in a) address p)) }
{
    match to_crecv(a, b, imm) {
        Ok(channel) => Need::Channel(channel),
        Err(_) => Need::Nothing,
    }
}

fn bind_need(a: Option<Cap>, b: Option<Cap>) -> Need
    ensures { (p : Parts) → result ≡ need (bind_call p a b) }
{
    match to_bind(a, b) {
        Ok((line, _)) => Need::Line(line),
        Err(_) => Need::Nothing,
    }
}

fn give_need(a: Option<Cap>, b: Option<Cap>) -> Need
    requires { IfSome b IsCap }
    ensures { (p : Parts) → result ≡ need (give_call p a b) }
{
    match to_give(a, b) {
        Ok(gift) => Need::Line(gift.line),
        Err(_) => Need::Nothing,
    }
}

fn claim_need(a: Option<Cap>, used: bool, line: LineNo) -> Need
    ensures { (slot : ℕ) (p : Parts) → is_used p.caps slot ≡ used → result ≡ need (claim_call line.0 slot p a) }
{
    match to_claim(a, used) {
        Ok(_) => Need::Line(line),
        Err(_) => Need::Nothing,
    }
}
