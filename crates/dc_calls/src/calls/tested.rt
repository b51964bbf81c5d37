//! What the capabilities of a call name, or why it is not made.

ghost use Rattle.std.specs.Prelude.{◌≡◌, ℕ, ◌<◌, ◌≤◌, ◌^◌, IfOk, IfSome};
ghost use Rattle.dc_base.specs.declared.messages.Message.{Message};
ghost use Rattle.dc_calls.specs.declared.calls.tested.Gift.{Gift as Gifted};
ghost use Rattle.dc_base.specs.Capabilities.{is_used, is_send_end, is_recv_end, read_right, write_right};
ghost use Rattle.dc_base.specs.Kernel.{sends, receives, with_end_and_frame, bind_call, give_call, claim_call, number_in};
ghost use Rattle.dc_base.specs.Parts.{Parts};
ghost use Rattle.dc_caps.specs.Caps.{IsCap};
ghost use Rattle.dc_calls.specs.Tested.{bind_tested, give_tested, claim_tested, csend_tested, crecv_tested};

use crate::calls::ends::{READ, WRITE, Way, is_without, tested};
use dc_base::capabilities::{Cap, CapKind};
use dc_base::numbers::{ChanNo, LineNo, SignalNo};
use dc_caps::CapFault;

/// The right to give away.
const GRANT: u8 = 4;

/// A line that goes over a channel, with these rights.
#[derive(Clone, Copy)]
pub(super) struct Gift {
    pub(super) channel: ChanNo,
    pub(super) line: LineNo,
    pub(super) rights: u8,
}

/// The line that is bound, and the signal that it is bound to.
pub(super) fn to_bind(a: Option<Cap>, b: Option<Cap>) -> Result<(LineNo, SignalNo), CapFault>
    ensures { (p : Parts) → bind_call p a b ≡ bind_tested p result }
{
    let (Some(a), Some(b)) = (a, b) else {
        return Err(CapFault::EmptySlot);
    };
    let (CapKind::Line(line), CapKind::Signal(signal)) = (a.kind, b.kind) else {
        return Err(CapFault::WrongKind);
    };
    if is_without(a, WRITE) || is_without(b, WRITE) {
        return Err(CapFault::NoRight);
    }
    Ok((line, signal))
}

/// The line that is given, and the channel that it goes over.
pub(super) fn to_give(a: Option<Cap>, b: Option<Cap>) -> Result<Gift, CapFault>
    requires { IfSome b IsCap }
    ensures call { (p : Parts) → give_call p a b ≡ give_tested p result }
    ensures within { IfOk result (λ (x : Gifted). x.rights ≤ 7) }
{
    let (Some(a), Some(b)) = (a, b) else {
        return Err(CapFault::EmptySlot);
    };
    let (CapKind::SendEnd(channel), CapKind::Line(line)) = (a.kind, b.kind) else {
        return Err(CapFault::WrongKind);
    };
    if is_without(a, WRITE) || is_without(b, GRANT) {
        return Err(CapFault::NoRight);
    }
    let rights = b.rights;
    Ok(Gift {
        channel,
        line,
        rights,
    })
}

/// The channel that a line is claimed from, into a slot that may be used.
pub(super) fn to_claim(a: Option<Cap>, used: bool) -> Result<ChanNo, CapFault>
    ensures { (line slot : ℕ) (p : Parts) → is_used p.caps slot ≡ used → claim_call line slot p a ≡ claim_tested line slot p result }
{
    let Some(a) = a else {
        return Err(CapFault::EmptySlot);
    };
    if used {
        return Err(CapFault::UsedSlot);
    }
    let CapKind::RecvEnd(channel) = a.kind else {
        return Err(CapFault::WrongKind);
    };
    if is_without(a, READ) {
        return Err(CapFault::NoRight);
    }
    Ok(channel)
}

/// The channel that a message is sent to, from the words of a frame from `imm` on.
pub(super) fn to_csend(a: Option<Cap>, b: Option<Cap>, imm: u32) -> Result<ChanNo, CapFault>
    requires imm { imm < 2 ^ 16 }
    requires form { IfSome b IsCap }
    ensures { (m : Message) (p : Parts) → with_end_and_frame is_send_end write_right read_right imm a b (sends (number_in a) m p) ≡ csend_tested m p result }
{
    match tested(Way::Csend, a, b, imm) {
        Ok(between) => Ok(ChanNo(between.end)),
        Err(fault) => Err(fault),
    }
}

/// The channel that a message is received from, into the words of a frame from `imm` on.
pub(super) fn to_crecv(a: Option<Cap>, b: Option<Cap>, imm: u32) -> Result<ChanNo, CapFault>
    requires imm { imm < 2 ^ 16 }
    requires form { IfSome b IsCap }
    ensures { (address : ℕ) (p : Parts) → with_end_and_frame is_recv_end read_right write_right imm a b (receives (number_in a) address p) ≡
        crecv_tested address p result }
{
    match tested(Way::Crecv, a, b, imm) {
        Ok(between) => Ok(ChanNo(between.end)),
        Err(fault) => Err(fault),
    }
}
