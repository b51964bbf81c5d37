//! The two slots that a message goes between: an end of a port or a channel, and a frame.

ghost use Rattle.std.specs.Prelude.{◌≡◌, ℕ, ◌+◌, ◌^◌, ◌<◌, ◌≤◌, ◌==◌, true, false, Some, IfOk, IfSome, MatchOption, bit_and};
ghost use Rattle.std.specs.Option.{option_map};
ghost use Rattle.dc_base.specs.declared.capabilities.Cap.{Cap as Held};
ghost use Rattle.dc_base.specs.declared.capabilities.CapKind.TheVariants.{Frame};
ghost use Rattle.dc_base.specs.Capabilities.{is_frame};
ghost use Rattle.dc_base.specs.Kernel.{Call, with_end_and_frame, cap_in, number_in, first_in};
ghost use Rattle.dc_caps.specs.Caps.{IsCap};
ghost use Rattle.dc_block_sound.specs.SoundControls.{NamesOwn};
ghost use Rattle.dc_calls.specs.declared.calls.ends.Between.{Between as Passage};
ghost use Rattle.dc_calls.specs.Ends.{is_end, end_kind, end_right, frame_right, allowed};
ghost use Rattle.dc_calls.specs.Serves.{IsRunning};

use crate::forms::Form;
use dc_base::capabilities::{Cap, CapKind};
use dc_base::numbers::DispNo;
use dc_caps::CapFault;
use dc_ready::ReadyList;
use dc_timers::TimerQueue;

/// The right to read.
pub(crate) const READ: u8 = 1;

/// The right to write.
pub(crate) const WRITE: u8 = 2;

/// How many words a message has.
const WORDS: u32 = 4;

/// A call that moves a message.
#[derive(Clone, Copy)]
pub(crate) enum Way {
    Send,
    Recv,
    Csend,
    Crecv,
}

/// What a message goes between: the port or channel that the end names, and four words of memory from an address on.
#[derive(Clone, Copy)]
pub(crate) struct Between {
    pub(crate) end: u32,
    pub(crate) address: u32,
}

/// Whether it lacks a right.
pub(crate) fn is_without(cap: Cap, right: u8) -> bool
    ensures { result ≡ (bit_and cap.rights right == 0) }
{
    cap.rights & right == 0
}

/// The port or channel that an end names. None for another kind than the call needs.
fn end_named(way: Way, kind: CapKind) -> Option<u32>
    ensures { MatchOption result (is_end way kind ≡ false) (λ n. kind ≡ end_kind way n) }
{
    match (way, kind) {
        (Way::Send | Way::Recv, CapKind::Port(p)) => Some(p.0),
        (Way::Csend, CapKind::SendEnd(x)) => Some(x.0),
        (Way::Crecv, CapKind::RecvEnd(x)) => Some(x.0),
        _ => None,
    }
}

/// The first word of a frame, and how many it has. None for another kind.
fn frame_range(kind: CapKind) -> Option<(u32, u32)>
    ensures { MatchOption result (is_frame kind ≡ false) (λ (r : ℕ × ℕ). kind ≡ Frame r.0 r.1) }
{
    match kind {
        CapKind::Frame { first, length } => Some((first, length)),
        _ => None,
    }
}

/// The right that the end needs: a send writes to it, and a receive reads from it.
fn end_right(way: Way) -> u8
    ensures { result ≡ end_right way }
{
    match way {
        Way::Send | Way::Csend => WRITE,
        Way::Recv | Way::Crecv => READ,
    }
}

/// The right that the frame needs: a send reads it, and a receive writes to it.
fn frame_right(way: Way) -> u8
    ensures { result ≡ frame_right way }
{
    match way {
        Way::Send | Way::Csend => READ,
        Way::Recv | Way::Crecv => WRITE,
    }
}

/// What the message goes between, with what the two slots hold.
pub(super) fn tested(
    way: Way,
    a: Option<Cap>,
    b: Option<Cap>,
    imm: u32,
) -> Result<Between, CapFault>
    requires imm { imm < 2 ^ 16 }
    requires form { IfSome b IsCap }
    ensures call { (call : Call) → with_end_and_frame (is_end way) (end_right way) (frame_right way) imm a b call ≡ allowed result call }
    ensures end { IfOk result (λ (r : Passage). option_map (λ (cap : Held). cap.kind) a ≡ Some (end_kind way r.end)) }
    ensures address { IfOk result (λ (r : Passage). r.address ≡ first_in b + imm) }
    ensures within { IfOk result (λ (r : Passage). r.address + 4 ≤ 4096) }
{
    let (Some(a), Some(b)) = (a, b) else {
        return Err(CapFault::EmptySlot);
    };
    let Some(end) = end_named(way, a.kind) else {
        return Err(CapFault::WrongKind);
    };
    let Some((first, length)) = frame_range(b.kind) else {
        return Err(CapFault::WrongKind);
    };
    if is_without(a, end_right(way)) || is_without(b, frame_right(way)) {
        return Err(CapFault::NoRight);
    }
    if length < imm + WORDS {
        return Err(CapFault::OutOfRange);
    }
    Ok(Between {
        end,
        address: first + imm,
    })
}

impl<R: ReadyList, T: TimerQueue> Form<R, T> {
    /// What a message goes between: the end in slot `a`, and the words of the frame in slot `b` from `imm` on.
    pub(crate) fn between(
        &self,
        way: Way,
        d: DispNo,
        a: u32,
        b: u32,
        imm: u32,
    ) -> Result<Between, CapFault>
        requires running { IsRunning d.0 self.now }
        requires end { a < 16 }
        requires frame { b < 16 }
        requires imm { imm < 2 ^ 16 }
        ensures call { (call : Call) → with_end_and_frame (is_end way) (end_right way) (frame_right way) imm (cap_in d.0 self.now.parts a)
            (cap_in d.0 self.now.parts b) call ≡ allowed result call }
        ensures end { IfOk result (λ (r : Passage). r.end ≡ number_in (cap_in d.0 self.now.parts a)) }
        ensures named { IfOk result (λ (r : Passage). NamesOwn self.now (end_kind way r.end)) }
        ensures address { IfOk result (λ (r : Passage). r.address ≡ first_in (cap_in d.0 self.now.parts b) + imm) }
        ensures within { IfOk result (λ (r : Passage). r.address + 4 ≤ 4096) }
    {
        let end = self.table.look(d, a);
        let frame = self.table.look(d, b);
        tested(way, end, frame, imm)
    }
}
