//! Tests of a capability, and of numbers of slots.

ghost use Rattle.std.specs.Prelude.{◌≡◌, ◌+◌, ◌<◌, ◌≤◌, length, slice_index_or, not, Some, nat_lt, ◌==◌, ◌&&◌, ◌||◌, bit_and};
ghost use Rattle.dc_base.specs.Capabilities.{slot_number, is_memory_within, is_of_line, lacks, grant_right};
ghost use Rattle.dc_base.specs.Kernel.{with_mask, memory_cap};
ghost use Rattle.dc_caps.specs.Caps.{IsRange};
ghost use Rattle.dc_caps.specs.Seats.{no_cap};

use dc_base::capabilities::{Cap, CapKind};
use dc_base::limits::DISP_SLOTS;
use dc_base::numbers::{DispNo, LineNo};

/// The right to write.
pub(crate) const WRITE: u8 = 2;

/// The right to give away.
const GRANT: u8 = 4;

/// The number of slot `s` of dispatcher `d`.
pub(crate) fn slot_number(d: DispNo, s: u32) -> u32
    requires disp { d.0 < 16 }
    requires slot { s < 16 }
    ensures value { result ≡ slot_number d.0 s }
    ensures within { result < 256 }
{
    DISP_SLOTS * d.0 + s
}

/// The capability at a place.
pub(crate) fn cap_in(caps: &[Cap], slot: u32) -> Cap
    requires { slot < length caps.now }
    ensures { result ≡ slice_index_or caps.now slot no_cap }
{
    caps[slot as usize]
}

/// Whether it lacks a right.
pub(crate) fn is_without(cap: Cap, right: u8) -> bool
    ensures { result ≡ (bit_and cap.rights right == 0) }
{
    cap.rights & right == 0
}

/// Whether it may not go from dispatcher `d` to dispatcher `to`: that is another one, and the right to give away is missing.
pub(crate) fn is_kept_from(cap: Cap, d: DispNo, to: DispNo) -> bool
    ensures { result ≡ (not (to.0 == d.0) && lacks grant_right (Some cap)) }
{
    to.0 != d.0 && is_without(cap, GRANT)
}

/// The same with fewer rights.
pub(crate) fn masked(cap: Cap, mask: u8) -> Cap
    ensures { result ≡ with_mask mask cap }
{
    Cap {
        kind: cap.kind,
        rights: cap.rights & mask,
    }
}

/// The `length` words from `first` on, as raw memory or as a frame.
pub(crate) fn memory(into_frame: bool, first: u32, length: u32, rights: u8) -> Cap
    ensures { result ≡ memory_cap into_frame first length rights }
{
    let kind = if into_frame {
        CapKind::Frame { first, length }
    } else {
        CapKind::Ram { first, length }
    };
    Cap { kind, rights }
}

/// Whether `length` words from `offset` on are none, or do not lie within `room` words.
pub(crate) fn is_outside(room: u32, offset: u32, length: u32) -> bool
    ensures { result ≡ (length == 0 || nat_lt room (offset + length)) }
{
    length == 0 || u64::from(room) < u64::from(offset) + u64::from(length)
}

/// Whether it is memory that meets the `length` words from `first` on.
pub(crate) fn is_memory_within(kind: CapKind, first: u32, length: u32) -> bool
    requires kind { IsRange kind }
    requires range { first + length ≤ 4096 }
    ensures { result ≡ is_memory_within first length kind }
{
    match kind {
        CapKind::Ram {
            first: f,
            length: l,
        }
        | CapKind::Frame {
            first: f,
            length: l,
        } => { first < f + l && f < first + length }
        _ => false,
    }
}

/// Whether it is of this line.
pub(crate) fn is_of_line(kind: CapKind, line: LineNo) -> bool
    ensures { result ≡ is_of_line line.0 kind }
{
    match kind {
        CapKind::Line(l) => l.0 == line.0,
        _ => false,
    }
}
