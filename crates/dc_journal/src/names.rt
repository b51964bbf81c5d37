//! The words of single values.

ghost use Rattle.std.specs.Prelude.{◌≡◌, ◌≤◌, length};
ghost use Rattle.dc_base.specs.EntryText.{op_word, version_word, latched_word, adopted_word};

use dc_base::calls::Op;
use dc_base::interrupts::Latched;
use dc_base::kernels::Version;

/// The name of a kernel call.
pub(crate) fn op_name(op: Op) -> &'static str
    ensures named { result.now ≡ op_word op }
    ensures short { length result.now ≤ 6 }
{
    match op {
        Op::Out => "out",
        Op::Yield => "yield",
        Op::Send => "send",
        Op::Recv => "recv",
        Op::Csend => "csend",
        Op::Crecv => "crecv",
        Op::Wait => "wait",
        Op::Arm => "arm",
        Op::Copy => "copy",
        Op::Retype => "retype",
        Op::Delete => "delete",
        Op::Revoke => "revoke",
        Op::Bind => "bind",
        Op::Give => "give",
        Op::Claim => "claim",
    }
}

/// The name of a version.
pub(crate) fn version_name(version: Version) -> &'static str
    ensures named { result.now ≡ version_word version }
    ensures short { length result.now ≤ 3 }
{
    match version {
        Version::Rr => "rr",
        Version::Edf => "edf",
    }
}

/// How a latch came to its signal.
pub(crate) fn latched_name(latched: Latched) -> &'static str
    ensures named { result.now ≡ latched_word latched }
    ensures short { length result.now ≤ 9 }
{
    match latched {
        Latched::Latched => "latched",
        Latched::Coalesced => "coalesced",
    }
}

/// How a block is adopted.
pub(crate) fn adopted_name(parked: bool) -> &'static str
    ensures named { result.now ≡ adopted_word parked }
    ensures short { length result.now ≤ 6 }
{
    if parked { "parked" } else { "home" }
}
