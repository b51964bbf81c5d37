//! Numbers and versions, each written as a word.
#![tactic(auto, unfolding(dc_base::specs::ScriptText::number_below, dc_base::specs::ScriptText::number_within, dc_base::specs::ScriptText::read_core, dc_base::specs::ScriptText::read_block, dc_base::specs::ScriptText::read_line, dc_base::specs::ScriptText::read_disp, dc_base::specs::ScriptText::read_version))]

ghost use Rattle.std.specs.Prelude.{◌≡◌};
ghost use Rattle.dc_base.specs.ScriptText as spec;

use dc_base::commands::Bounds;
use dc_base::faults::TextKind;
use dc_base::kernels::Version;
use dc_base::limits::MOST_DISPS;
use dc_base::numbers::{BlockNo, CoreNo, DispNo, LineNo};
use dc_text::number;

/// A number below a limit.
fn number_below(limit: u32, word: &[u8]) -> Result<u32, TextKind>
    ensures { result ≡ spec.number_below limit word.now }
{
    match number(word) {
        Some(n) => {
            if n < u64::from(limit) {
                Ok(n as u32)
            } else {
                Err(TextKind::BadNumber)
            }
        }
        None => Err(TextKind::BadNumber),
    }
}

/// A number from the least to the most.
pub(crate) fn number_within(least: u32, most: u32, word: &[u8]) -> Result<u32, TextKind>
    ensures { result ≡ spec.number_within least most word.now }
{
    match number(word) {
        Some(n) => {
            if u64::from(least) <= n && n <= u64::from(most) {
                Ok(n as u32)
            } else {
                Err(TextKind::BadNumber)
            }
        }
        None => Err(TextKind::BadNumber),
    }
}

pub(crate) fn read_core(bounds: Bounds, word: &[u8]) -> Result<CoreNo, TextKind>
    ensures { result ≡ spec.read_core bounds word.now }
{
    Ok(CoreNo(number_below(bounds.cores, word)?))
}

pub(crate) fn read_block(bounds: Bounds, word: &[u8]) -> Result<BlockNo, TextKind>
    ensures { result ≡ spec.read_block bounds word.now }
{
    Ok(BlockNo(number_below(bounds.blocks, word)?))
}

pub(crate) fn read_line(bounds: Bounds, word: &[u8]) -> Result<LineNo, TextKind>
    ensures { result ≡ spec.read_line bounds word.now }
{
    Ok(LineNo(number_below(bounds.lines, word)?))
}

pub(crate) fn read_disp(word: &[u8]) -> Result<DispNo, TextKind>
    ensures { result ≡ spec.read_disp word.now }
{
    Ok(DispNo(number_below(MOST_DISPS as u32, word)?))
}

pub(crate) fn read_version(word: &[u8]) -> Result<Version, TextKind>
    ensures { result ≡ spec.read_version word.now }
{
    match word {
        b"rr" => Ok(Version::Rr),
        b"edf" => Ok(Version::Edf),
        _ => Err(TextKind::BadVersion),
    }
}
