//! The words of refusals, read.

ghost use Rattle.std.specs.Prelude.{◌≡◌};
ghost use Rattle.std.specs.Option.{option_map};
ghost use Rattle.dc_base.specs.declared.commands.Refusal.TheVariants as refusal;
ghost use Rattle.dc_base.specs.LooseWords as spec;
ghost use Rattle.dc_base.specs.LooseEntries as entries;
ghost use Rattle.dc_journal.specs.Lines.{texts};

use crate::ends::version_of;
use crate::words::{block_at, core_at, is_at, word_at};
use dc_base::commands::Refusal;

/// A core's refusal of the version that it has.
fn same_version(words: &[&[u8]]) -> Option<Refusal>
    ensures { result ≡ option_map (refusal.SameVersion (record { 0 = spec.number_at (texts words.now) 1 }))
        (spec.version_of (spec.word_at (texts words.now) 2)) }
{
    let core = core_at(words, 1);
    match version_of(word_at(words, 2)) {
        Some(version) => Some(Refusal::SameVersion { core, version }),
        None => None,
    }
}

/// The refusal, by the words from its name on.
pub(crate) fn refusal_of(words: &[&[u8]]) -> Option<Refusal>
    ensures { result ≡ entries.refusal_of (texts words.now) }
{
    let core = core_at(words, 1);
    let block = block_at(words, 1);
    if is_at(words, 0, "AlreadyOn") {
        Some(Refusal::AlreadyOn { core })
    } else if is_at(words, 0, "Off") {
        Some(Refusal::Off { core })
    } else if is_at(words, 0, "SameVersion") {
        same_version(words)
    } else if is_at(words, 0, "NotAtRest") {
        Some(Refusal::NotAtRest {
            block,
            core: core_at(words, 2),
        })
    } else if is_at(words, 0, "HomeTaken") {
        Some(Refusal::HomeTaken {
            core,
            block: block_at(words, 2),
        })
    } else if is_at(words, 0, "NotHome") {
        Some(Refusal::NotHome { block })
    } else if is_at(words, 0, "NotParked") {
        Some(Refusal::NotParked { block })
    } else if is_at(words, 0, "OnThatCore") {
        Some(Refusal::OnThatCore {
            block,
            core: core_at(words, 2),
        })
    } else if is_at(words, 0, "ShareFull") {
        Some(Refusal::ShareFull { core })
    } else {
        None
    }
}
