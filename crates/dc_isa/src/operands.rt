//! The operands of an instruction.

ghost use Rattle.std.specs.Prelude.{◌≡◌, ℕ, ◌+◌, ◌*◌, ◌<◌, ◌≤◌, ◌^◌, ◌∷◌, nat_lt, length, drop, map, decimal, bytes_eq, IfOk};
ghost use Rattle.dc_base.specs.TextWords.{number_of, words_by};
ghost use Rattle.dc_base.specs.Operations as operations;
ghost use Rattle.dc_base.specs.ProgramText as spec;
ghost use Rattle.dc_isa.specs.Labels.{label_list, capped};
ghost use Rattle.dc_isa.specs.Operations.{operand_seen, limit, most};

use crate::labels::Labels;
use crate::operations::Operand;
use crate::scan::first_word;
use dc_base::faults::AsmKind;
use dc_base::limits::{CODE_ROOM, DISP_SLOTS, REGISTER_COUNT};
use dc_text::number;

/// The number behind the first byte of a word.
#[tactic(auto, unfolding(dc_base::specs::TextWords::number_of))]
fn number_behind(word: &[u8]) -> Option<u64>
    ensures { result ≡ number_of (drop 1 word.now) }
{
    match word {
        [] => None,
        [_, digits @ ..] => number(digits),
    }
}

/// Whether a word is the letter with the digits of a number.
#[tactic(auto, using(crate::proofs::Digits::decimal_one, crate::proofs::Digits::decimal_two))]
fn is_written(word: &[u8], letter: u8, n: u32) -> bool
    requires { n < 16 }
    ensures { result ≡ bytes_eq word.now (letter ∷ decimal n) }
{
    if n < 10 {
        word == [letter, b'0' + n as u8].as_slice()
    } else {
        word == [letter, b'1', b'0' + (n - 10) as u8].as_slice()
    }
}

/// The number of a register or a slot, written as its letter and the number without leading zeros.
fn lettered(letter: u8, limit: u32, word: &[u8]) -> Result<u32, AsmKind>
    requires { limit ≤ 16 }
    ensures value { result ≡ spec.lettered letter limit word.now }
    ensures below { IfOk result (λ n. n < limit) }
{
    match number_behind(word) {
        Some(n) => {
            if n < u64::from(limit) && is_written(word, letter, n as u32) {
                Ok(n as u32)
            } else {
                Err(AsmKind::BadOperand)
            }
        }
        None => Err(AsmKind::BadOperand),
    }
}

/// A number below a limit.
fn bounded(limit: u64, word: &[u8]) -> Result<u32, AsmKind>
    requires { limit ≤ 2 ^ 32 }
    ensures value { result ≡ spec.number (λ n. nat_lt n limit) word.now }
    ensures below { IfOk result (λ n. n < limit) }
{
    match number(word) {
        Some(n) => {
            if n < limit {
                Ok(n as u32)
            } else {
                Err(AsmKind::BadNumber)
            }
        }
        None => Err(AsmKind::BadNumber),
    }
}

/// A mask of rights and a dispatcher.
fn granted(word: &[u8]) -> Result<u32, AsmKind>
    ensures value { result ≡ spec.number spec.is_grant word.now }
    ensures below { IfOk result (λ n. n < 256) }
{
    match number(word) {
        Some(n) => {
            if n < 256 && n % 16 < 8 {
                Ok(n as u32)
            } else {
                Err(AsmKind::BadNumber)
            }
        }
        None => Err(AsmKind::BadNumber),
    }
}

/// The place of a label. A place past 1,024 is that of a text with too many words, and is cut to 1,025.
#[tactic(auto, using(crate::proofs::LabelLaws::place_of_capped))]
fn label_place(labels: &Labels, name: &[u8]) -> Result<u32, AsmKind>
    ensures value { result ≡ spec.if_defined (spec.place_of (capped (label_list labels.now)) name.now) }
    ensures below { IfOk result (λ n. n < 2 ^ 16) }
{
    match labels.place_of(name) {
        Some(place) => Ok(place.min(CODE_ROOM as u32 + 1)),
        None => Err(AsmKind::NoLabel),
    }
}

/// The target of a branch: a label behind `@`, or a number.
fn target(labels: &Labels, word: &[u8]) -> Result<u32, AsmKind>
    ensures value { result ≡ spec.operand (capped (label_list labels.now)) operations.target word.now }
    ensures below { IfOk result (λ n. n < 2 ^ 16) }
{
    match word {
        [b'@', name @ ..] => label_place(labels, name),
        _ => bounded(65536, word),
    }
}

/// An operand's number.
fn operand(labels: &Labels, kind: Operand, word: &[u8]) -> Result<u32, AsmKind>
    ensures value { result ≡ spec.operand (capped (label_list labels.now)) (operand_seen kind) word.now }
    ensures below { IfOk result (λ n. n < limit (operand_seen kind)) }
{
    match kind {
        Operand::RegisterA | Operand::RegisterB => lettered(b'r', REGISTER_COUNT as u32, word),
        Operand::SlotA | Operand::SlotB => lettered(b's', DISP_SLOTS, word),
        Operand::Immediate => bounded(65536, word),
        Operand::Target => target(labels, word),
        Operand::Grant => granted(word),
        Operand::Made => bounded(2, word),
        Operand::Whole => bounded(4294967296, word),
    }
}

/// What one in an operand's place counts in a word.
fn weight(kind: Operand) -> u32
    ensures { result ≡ operations.weight (operand_seen kind) }
{
    match kind {
        Operand::RegisterA | Operand::SlotA => 1048576,
        Operand::RegisterB | Operand::SlotB => 65536,
        Operand::Immediate | Operand::Target | Operand::Grant | Operand::Made | Operand::Whole => 1,
    }
}

/// How many words a line has.
pub(crate) fn word_count(line: &[u8]) -> usize
    ensures { result ≡ length (words_by spec.separates line.now) }
{
    let mut count = 0;
    let mut rest = line;
    while let Some((_, further)) = first_word(rest) {
        count += 1;
        rest = further;
    }
    count
}

/// The operands' part of a word.
pub(crate) fn operands_sum(labels: &Labels, kinds: &[Operand], words: &[u8]) -> Result<u32, AsmKind>
    requires { most (map operand_seen kinds.now) < 2 ^ 32 }
    ensures value { let operands = words_by spec.separates words.now in
        result ≡ spec.operands_sum (capped (label_list labels.now)) (map operand_seen kinds.now) operands }
    ensures below { IfOk result (λ n. n ≤ most (map operand_seen kinds.now)) }
{
    let [kind, kinds @ ..] = kinds else {
        return if first_word(words).is_none() {
            Ok(0)
        } else {
            Err(AsmKind::BadOperand)
        };
    };
    let Some((word, words)) = first_word(words) else {
        return Err(AsmKind::BadOperand);
    };
    let n = operand(labels, *kind, word)?;
    let sum = operands_sum(labels, kinds, words)?;
    Ok(n * weight(*kind) + sum)
}
