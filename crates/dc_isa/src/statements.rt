//! What stands on a line of code.

ghost use Rattle.std.specs.Prelude.{◌≡◌};
ghost use Rattle.std.specs.List.{list_all};
ghost use Rattle.dc_base.specs.ProgramText as spec;
ghost use Rattle.dc_isa.specs.Statements.{statement_seen};

use crate::scan::{before_comment, first_word};

/// What stands on a line: nothing, the definition of a label, or an instruction with the bytes of its operands.
#[derive(Clone, Copy)]
pub(crate) enum Statement<'a> {
    Nothing,
    Label(&'a [u8]),
    Instruction { name: &'a [u8], operands: &'a [u8] },
}

fn ends_in_colon(word: &[u8]) -> bool
    ensures { result ≡ spec.ends_in_colon word.now }
{
    word.ends_with(b":")
}

fn is_name_byte(byte: u8) -> bool
    ensures { result ≡ spec.is_name_byte byte }
{
    (b'a' <= byte && byte <= b'z') || (b'0' <= byte && byte <= b'9') || byte == b'_'
}

fn are_name_bytes(name: &[u8]) -> bool
    ensures { result ≡ list_all spec.is_name_byte name.now }
{
    name.iter().all(|b| is_name_byte(*b))
}

/// Whether a label may have this name: 1 to 32 small letters, digits and underscores.
pub(crate) fn is_label_name(name: &[u8]) -> bool
    ensures { result ≡ spec.is_label_name name.now }
{
    !name.is_empty() && name.len() <= 32 && are_name_bytes(name)
}

/// What stands on a line.
#[tactic(auto, using(crate::proofs::LineWords::plain_word, crate::proofs::LineWords::more_words, crate::proofs::LineWords::label_alone))]
pub(crate) fn statement_of(line: &[u8]) -> Statement<'_>
    ensures { statement_seen result ≡ spec.statement (spec.code_words line.now) }
{
    let Some((word, rest)) = first_word(before_comment(line)) else {
        return Statement::Nothing;
    };
    if !ends_in_colon(word) {
        return Statement::Instruction {
            name: word,
            operands: rest,
        };
    }
    match first_word(rest) {
        None => Statement::Label(&word[..word.len() - 1]),
        Some(_) => Statement::Instruction {
            name: word,
            operands: rest,
        },
    }
}
