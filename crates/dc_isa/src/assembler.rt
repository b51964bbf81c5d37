//! The assembler.

ghost use Rattle.std.specs.Prelude.{◌≡◌, ℕ, ◌+◌, ◌-◌, ◌<◌, ◌≤◌, ◌^◌, ◌⊎◌, List, [], ◌∷◌, length, vec_len, IfOk, OnOk, IfErr};
ghost use Rattle.dc_base.specs.TextWords.{words_by};
ghost use Rattle.dc_base.specs.ProgramText as spec;
ghost use Rattle.dc_isa.specs.Labels.{label_list, names, capped};
ghost use Rattle.dc_isa.specs.Statements.{statement_seen};
ghost use Rattle.dc_isa.specs.Assembly.{NotesLabel, AddsWord};

use crate::labels::{Labels, no_labels};
use crate::operands::{operands_sum, word_count};
use crate::operations::operation_of;
use crate::statements::{Statement, is_label_name, statement_of};
use dc_base::faults::{AsmFault, AsmKind};
use dc_base::limits::CODE_ROOM;
use dc_text::first_line;
use std::alloc::{AllocError, Global};

/// The word of an instruction.
#[tactic(auto, unfolding(dc_base::specs::ProgramText::word_of))]
fn word_of(labels: &Labels, name: &[u8], operands: &[u8]) -> Result<u32, AsmKind>
    ensures { let words = words_by spec.separates operands.now in
        result ≡ spec.word_of (capped (label_list labels.now)) name.now words }
{
    let Some(operation) = operation_of(name) else {
        return Err(AsmKind::UnknownName);
    };
    if word_count(operands) != operation.operands.len() {
        return Err(AsmKind::BadOperand);
    }
    let sum = operands_sum(labels, operation.operands, operands)?;
    Ok(operation.number * 16777216 + sum)
}

/// Notes the place of a label, unless its name is bad or has a place already.
fn note_name<'a>(labels: &mut Labels<'a>, name: &'a [u8], place: u32) -> Result<(), AllocError>
    ensures { let statement = spec.label name.now in
        OnOk result (NotesLabel (label_list labels.old) (label_list labels.new) place place statement) }
{
    if !is_label_name(name) {
        return Ok(());
    }
    if labels.place_of(name).is_some() {
        return Ok(());
    }
    labels.define(name, place)
}

/// Notes the label of a statement, if it has one, and gives the place of the next word.
fn note_label<'a>(
    labels: &mut Labels<'a>,
    statement: Statement<'a>,
    place: u32,
) -> Result<u32, AllocError>
    requires { place < 2 ^ 32 - 1 }
    ensures { let seen = statement_seen statement.entry in
        IfOk result (λ next.
        NotesLabel (label_list labels.old) (label_list labels.new) place next seen) }
{
    match statement {
        Statement::Nothing => Ok(place),
        Statement::Label(name) => {
            note_name(labels, name, place)?;
            Ok(place)
        }
        Statement::Instruction { .. } => Ok(place + 1),
    }
}

/// The first place of each label in a text.
fn labels_of<'a>(alloc: Global, text: &'a [u8]) -> Result<Labels<'a>, AllocError>
    requires { length text.now < 2 ^ 32 - 1 }
    ensures { let labels_in = spec.labels_from 0 (spec.statements text.now) in
        IfOk result (λ labels.
        (q : List ℕ) → spec.place_of (label_list labels) q ≡ spec.place_of labels_in q) }
{
    let mut labels = no_labels(alloc);
    let mut place = 0;
    let mut rest = Some(text);
    while let Some(text) = rest {
        let (line, further) = first_line(text);
        place = note_label(&mut labels, statement_of(line), place)?;
        rest = further;
    }
    Ok(labels)
}

/// Whether a label may be defined below these.
fn check_label(above: &Labels, name: &[u8]) -> Result<(), AsmKind>
    ensures { result ≡ spec.defines (names above.now) name.now }
{
    if !is_label_name(name) {
        return Err(AsmKind::BadOperand);
    }
    if above.has(name) {
        return Err(AsmKind::TwiceLabel);
    }
    Ok(())
}

/// Reads the definition of a label.
fn add_label<'a>(above: &mut Labels<'a>, name: &'a [u8], line: u32) -> Result<(), AsmFault>
    ensures { (labels : List spec.Label) (code : List ℕ) →
        let statement = spec.label name.now in
        AddsWord result labels line code code (names above.old) (names above.new) statement }
{
    if let Err(kind) = check_label(above, name) {
        return Err(AsmFault::Bad { line, kind });
    }
    // Of the labels above only the names count.
    match above.define(name, 0) {
        Ok(()) => Ok(()),
        Err(_) => Err(AsmFault::Memory),
    }
}

/// Reads an instruction, and adds its word to the code.
fn add_word(
    labels: &Labels,
    code: &mut Vec<u32>,
    name: &[u8],
    operands: &[u8],
    line: u32,
) -> Result<(), AsmFault>
    requires { vec_len code.old ≤ 1024 }
    ensures word { (above : List (List ℕ)) →
        let known = capped (label_list labels.now) in
        let statement = spec.instruction name.now (words_by spec.separates operands.now) in
        AddsWord result known line code.old.items code.new.items above above statement }
    ensures short { vec_len code.new ≤ 1024 }
{
    let word = match word_of(labels, name, operands) {
        Ok(word) => word,
        Err(kind) => return Err(AsmFault::Bad { line, kind }),
    };
    if code.len() >= CODE_ROOM {
        return Err(AsmFault::Bad {
            line,
            kind: AsmKind::TooLong,
        });
    }
    match code.push(word) {
        Ok(()) => Ok(()),
        Err(_) => Err(AsmFault::Memory),
    }
}

/// Reads a statement.
fn add_statement<'a>(
    labels: &Labels,
    above: &mut Labels<'a>,
    code: &mut Vec<u32>,
    statement: Statement<'a>,
    line: u32,
) -> Result<(), AsmFault>
    requires { vec_len code.old ≤ 1024 }
    ensures word { let known = capped (label_list labels.now) in
        let seen = statement_seen statement.entry in
        AddsWord result known line code.old.items code.new.items (names above.old) (names above.new) seen }
    ensures short { vec_len code.new ≤ 1024 }
{
    match statement {
        Statement::Nothing => Ok(()),
        Statement::Label(name) => add_label(above, name, line),
        Statement::Instruction { name, operands } => add_word(labels, code, name, operands, line),
    }
}

/// The words of a text with these labels.
fn words_of(alloc: Global, labels: &Labels, text: &[u8]) -> Result<Vec<u32>, AsmFault>
    requires { length text.now < 2 ^ 32 - 1 }
    ensures words { let words = spec.words_from (capped (label_list labels.now)) 1 0 [] (spec.statements text.now) in
        IfOk result (λ code. words ≡ Ok code.items) }
    ensures fault { let words = spec.words_from (capped (label_list labels.now)) 1 0 [] (spec.statements text.now) in
        IfErr result (λ e. (e ≡ AsmFault.Memory) ⊎ (words ≡ Err e)) }
    ensures short { IfOk result (λ code. vec_len code ≤ 1024) }
{
    let mut above = no_labels(alloc);
    let mut code = Vec::new(alloc);
    let mut line = 0;
    let mut rest = Some(text);
    while let Some(text) = rest {
        let (bytes, further) = first_line(text);
        line += 1;
        add_statement(labels, &mut above, &mut code, statement_of(bytes), line)?;
        rest = further;
    }
    Ok(code)
}

/// The words of a text of code, of which there are at most 1,024, or the fault of its first line that has one.
#[tactic(auto, using(crate::proofs::Programs::same_program))]
pub fn assemble(alloc: Global, text: &str) -> Result<Vec<u32>, AsmFault>
    requires { length text.now < 2 ^ 32 - 1 }
    ensures program { IfOk result (λ code. spec.program_of text.now ≡ Ok code.items) }

    // Only want of memory is not the text's.
    ensures fault { IfErr result (λ e. (e ≡ AsmFault.Memory) ⊎ (spec.program_of text.now ≡ Err e)) }
    ensures short { IfOk result (λ code. vec_len code ≤ 1024) }
{
    let text = text.as_bytes();
    let labels = match labels_of(alloc, text) {
        Ok(labels) => labels,
        Err(_) => return Err(AsmFault::Memory),
    };
    words_of(alloc, &labels, text)
}
