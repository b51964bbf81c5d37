//! Texts are read line by line.

ghost use Rattle.std.specs.Prelude.{◌≡◌, ◌≤◌, ◌<◌, ◌^◌, ◌∷◌, ◌⊎◌, All, length, IfOk, OnOk, IfErr};
ghost use Rattle.dc_base.specs.Limits.{longest_file};
ghost use Rattle.dc_base.specs.TextWords.{lines_of};
ghost use Rattle.dc_base.specs.ScriptText.{text_read, counted_from, lines_read};
ghost use Rattle.dc_text.specs.Places.{texts_at, IsPlaceIn};
ghost use Rattle.dc_script.specs.Texts.{is_comment, counted_words, AddsLine};

use crate::found::Found;
use crate::words::Words;
use arrayvec::ArrayVec;
use dc_base::commands::Bounds;
use dc_base::faults::{TextFault, TextKind};
use dc_base::limits::LONGEST_FILE;
use dc_text::{first_line, words};
use std::alloc::Global;

/// What a line of a text says.
pub(crate) trait Row: Copy {
    ghost use Rattle.std.specs.Prelude.{ℕ, List, Result};
    ghost use Rattle.dc_base.specs.declared.commands.Bounds.{Bounds};
    ghost use Rattle.dc_base.specs.declared.faults.TextKind.{TextKind};
    ghost use Rattle.dc_script.specs.Words.{texts_of};

    ghost line_read: { Bounds → List (List ℕ) → Result Self TextKind };

    /// Reads the line that begins with this name.
    fn read(bounds: Bounds, name: &[u8], words: &Words) -> Result<Self, TextKind>
        ensures { result ≡ line_read bounds (name.now ∷ texts_of words.now) };
}

fn is_comment(line: &[u8]) -> bool
    ensures { result ≡ is_comment line.now }
{
    line.starts_with(b"#")
}

/// The places of the first words of a line that counts. None where the line does not count.
#[tactic(auto, using(crate::proofs::Counting::comment, crate::proofs::Counting::plain))]
fn counted(line: &[u8]) -> ArrayVec<(u32, u32), 16>
    requires { length line.now < 2 ^ 32 }
    ensures texts { texts_at line.now result.items ≡ counted_words line.now }
    ensures within { All (IsPlaceIn line.now) result.items }
{
    if is_comment(line) {
        ArrayVec::new()
    } else {
        words(line)
    }
}

/// Reads a line, and adds what it says.
#[tactic(auto, using(crate::proofs::Counting::skips, crate::proofs::Counting::too_many, crate::proofs::Counting::refuses, crate::proofs::Counting::adds))]
fn add_line<T: Row, F: Found<T>>(
    found: &mut F,
    bounds: Bounds,
    limit: usize,
    line: &[u8],
    number: u32,
) -> Result<(), TextFault>
    requires long { length line.now < 2 ^ 32 }
    requires few { length (F.listed found.old) ≤ limit }
    ensures added { AddsLine (T.line_read bounds) limit (F.listed found.old) (F.listed found.new) number line.now result }
    ensures few { OnOk result (length (F.listed found.new) ≤ limit) }
{
    let places = counted(line);
    let Some((name, words)) = Words::at(line, places.as_slice()).split_first() else {
        return Ok(());
    };
    if found.room(limit) == 0 {
        return Err(TextFault::Bad {
            line: number,
            kind: TextKind::TooMany,
        });
    }
    let row = match T::read(bounds, name, &words) {
        Ok(row) => row,
        Err(kind) => return Err(TextFault::Bad { line: number, kind }),
    };
    match found.add(row) {
        Ok(()) => Ok(()),
        Err(_) => Err(TextFault::Memory),
    }
}

/// What the lines of a text say.
fn read_lines<T: Row, F: Found<T>>(
    alloc: Global,
    text: &[u8],
    bounds: Bounds,
    limit: usize,
) -> Result<F, TextFault>
    requires { length text.now ≤ longest_file }
    ensures lines { let lines = counted_from 1 (lines_of text.now) in
        IfOk result (λ found. lines_read (T.line_read bounds) limit lines ≡ Ok (F.listed found)) }
    ensures fault { let lines = counted_from 1 (lines_of text.now) in
        IfErr result (λ e. (e ≡ TextFault.Memory) ⊎ (lines_read (T.line_read bounds) limit lines ≡ Err e)) }
{
    let mut found = F::none(alloc);
    let mut number = 0;
    let mut rest = Some(text);
    while let Some(text) = rest {
        let (line, further) = first_line(text);
        number += 1;
        add_line::<T, F>(&mut found, bounds, limit, line, number)?;
        rest = further;
    }
    Ok(found)
}

/// What a text says, line by line, with at most so many lines that count.
#[tactic(auto, unfolding(dc_base::specs::ScriptText::text_read))]
pub(crate) fn read_text<T: Row, F: Found<T>>(
    alloc: Global,
    text: &[u8],
    bounds: Bounds,
    limit: usize,
) -> Result<F, TextFault>
    ensures lines { IfOk result (λ found. text_read (T.line_read bounds) limit text.now ≡ Ok (F.listed found)) }
    ensures fault { IfErr result (λ e. (e ≡ TextFault.Memory) ⊎ (text_read (T.line_read bounds) limit text.now ≡ Err e)) }
{
    if text.len() > LONGEST_FILE {
        return Err(TextFault::TooLong);
    }
    read_lines::<T, F>(alloc, text, bounds, limit)
}
