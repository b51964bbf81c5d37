//! Scripts: the lines beside the boot commands, and whole texts.
#![tactic(auto, using(crate::proofs::Rows::not_one, crate::proofs::Rows::not_two, crate::proofs::Rows::not_three))]

ghost use Rattle.std.specs.Prelude.{◌≡◌, ◌∷◌, ◌⊎◌, Ok, Err, IfOk, IfErr};
ghost use Rattle.dc_base.specs.declared.commands.ScriptLine.TheVariants as line;
ghost use Rattle.dc_base.specs.ScriptText as spec;
ghost use Rattle.dc_base.specs.States.{Settings};
ghost use Rattle.dc_base.specs.Valid.{IsValidScript};
ghost use Rattle.dc_script.specs.Texts.{AreBounds};
ghost use Rattle.dc_script.specs.Words.{texts_of};

use crate::commands::read_command;
use crate::texts::{Row, read_text};
use crate::values::{number_within, read_block, read_core, read_line};
use crate::words::Words;
use dc_base::commands::{Bounds, ScriptLine};
use dc_base::faults::{TextFault, TextKind};
use dc_base::limits::{CONSOLE_ROOM, LONGEST_SCRIPT, MOST_POLLS};
use dc_base::lists::Items;
use std::alloc::Global;

/// The lines of a script that count, in order.
pub type Script = Items<ScriptLine>;

fn raise(bounds: Bounds, words: &Words) -> Result<ScriptLine, TextKind>
    ensures { result ≡ spec.one_word (spec.read_line bounds) line.Raise (texts_of words.now) }
{
    let line = words.one()?;
    Ok(ScriptLine::Raise(read_line(bounds, line)?))
}

fn route(bounds: Bounds, words: &Words) -> Result<ScriptLine, TextKind>
    ensures { result ≡ spec.two_words (spec.read_line bounds) (spec.read_core bounds) line.Route (texts_of words.now) }
{
    let (line, core) = words.two()?;
    Ok(ScriptLine::Route(read_line(bounds, line)?, read_core(bounds, core)?))
}

/// A wait for so many words of a block, with a limit of polls.
fn await_words(bounds: Bounds, words: &Words) -> Result<ScriptLine, TextKind>
    ensures { let count = spec.number_within 0 65536 in
        let polls = spec.number_within 1 1000000000 in
        result ≡ spec.three_words (spec.read_block bounds) count polls line.Await (texts_of words.now) }
{
    let (block, count, polls) = words.three()?;
    Ok(ScriptLine::Await(
        read_block(bounds, block)?,
        number_within(0, CONSOLE_ROOM as u32, count)?,
        number_within(1, MOST_POLLS, polls)?,
    ))
}

impl Row for ScriptLine {
    ghost line_read = { spec.script_line };

    /// The line of a script that begins with this name.
    #[tactic(auto, unfolding(dc_base::specs::ScriptText::script_line))]
    fn read(bounds: Bounds, name: &[u8], words: &Words) -> Result<ScriptLine, TextKind> {
        match name {
            b"raise" => raise(bounds, words),
            b"route" => route(bounds, words),
            b"await" => await_words(bounds, words),
            _ => Ok(ScriptLine::Boot(read_command(bounds, name, words)?)),
        }
    }
}

/// Reads a script of at most 4,096 lines that count. A refusal names its first line with a fault, counted from 1; `TooLong` comes above 33,554,432 bytes.
#[tactic(auto, unfolding(dc_base::specs::ScriptText::script_of))]
pub fn read_script(alloc: Global, bytes: &[u8], bounds: Bounds) -> Result<Script, TextFault>
    ensures script { IfOk result (λ script. spec.script_of bounds bytes.now ≡ Ok script) }
    ensures valid { IfOk result (λ script. (t : Settings) → AreBounds bounds t → IsValidScript t script) }

    // Only want of memory is not the text's.
    ensures refused { IfErr result (λ fault. (fault ≡ TextFault.Memory) ⊎ (spec.script_of bounds bytes.now ≡ Err fault)) }
{
    read_text::<ScriptLine, Script>(alloc, bytes, bounds, LONGEST_SCRIPT)
}
