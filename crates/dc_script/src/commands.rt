//! The boot commands, each by its words.
#![tactic(auto, using(crate::proofs::Rows::not_one, crate::proofs::Rows::not_two))]

ghost use Rattle.std.specs.Prelude.{◌≡◌};
ghost use Rattle.dc_base.specs.declared.commands.Command.TheVariants as command;
ghost use Rattle.dc_base.specs.ScriptText as spec;
ghost use Rattle.dc_script.specs.Words.{texts_of};

use crate::values::{read_block, read_core, read_version};
use crate::words::Words;
use dc_base::commands::{Bounds, Command};
use dc_base::faults::TextKind;

fn start(bounds: Bounds, words: &Words) -> Result<Command, TextKind>
    ensures { result ≡ spec.two_words (spec.read_core bounds) spec.read_version command.Start (texts_of words.now) }
{
    let (core, version) = words.two()?;
    Ok(Command::Start(read_core(bounds, core)?, read_version(version)?))
}

fn stop(bounds: Bounds, words: &Words) -> Result<Command, TextKind>
    ensures { result ≡ spec.one_word (spec.read_core bounds) command.Stop (texts_of words.now) }
{
    let core = words.one()?;
    Ok(Command::Stop(read_core(bounds, core)?))
}

fn replace(bounds: Bounds, words: &Words) -> Result<Command, TextKind>
    ensures { result ≡ spec.two_words (spec.read_core bounds) spec.read_version command.Replace (texts_of words.now) }
{
    let (core, version) = words.two()?;
    Ok(Command::Replace(read_core(bounds, core)?, read_version(version)?))
}

fn attach(bounds: Bounds, words: &Words) -> Result<Command, TextKind>
    ensures { result ≡ spec.two_words (spec.read_block bounds) (spec.read_core bounds) command.Attach (texts_of words.now) }
{
    let (block, core) = words.two()?;
    Ok(Command::Attach(read_block(bounds, block)?, read_core(bounds, core)?))
}

fn move_home(bounds: Bounds, words: &Words) -> Result<Command, TextKind>
    ensures { result ≡ spec.two_words (spec.read_block bounds) (spec.read_core bounds) command.Move (texts_of words.now) }
{
    let (block, core) = words.two()?;
    Ok(Command::Move(read_block(bounds, block)?, read_core(bounds, core)?))
}

fn park(bounds: Bounds, words: &Words) -> Result<Command, TextKind>
    ensures { result ≡ spec.two_words (spec.read_block bounds) (spec.read_core bounds) command.Park (texts_of words.now) }
{
    let (block, core) = words.two()?;
    Ok(Command::Park(read_block(bounds, block)?, read_core(bounds, core)?))
}

fn unpark(bounds: Bounds, words: &Words) -> Result<Command, TextKind>
    ensures { result ≡ spec.two_words (spec.read_block bounds) (spec.read_core bounds) command.Unpark (texts_of words.now) }
{
    let (block, core) = words.two()?;
    Ok(Command::Unpark(read_block(bounds, block)?, read_core(bounds, core)?))
}

/// The command of this name.
#[tactic(auto, unfolding(dc_base::specs::ScriptText::command_of))]
pub(crate) fn read_command(bounds: Bounds, name: &[u8], words: &Words) -> Result<Command, TextKind>
    ensures { result ≡ spec.command_of bounds name.now (texts_of words.now) }
{
    match name {
        b"start" => start(bounds, words),
        b"stop" => stop(bounds, words),
        b"replace" => replace(bounds, words),
        b"attach" => attach(bounds, words),
        b"move" => move_home(bounds, words),
        b"park" => park(bounds, words),
        b"unpark" => unpark(bounds, words),
        _ => Err(TextKind::UnknownWord),
    }
}
