//! Places in the lines of a script.

ghost use Rattle.std.specs.Prelude.{◌≡◌, ◌≤◌, length};
ghost use Rattle.dc_base.specs.Script.{next_command, is_command};
ghost use Rattle.dc_objects.specs.Scripts.{raise_place};

use dc_base::commands::ScriptLine;

pub(crate) fn is_command(line: &ScriptLine) -> bool
    ensures { result ≡ is_command line.now }
{
    match line {
        ScriptLine::Raise(_) => false,
        _ => true,
    }
}

/// The place of the first command at `from` or later, or the number of lines.
#[tactic(auto, using(crate::proofs::ScriptPlaces::commands_from, crate::proofs::ScriptPlaces::command_here, crate::proofs::ScriptPlaces::command_later))]
pub(crate) fn next_command(lines: &[ScriptLine], from: u32) -> u32
    requires most { length lines.now ≤ 4096 }
    requires from { from ≤ length lines.now }
    ensures value { result ≡ next_command lines.now from }
    ensures within { result ≤ length lines.now }
{
    for at in from as usize..lines.len() {
        if is_command(&lines[at]) {
            return at as u32;
        }
    }
    lines.len() as u32
}

/// The place of the first raise at `from` or later, or the number of lines.
#[tactic(auto, using(crate::proofs::ScriptPlaces::raises_from, crate::proofs::ScriptPlaces::raise_here, crate::proofs::ScriptPlaces::raise_later))]
pub(crate) fn raise_at(lines: &[ScriptLine], from: u32) -> u32
    requires most { length lines.now ≤ 4096 }
    requires from { from ≤ length lines.now }
    ensures value { result ≡ raise_place lines.now from }
    ensures within { result ≤ length lines.now }
    ensures past { from ≤ result }
{
    for at in from as usize..lines.len() {
        if !is_command(&lines[at]) {
            return at as u32;
        }
    }
    lines.len() as u32
}
