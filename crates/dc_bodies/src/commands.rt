//! The command at the script's place goes on.

ghost use Rattle.std.specs.Prelude.{◌≡◌, ℕ, ◌<◌, ◌≤◌, ◌+◌, IfErr, IfOk, length};
ghost use Rattle.dc_base.specs.declared.commands.ScriptLine.TheVariants as line;
ghost use Rattle.dc_base.specs.Commands.{raise_above};
ghost use Rattle.dc_base.specs.CoreRuns.{polls_at};
ghost use Rattle.dc_base.specs.Script.{next_raise};
ghost use Rattle.dc_bodies.specs.Awaits.{IsAwaited, IsPoll};
ghost use Rattle.dc_bodies.specs.Scripted.{GoesOn, IsNoCommand, IsNoPoll, IsRouted};

use crate::entries::by_script;
use dc_base::commands::ScriptLine;
use dc_base::entries::{Entry, Reason, What};
use dc_base::numbers::{BlockNo, CoreNo, LineNo};
use dc_channel::Console;
use dc_lines::Line;
use dc_objects::ScriptState;

/// The raise above the script's place that has not been made, if there is one.
fn raise_above(script: &ScriptState) -> Option<u32>
    ensures { result ≡ raise_above script.now.place (next_raise script.now.lines script.now.raises) }
{
    let q = script.next_raise()?;
    if q < script.place() { Some(q) } else { None }
}

/// The line of the command at which the script stands, or why it does not go on.
pub fn next_command(script: &ScriptState) -> Result<ScriptLine, Reason>
    ensures line { IfOk result (GoesOn script.now) }
    ensures none { IfErr result (IsNoCommand script.now) }
    ensures quiet { IfErr result IsNoPoll }
{
    if script.is_over() {
        return Err(Reason::ScriptEnded);
    }
    if let Some(line) = raise_above(script) {
        return Err(Reason::RaisesFirst { line });
    }
    match script.line(script.place()) {
        Some(line) => Ok(line),
        None => Err(Reason::ScriptEnded),
    }
}

/// A line of the machine is routed to a core.
pub fn route_held(script: &mut ScriptState, wire: &mut Line, l: LineNo, core: CoreNo) -> Entry
    requires { GoesOn script.old (line.Route l core) }
    ensures { IsRouted l.0 script.old script.new wire.old wire.new result }
{
    let place = script.place();
    wire.route(core);
    script.go_on();
    by_script(What::Route {
        place,
        line: l,
        core,
    })
}

/// The await is over, since the console has enough words.
pub fn met_held(script: &mut ScriptState, console: &Console, polls: &mut u32, b: BlockNo) -> Entry
    requires { (words : ℕ) × (limit : ℕ) × GoesOn script.old (line.Await b words limit) × (words ≤ length console.now) }
    ensures turn { IsAwaited b.0 script.old script.new console.now polls.old result }
    ensures polls { polls.new ≡ 0 }
{
    let place = script.place();
    let seen = console.len();
    *polls = 0;
    script.go_on();
    by_script(What::Met {
        place,
        block: b,
        seen,
    })
}

/// The await is over, since the console has too few words and was polled often enough.
pub fn unmet_held(script: &mut ScriptState, console: &Console, polls: &mut u32, b: BlockNo) -> Entry
    requires { (words : ℕ) × (limit : ℕ) × GoesOn script.old (line.Await b words limit) × (length console.now < words) × (limit ≤ polls.old + 1) }
    ensures turn { IsAwaited b.0 script.old script.new console.now polls.old result }
    ensures polls { polls.new ≡ 0 }
{
    let place = script.place();
    let seen = console.len();
    *polls = 0;
    script.go_on();
    by_script(What::Unmet {
        place,
        block: b,
        seen,
    })
}

/// A poll of a console that has too few words, after which it may be polled again.
pub fn poll_held(script: &ScriptState, console: &Console, polls: &mut u32, b: BlockNo) -> Reason
    requires poll { (words : ℕ) × (limit : ℕ) × GoesOn script.now (line.Await b words limit) × (length console.now < words) × (polls.old + 1 < limit) }
    requires most { polls.old < 1000000000 }
    ensures turn { IsPoll b.0 script.now console.now polls.old result }
    ensures polls { polls.new ≡ polls.old + 1 }
    ensures told { polls.new ≡ polls_at result polls.old }
{
    *polls += 1;
    Reason::Few {
        seen: console.len(),
        polls: *polls,
    }
}

/// A poll of the console that the command awaits: it has enough words, or was polled often enough, or may be polled again.
pub fn await_held(
    script: &mut ScriptState,
    console: &Console,
    polls: &mut u32,
    b: BlockNo,
    words: u32,
    limit: u32,
) -> Result<Entry, Reason>
    requires goes { GoesOn script.old (line.Await b words limit) }
    requires polls { polls.old ≤ 1000000000 }
    requires limit { limit ≤ 1000000000 }
    ensures over { IfOk result (λ e. IsAwaited b.0 script.old script.new console.now polls.old e × (polls.new ≡ 0)) }
    ensures poll { IfErr result (λ why. IsPoll b.0 script.old console.now polls.old why × (polls.new ≡ polls_at why polls.old) × (script.new ≡ script.old)) }
    ensures few { polls.new ≤ 1000000000 }
{
    if console.len() >= words {
        return Ok(met_held(script, console, polls, b));
    }
    if *polls + 1 < limit {
        return Err(poll_held(script, console, polls, b));
    }
    Ok(unmet_held(script, console, polls, b))
}
