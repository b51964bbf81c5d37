//! Script: the command at the script's place goes on.

ghost use Rattle.std.specs.Prelude.{◌≡◌, ℕ, ◌<◌, ◌≤◌, if◌then◌else◌, length};
ghost use Rattle.dc_base.specs.declared.actions.Actor.TheVariants as actor;
ghost use Rattle.dc_base.specs.declared.actions.Action.TheVariants as action;
ghost use Rattle.dc_base.specs.declared.commands.ScriptLine.TheVariants as line;
ghost use Rattle.dc_base.specs.Cores.{core_step};
ghost use Rattle.dc_base.specs.Sound.{IsSound};
ghost use Rattle.dc_bodies.specs.Scripted.{GoesOn};
ghost use Rattle.dc_objects.specs.States.{state_of};
ghost use Rattle.dc_machine.specs.Answers.{Answers, IsQuiet, is_did, polls_then};

use crate::posts::boot_turn;
use dc_base::commands::ScriptLine;
use dc_base::entries::Reason;
use dc_base::numbers::{BlockNo, CoreNo, LineNo};
use dc_bodies::{Stepped, await_held, next_command, route_held};
use dc_kernel::Driver;
use dc_objects::Objects;

/// A line of the machine is routed to a core.
fn route<D: Driver>(objects: &mut Objects<D>, l: LineNo, core: CoreNo) -> Stepped
    requires line { l.0 < length objects.old.lines.items }
    requires goes { GoesOn objects.old.script (line.Route l core) }
    ensures step { (polls : ℕ) → Answers result (state_of objects.old) (state_of objects.new)
        (core_step (state_of objects.old) polls actor.Script action.Script) }
    ensures quiet { IsQuiet result }
{
    let wire = &mut objects.lines[l.0 as usize];
    Stepped::Did(route_held(&mut objects.script, wire, l, core))
}

/// A poll of a console.
fn poll<D: Driver>(
    objects: &mut Objects<D>,
    polls: &mut u32,
    b: BlockNo,
    words: u32,
    limit: u32,
) -> Stepped
    requires block { b.0 < length objects.old.consoles.items }
    requires goes { GoesOn objects.old.script (line.Await b words limit) }
    requires polls { polls.old ≤ 1000000000 }
    requires limit { limit ≤ 1000000000 }
    ensures step { Answers result (state_of objects.old) (state_of objects.new) (core_step (state_of objects.old) polls.old actor.Script action.Script) }
    ensures polls { polls.new ≡ polls_then action.Script polls.old (core_step (state_of objects.old) polls.old actor.Script action.Script) }
    ensures few { polls.new ≤ 1000000000 }
{
    let console = &objects.consoles[b.0 as usize];
    match await_held(&mut objects.script, console, polls, b, words, limit) {
        Ok(entry) => Stepped::Did(entry),
        Err(why) => Stepped::NotEnabled(why),
    }
}

/// The polls after a turn of the script that was no poll.
fn without_poll(polls: &mut u32, stepped: Stepped) -> Stepped
    ensures same { result ≡ stepped }
    ensures polls { polls.new ≡ (if is_did stepped then 0 else polls.old) }
{
    if let Stepped::Did(_) = stepped {
        *polls = 0;
    }
    stepped
}

/// The command on a line of the script goes on, at which the script stands.
#[tactic(auto, using(crate::proofs::ScriptTurns::quiet_script))]
fn command<D: Driver>(objects: &mut Objects<D>, polls: &mut u32, line: ScriptLine) -> Stepped
    requires sound { IsSound (state_of objects.old) }
    requires polls { polls.old ≤ 1000000000 }
    requires goes { GoesOn objects.old.script line }
    ensures step { Answers result (state_of objects.old) (state_of objects.new) (core_step (state_of objects.old) polls.old actor.Script action.Script) }
    ensures polls { polls.new ≡ polls_then action.Script polls.old (core_step (state_of objects.old) polls.old actor.Script action.Script) }
    ensures few { polls.new ≤ 1000000000 }
{
    match line {
        ScriptLine::Boot(command) => without_poll(polls, boot_turn(objects, &command)),
        ScriptLine::Route(l, core) => without_poll(polls, route(objects, l, core)),
        ScriptLine::Await(b, words, limit) => poll(objects, polls, b, words, limit),
        ScriptLine::Raise(_) => Stepped::NotEnabled(Reason::ScriptEnded),
    }
}

/// The script goes on with the command at its place, if it may.
#[inline(never)]
pub(crate) fn script_turn<D: Driver>(objects: &mut Objects<D>, polls: &mut u32) -> Stepped
    requires sound { IsSound (state_of objects.old) }
    requires polls { polls.old ≤ 1000000000 }
    ensures step { Answers result (state_of objects.old) (state_of objects.new) (core_step (state_of objects.old) polls.old actor.Script action.Script) }
    ensures polls { polls.new ≡ polls_then action.Script polls.old (core_step (state_of objects.old) polls.old actor.Script action.Script) }
    ensures few { polls.new ≤ 1000000000 }
{
    match next_command(&objects.script) {
        Ok(line) => command(objects, polls, line),
        Err(why) => Stepped::NotEnabled(why),
    }
}
