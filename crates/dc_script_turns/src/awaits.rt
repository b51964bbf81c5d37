//! The script awaits words of a console.

ghost use Rattle.std.specs.Prelude.{◌≡◌, ◌<◌, ◌≤◌, ◌+◌, ◌-◌, ◌^◌, ◌∷◌, [], length, min};
ghost use Rattle.dc_base.specs.declared.actions.Action.TheVariants as action;
ghost use Rattle.dc_base.specs.declared.commands.ScriptLine.TheVariants as line;
ghost use Rattle.dc_base.specs.Changes.{a_console, console};
ghost use Rattle.dc_bodies.specs.Scripted.{GoesOn};
ghost use Rattle.dc_stage.specs.History.{own};
ghost use Rattle.dc_stage.specs.Passes.{IsOf};
ghost use Rattle.dc_hands.specs.Hands.{HoldsScript};
ghost use Rattle.dc_hands.specs.Holding.{Has};
ghost use Rattle.dc_hands.specs.Machines.{IsOpened};
ghost use Rattle.dc_script_turns.specs.Scripting.{Counts, HoldsBeside, IsQuiet, Polls};

use dc_base::entries::Reason;
use dc_base::numbers::BlockNo;
use dc_bodies::{await_held, met_held};
use dc_channel::Console;
use dc_hands::{ScriptHand, Turned, commit, put_console, take_console};
use dc_kernel::Driver;
use dc_scene::Machine;
use dc_stage::{Pass, Stage};

/// The console that the command awaits is polled once.
pub(crate) fn await_turn<D: Driver>(
    stage: &Stage<Machine<D>>,
    pass: &mut Pass<Machine<D>>,
    hand: &mut ScriptHand,
    b: BlockNo,
    words: u32,
    limit: u32,
) -> Turned
    requires opened { IsOpened stage.now }
    requires stage { IsOf pass.old stage.now }
    requires hand { HoldsScript stage.now pass.old hand.old }
    requires room { length (own pass.old.actor pass.old.seen) < 2 ^ 56 }
    requires goes { GoesOn hand.old.script (line.Await b words limit) }
    ensures { Counts stage.now pass.old pass.new hand.old hand.new action.Script result }
{
    let console = match take_console(stage, pass, b) {
        Ok(console) => console,
        Err(busy) => return Turned::Busy(busy),
    };
    match await_held(&mut hand.script, &console, &mut hand.polls, b, words, limit) {
        Ok(entry) => {
            let ticket = commit(stage, pass, &entry);
            put_console(stage, pass, b, console);
            Turned::Did { entry, ticket }
        }
        Err(why) => {
            put_console(stage, pass, b, console);
            Turned::NotEnabled(why)
        }
    }
}

/// The await is over, since its console, which is at hand, has enough words.
fn meet<D: Driver>(
    stage: &Stage<Machine<D>>,
    pass: &mut Pass<Machine<D>>,
    hand: &mut ScriptHand,
    found: Console,
    b: BlockNo,
    words: u32,
    limit: u32,
) -> Turned
    requires opened { IsOpened stage.now }
    requires stage { IsOf pass.old stage.now }
    requires holds { HoldsBeside stage.now pass.old hand.old.script (a_console b.0 ∷ []) }
    requires room { length (own pass.old.actor pass.old.seen) < 2 ^ 56 }
    requires console { Has stage.now pass.old (a_console b.0) (console found) }
    requires goes { GoesOn hand.old.script (line.Await b words limit) }
    requires enough { words ≤ length found }
    ensures counts { Counts stage.now pass.old pass.new hand.old hand.new action.Script result }
    ensures quiet { IsQuiet result }
{
    let entry = met_held(&mut hand.script, &found, &mut hand.polls, b);
    let ticket = commit(stage, pass, &entry);
    put_console(stage, pass, b, found);
    Turned::Did { entry, ticket }
}

/// The polls after at most so many more, none of which is the one that ends the await.
fn more_polls(polls: u32, limit: u32, most: u32) -> u32
    ensures { result ≡ polls + min most (limit - 1 - polls) }
{
    if limit == 0 || limit - 1 <= polls {
        return polls;
    }
    let left = limit - 1 - polls;
    if most < left { polls + most } else { limit - 1 }
}

/// The console that the command awaits is polled at most so many times while it is held, as long as it has too few words and may be polled again.
pub(crate) fn await_more<D: Driver>(
    stage: &Stage<Machine<D>>,
    pass: &mut Pass<Machine<D>>,
    hand: &mut ScriptHand,
    b: BlockNo,
    words: u32,
    limit: u32,
    most: u32,
) -> Turned
    requires opened { IsOpened stage.now }
    requires stage { IsOf pass.old stage.now }
    requires hand { HoldsScript stage.now pass.old hand.old }
    requires room { length (own pass.old.actor pass.old.seen) < 2 ^ 56 }
    requires goes { GoesOn hand.old.script (line.Await b words limit) }
    ensures { Polls stage.now pass.old pass.new hand.old hand.new most result }
{
    let console = match take_console(stage, pass, b) {
        Ok(console) => console,
        Err(busy) => return Turned::Busy(busy),
    };
    let seen = console.len();
    if seen >= words {
        return meet(stage, pass, hand, console, b, words, limit);
    }
    put_console(stage, pass, b, console);
    hand.polls = more_polls(hand.polls, limit, most);
    Turned::NotEnabled(Reason::Few {
        seen,
        polls: hand.polls,
    })
}
