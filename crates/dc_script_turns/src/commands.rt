//! The command at the script's place goes on, which is no await.

ghost use Rattle.std.specs.Prelude.{◌≡◌, ◌<◌, ◌^◌, length};
ghost use Rattle.dc_base.specs.declared.actions.Action.TheVariants as action;
ghost use Rattle.dc_base.specs.declared.commands.ScriptLine.TheVariants as line;
ghost use Rattle.dc_bodies.specs.Scripted.{GoesOn};
ghost use Rattle.dc_stage.specs.History.{own};
ghost use Rattle.dc_stage.specs.Passes.{IsOf};
ghost use Rattle.dc_hands.specs.Hands.{HoldsScript};
ghost use Rattle.dc_hands.specs.Machines.{IsOpened};
ghost use Rattle.dc_script_turns.specs.Scripting.{Acts, IsNoAwait, IsQuiet, polls_then};

use crate::posts::boot_turn;
use dc_base::commands::ScriptLine;
use dc_base::entries::Reason;
use dc_base::numbers::{CoreNo, LineNo};
use dc_bodies::route_held;
use dc_hands::{ScriptHand, Turned, commit, put_line, take_line};
use dc_kernel::Driver;
use dc_scene::Machine;
use dc_stage::{Pass, Stage};

/// A line of the machine is routed to a core.
fn route<D: Driver>(
    stage: &Stage<Machine<D>>,
    pass: &mut Pass<Machine<D>>,
    hand: &mut ScriptHand,
    l: LineNo,
    core: CoreNo,
) -> Turned
    requires opened { IsOpened stage.now }
    requires stage { IsOf pass.old stage.now }
    requires hand { HoldsScript stage.now pass.old hand.old }
    requires room { length (own pass.old.actor pass.old.seen) < 2 ^ 56 }
    requires goes { GoesOn hand.old.script (line.Route l core) }
    ensures { Acts stage.now pass.old pass.new hand.old hand.new action.Script result }
{
    let mut wire = match take_line(stage, pass, l) {
        Ok(wire) => wire,
        Err(busy) => return Turned::Busy(busy),
    };
    let entry = route_held(&mut hand.script, &mut wire, l, core);
    let ticket = commit(stage, pass, &entry);
    put_line(stage, pass, l, wire);
    Turned::Did { entry, ticket }
}

/// The command on this line goes on, at which the script stands. It is no await.
pub(crate) fn plain_command<D: Driver>(
    stage: &Stage<Machine<D>>,
    pass: &mut Pass<Machine<D>>,
    hand: &mut ScriptHand,
    line: ScriptLine,
) -> Turned
    requires opened { IsOpened stage.now }
    requires stage { IsOf pass.old stage.now }
    requires hand { HoldsScript stage.now pass.old hand.old }
    requires room { length (own pass.old.actor pass.old.seen) < 2 ^ 56 }
    requires goes { GoesOn hand.old.script line }
    requires plain { IsNoAwait line }
    ensures { Acts stage.now pass.old pass.new hand.old hand.new action.Script result }
{
    match line {
        ScriptLine::Boot(command) => boot_turn(stage, pass, hand, &command),
        ScriptLine::Route(l, core) => route(stage, pass, hand, l, core),
        ScriptLine::Await(..) => unreachable!(),
        ScriptLine::Raise(_) => Turned::NotEnabled(Reason::ScriptEnded),
    }
}

/// No polls were made of the command at the script's place, once an entry was made.
pub(crate) fn begin_again(hand: &mut ScriptHand, turned: Turned) -> Turned
    requires quiet { IsQuiet turned }
    ensures same { result ≡ turned }
    ensures hand { hand.new ≡ record hand.old { polls = polls_then action.Script hand.old.polls turned } }
{
    if let Turned::Did { .. } = turned {
        hand.polls = 0;
    }
    turned
}
