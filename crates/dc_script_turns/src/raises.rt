//! Raise: the next raise of the script is made.

ghost use Rattle.std.specs.Prelude.{◌<◌, ◌^◌, length};
ghost use Rattle.dc_base.specs.declared.actions.Action.TheVariants as action;
ghost use Rattle.dc_bodies.specs.Scripted.{IsNextRaise};
ghost use Rattle.dc_stage.specs.History.{own};
ghost use Rattle.dc_stage.specs.Passes.{IsOf};
ghost use Rattle.dc_hands.specs.Hands.{HoldsScript};
ghost use Rattle.dc_hands.specs.Machines.{IsOpened};
ghost use Rattle.dc_script_turns.specs.Scripting.{Acts};

use dc_bodies::{NextRaise, next_raise, raise_held};
use dc_hands::{ScriptHand, Turned, commit, put_line, take_line};
use dc_kernel::Driver;
use dc_scene::Machine;
use dc_stage::{Pass, Stage};

/// The script makes this raise.
fn make_raise<D: Driver>(
    stage: &Stage<Machine<D>>,
    pass: &mut Pass<Machine<D>>,
    hand: &mut ScriptHand,
    raise: NextRaise,
) -> Turned
    requires opened { IsOpened stage.now }
    requires stage { IsOf pass.old stage.now }
    requires hand { HoldsScript stage.now pass.old hand.old }
    requires room { length (own pass.old.actor pass.old.seen) < 2 ^ 56 }
    requires next { IsNextRaise hand.old.script raise.place raise.line }
    ensures { Acts stage.now pass.old pass.new hand.old hand.new action.Raise result }
{
    let line = raise.line;
    let mut wire = match take_line(stage, pass, line) {
        Ok(wire) => wire,
        Err(busy) => return Turned::Busy(busy),
    };
    let entry = raise_held(&mut hand.script, &mut wire, raise);
    let ticket = commit(stage, pass, &entry);
    put_line(stage, pass, line, wire);
    Turned::Did { entry, ticket }
}

/// The script makes its next raise, if it may.
pub(crate) fn raise_turn<D: Driver>(
    stage: &Stage<Machine<D>>,
    pass: &mut Pass<Machine<D>>,
    hand: &mut ScriptHand,
) -> Turned
    requires opened { IsOpened stage.now }
    requires stage { IsOf pass.old stage.now }
    requires hand { HoldsScript stage.now pass.old hand.old }
    requires room { length (own pass.old.actor pass.old.seen) < 2 ^ 56 }
    ensures { Acts stage.now pass.old pass.new hand.old hand.new action.Raise result }
{
    match next_raise(&hand.script) {
        Ok(raise) => make_raise(stage, pass, hand, raise),
        Err(why) => Turned::NotEnabled(why),
    }
}
