//! The turns of the script.

ghost use Rattle.std.specs.Prelude.{◌≡◌, ◌<◌, ◌^◌, length};
ghost use Rattle.dc_base.specs.declared.actions.Action.TheVariants as action;
ghost use Rattle.dc_base.specs.declared.actions.Actor.TheVariants as actor;
ghost use Rattle.dc_base.specs.Valid.{IsActionOf};
ghost use Rattle.dc_stage.specs.History.{own};
ghost use Rattle.dc_stage.specs.Passes.{IsOf};
ghost use Rattle.dc_hands.specs.Answers.{AnswersTurn, IsNoEntry};
ghost use Rattle.dc_hands.specs.Hands.{HoldsScript};
ghost use Rattle.dc_hands.specs.Holding.{GoesOn};
ghost use Rattle.dc_hands.specs.Machines.{IsOpened};
ghost use Rattle.dc_script_turns.specs.Scripting.{AnswersPolls, Counts, IsQuiet, polls_then};

use crate::awaits::{await_more, await_turn};
use crate::commands::{begin_again, plain_command};
use crate::raises::raise_turn;
use dc_base::actions::Action;
use dc_base::commands::ScriptLine;
use dc_base::entries::Reason;
use dc_bodies::next_command;
use dc_hands::{ScriptHand, Turned};
use dc_kernel::Driver;
use dc_scene::Machine;
use dc_stage::{Pass, Stage};

/// The script goes on with the command at its place, if it may.
fn command_turn<D: Driver>(
    stage: &Stage<Machine<D>>,
    pass: &mut Pass<Machine<D>>,
    hand: &mut ScriptHand,
) -> Turned
    requires opened { IsOpened stage.now }
    requires stage { IsOf pass.old stage.now }
    requires hand { HoldsScript stage.now pass.old hand.old }
    requires room { length (own pass.old.actor pass.old.seen) < 2 ^ 56 }
    ensures { Counts stage.now pass.old pass.new hand.old hand.new action.Script result }
{
    let line = match next_command(&hand.script) {
        Ok(line) => line,
        Err(why) => return Turned::NotEnabled(why),
    };
    if let ScriptLine::Await(b, words, limit) = line {
        return await_turn(stage, pass, hand, b, words, limit);
    }
    let turned = plain_command(stage, pass, hand, line);
    begin_again(hand, turned)
}

/// An action of the script. It answers what the action came to, and how many polls were made of the command at the script's place then stands in the hand.
pub fn script_turn<D: Driver>(
    stage: &Stage<Machine<D>>,
    pass: &mut Pass<Machine<D>>,
    hand: &mut ScriptHand,
    action: &Action,
) -> Turned
    requires opened { IsOpened stage.now }
    requires stage { IsOf pass.old stage.now }
    requires hand { HoldsScript stage.now pass.old hand.old }
    requires room { length (own pass.old.actor pass.old.seen) < 2 ^ 56 }
    requires action { IsActionOf stage.now.scene.settings actor.Script action.now }
    ensures hand { HoldsScript stage.now pass.new hand.new }
    ensures on { GoesOn pass.old pass.new }
    ensures turn { AnswersTurn stage.now pass.old pass.new hand.old.polls actor.Script action.now result }
    ensures same { IsNoEntry result → hand.new.script ≡ hand.old.script }
    ensures polls { hand.new.polls ≡ polls_then action.now hand.old.polls result }
{
    match action {
        Action::Script => command_turn(stage, pass, hand),
        Action::Raise => raise_turn(stage, pass, hand),
        _ => Turned::NotEnabled(Reason::ScriptEnded),
    }
}

/// As `script_turn` of the script's command. But where the script stands at an await whose console has too few words, the console is polled at most `most`
/// times while it is held, and never for the time that ends the await.
pub fn poll_on<D: Driver>(
    stage: &Stage<Machine<D>>,
    pass: &mut Pass<Machine<D>>,
    hand: &mut ScriptHand,
    most: u32,
) -> Turned
    requires opened { IsOpened stage.now }
    requires stage { IsOf pass.old stage.now }
    requires hand { HoldsScript stage.now pass.old hand.old }
    requires room { length (own pass.old.actor pass.old.seen) < 2 ^ 56 }
    ensures hand { HoldsScript stage.now pass.new hand.new }
    ensures on { GoesOn pass.old pass.new }
    ensures turn { AnswersPolls stage.now pass.old pass.new hand.old hand.new most result }
    ensures same { IsNoEntry result → hand.new.script ≡ hand.old.script }
    ensures polls { hand.new.polls ≡ polls_then action.Script hand.old.polls result }
{
    let line = match next_command(&hand.script) {
        Ok(line) => line,
        Err(why) => return Turned::NotEnabled(why),
    };
    if let ScriptLine::Await(b, words, limit) = line {
        return await_more(stage, pass, hand, b, words, limit, most);
    }
    let turned = plain_command(stage, pass, hand, line);
    begin_again(hand, turned)
}
