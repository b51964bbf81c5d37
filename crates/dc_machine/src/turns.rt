//! Steps of the machine.

ghost use Rattle.std.specs.Prelude.{◌≡◌, ◌≤◌, true};
ghost use Rattle.dc_base.specs.declared.actions.Actor.TheVariants as actor;
ghost use Rattle.dc_base.specs.declared.kernels.Version.TheVariants.{Rr, Edf};
ghost use Rattle.dc_base.specs.Cores.{core_step};
ghost use Rattle.dc_base.specs.Sound.{IsSound};
ghost use Rattle.dc_base.specs.Valid.{IsActionOf};
ghost use Rattle.dc_objects.specs.States.{state_of};
ghost use Rattle.dc_machine.specs.Answers.{Answers, IsQuiet, polls_then};

use crate::commands::script_turn;
use crate::intakes::intake_turn;
use crate::orders::order_turn;
use crate::raises::raise_turn;
use crate::steps::step_turn;
use crate::wakes::wake_turn;
use dc_base::actions::{Action, Actor};
use dc_base::entries::Reason;
use dc_base::numbers::CoreNo;
use dc_bodies::Stepped;
use dc_kernel::Driver;
use dc_objects::Objects;

/// An action of a core.
#[inline(always)]
fn core_turn<D: Driver>(objects: &mut Objects<D>, c: CoreNo, action: &Action) -> Stepped
    requires sound { IsSound (state_of objects.old) }
    requires action { IsActionOf (state_of objects.old).script.settings (actor.Core c) action.now }
    requires first { D.served Rr ≡ true }
    requires second { D.served Edf ≡ true }
    ensures step { Answers result (state_of objects.old) (state_of objects.new) (core_step (state_of objects.old) 0 (actor.Core c) action.now) }
    ensures quiet { IsQuiet result }
{
    match *action {
        Action::Step => step_turn(objects, c),
        Action::Order => order_turn(objects, c),
        Action::Intake(l) => intake_turn(objects, c, l),
        Action::Wake(b, d) => wake_turn(objects, c, b, d),
        Action::Script => Stepped::NotEnabled(Reason::ScriptEnded),
        Action::Raise => Stepped::NotEnabled(Reason::NoRaise),
    }
}

/// An action of the script.
#[tactic(auto, using(crate::proofs::ActionTurns::raise_leaves))]
fn script_action<D: Driver>(objects: &mut Objects<D>, polls: &mut u32, action: &Action) -> Stepped
    requires sound { IsSound (state_of objects.old) }
    requires action { IsActionOf (state_of objects.old).script.settings actor.Script action.now }
    requires polls { polls.old ≤ 1000000000 }
    ensures step { Answers result (state_of objects.old) (state_of objects.new) (core_step (state_of objects.old) polls.old actor.Script action.now) }
    ensures polls { polls.new ≡ polls_then action.now polls.old (core_step (state_of objects.old) polls.old actor.Script action.now) }
    ensures few { polls.new ≤ 1000000000 }
{
    match action {
        Action::Script => script_turn(objects, polls),
        Action::Raise => raise_turn(objects),
        _ => Stepped::NotEnabled(Reason::ScriptEnded),
    }
}

/// An action of an actor of the machine, from a sound state. `polls` is the number of polls made of the command at which the script stands, at most
/// 1,000,000,000. The machine serves both versions of the kernel.
#[tactic(auto, using(crate::proofs::ActionTurns::core_alike, crate::proofs::ActionTurns::core_leaves))]
#[inline(always)]
pub fn step<D: Driver>(
    objects: &mut Objects<D>,
    polls: &mut u32,
    who: Actor,
    action: &Action,
) -> Stepped
    requires sound { IsSound (state_of objects.old) }
    requires action { IsActionOf (state_of objects.old).script.settings who action.now }
    requires polls { polls.old ≤ 1000000000 }
    requires first { D.served Rr ≡ true }
    requires second { D.served Edf ≡ true }
    ensures step { Answers result (state_of objects.old) (state_of objects.new) (core_step (state_of objects.old) polls.old who action.now) }
    ensures polls { polls.new ≡ polls_then action.now polls.old (core_step (state_of objects.old) polls.old who action.now) }
    ensures few { polls.new ≤ 1000000000 }
{
    match who {
        Actor::Core(c) => core_turn(objects, c, action),
        Actor::Script => script_action(objects, polls, action),
    }
}
