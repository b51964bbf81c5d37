//! Raise: the next raise of the script is made.

ghost use Rattle.std.specs.Prelude.{ℕ};
ghost use Rattle.dc_base.specs.declared.actions.Actor.TheVariants as actor;
ghost use Rattle.dc_base.specs.declared.actions.Action.TheVariants as action;
ghost use Rattle.dc_base.specs.Cores.{core_step};
ghost use Rattle.dc_base.specs.Sound.{IsSound};
ghost use Rattle.dc_objects.specs.States.{state_of};
ghost use Rattle.dc_machine.specs.Answers.{Answers, IsQuiet};

use dc_bodies::{Stepped, next_raise, raise_held};
use dc_kernel::Driver;
use dc_objects::Objects;

/// The script makes its next raise, if it may.
pub(crate) fn raise_turn<D: Driver>(objects: &mut Objects<D>) -> Stepped
    requires { IsSound (state_of objects.old) }
    ensures step { (polls : ℕ) → Answers result (state_of objects.old) (state_of objects.new)
        (core_step (state_of objects.old) polls actor.Script action.Raise) }
    ensures quiet { IsQuiet result }
{
    match next_raise(&objects.script) {
        Ok(raise) => {
            let wire = &mut objects.lines[raise.line.0 as usize];
            Stepped::Did(raise_held(&mut objects.script, wire, raise))
        }
        Err(why) => Stepped::NotEnabled(why),
    }
}
