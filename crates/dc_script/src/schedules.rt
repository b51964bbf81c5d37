//! Schedules: the actions of the cores and of the script, and whole texts.
#![tactic(auto, using(crate::proofs::Rows::not_none, crate::proofs::Rows::not_none_behind, crate::proofs::Rows::not_one_behind, crate::proofs::Rows::not_two_behind))]

ghost use Rattle.std.specs.Prelude.{◌≡◌, ◌∷◌, ◌⊎◌, Ok, Err, IfOk, IfErr};
ghost use Rattle.dc_base.specs.declared.actions.Actor.TheVariants as actor;
ghost use Rattle.dc_base.specs.declared.actions.Action.TheVariants as action;
ghost use Rattle.dc_base.specs.ScriptText as spec;
ghost use Rattle.dc_base.specs.States.{Settings};
ghost use Rattle.dc_base.specs.Valid.{IsValidSchedule};
ghost use Rattle.dc_script.specs.Texts.{AreBounds};
ghost use Rattle.dc_script.specs.Words.{texts_of};

use crate::lists::Schedule;
use crate::texts::{Row, read_text};
use crate::values::{read_block, read_core, read_disp, read_line};
use crate::words::Words;
use dc_base::actions::{Action, Actor};
use dc_base::commands::Bounds;
use dc_base::faults::{TextFault, TextKind};
use dc_base::limits::LONGEST_SCHEDULE;
use std::alloc::Global;

/// An action of a core that has no further words.
fn alone(
    bounds: Bounds,
    core: &[u8],
    action: Action,
    words: &Words,
) -> Result<(Actor, Action), TextKind>
    ensures { let line = core.now ∷ texts_of words.now in
        result ≡ spec.one_word (spec.read_core bounds) (λ c. (actor.Core c, action)) line }
{
    words.none()?;
    Ok((Actor::Core(read_core(bounds, core)?), action))
}

fn intake(bounds: Bounds, core: &[u8], words: &Words) -> Result<(Actor, Action), TextKind>
    ensures { let line = core.now ∷ texts_of words.now in
        result ≡ spec.two_words (spec.read_core bounds) (spec.read_line bounds) (λ c l. (actor.Core c, action.Intake l)) line }
{
    let line = words.one()?;
    let core = read_core(bounds, core)?;
    Ok((Actor::Core(core), Action::Intake(read_line(bounds, line)?)))
}

fn wake(bounds: Bounds, core: &[u8], words: &Words) -> Result<(Actor, Action), TextKind>
    ensures { let line = core.now ∷ texts_of words.now in
        result ≡ spec.three_words (spec.read_core bounds) (spec.read_block bounds) spec.read_disp (λ c b d. (actor.Core c, action.Wake b d)) line }
{
    let (block, disp) = words.two()?;
    let core = read_core(bounds, core)?;
    Ok((
        Actor::Core(core),
        Action::Wake(read_block(bounds, block)?, read_disp(disp)?),
    ))
}

/// The action of this name of the core in the first word.
#[tactic(auto, unfolding(dc_base::specs::ScriptText::core_action_line))]
fn core_action(
    bounds: Bounds,
    core: &[u8],
    name: &[u8],
    words: &Words,
) -> Result<(Actor, Action), TextKind>
    ensures { result ≡ spec.core_action_line bounds name.now (core.now ∷ texts_of words.now) }
{
    match name {
        b"step" => alone(bounds, core, Action::Step, words),
        b"order" => alone(bounds, core, Action::Order, words),
        b"intake" => intake(bounds, core, words),
        b"wake" => wake(bounds, core, words),
        _ => Err(TextKind::UnknownWord),
    }
}

/// What stands behind the word `core`.
fn core_line(bounds: Bounds, words: &Words) -> Result<(Actor, Action), TextKind>
    ensures { result ≡ spec.core_words bounds (texts_of words.now) }
{
    let Some((core, words)) = words.split_first() else {
        return Err(TextKind::WrongCount);
    };
    let Some((name, words)) = words.split_first() else {
        return Err(TextKind::WrongCount);
    };
    core_action(bounds, core, name, &words)
}

/// An action of the script.
fn of_script(action: Action, words: &Words) -> Result<(Actor, Action), TextKind>
    ensures { result ≡ spec.no_words (actor.Script, action) (texts_of words.now) }
{
    words.none()?;
    Ok((Actor::Script, action))
}

impl Row for (Actor, Action) {
    ghost line_read = { spec.schedule_line };

    /// The line of a schedule that begins with this name.
    #[tactic(auto, unfolding(dc_base::specs::ScriptText::schedule_line))]
    fn read(bounds: Bounds, name: &[u8], words: &Words) -> Result<(Actor, Action), TextKind> {
        match name {
            b"core" => core_line(bounds, words),
            b"script" => of_script(Action::Script, words),
            b"raise" => of_script(Action::Raise, words),
            _ => Err(TextKind::UnknownWord),
        }
    }
}

/// Reads a schedule of at most 262,144 lines that count. A refusal names its first line with a fault, counted from 1; `TooLong` comes above 33,554,432 bytes.
#[tactic(auto, unfolding(dc_base::specs::ScriptText::schedule_of))]
pub fn read_schedule(alloc: Global, bytes: &[u8], bounds: Bounds) -> Result<Schedule, TextFault>
    ensures schedule { IfOk result (λ schedule. spec.schedule_of bounds bytes.now ≡ Ok schedule) }
    ensures valid { IfOk result (λ schedule. (t : Settings) → AreBounds bounds t → IsValidSchedule t schedule) }

    // Only want of memory is not the text's.
    ensures refused { IfErr result (λ fault. (fault ≡ TextFault.Memory) ⊎ (spec.schedule_of bounds bytes.now ≡ Err fault)) }
{
    read_text::<(Actor, Action), Schedule>(alloc, bytes, bounds, LONGEST_SCHEDULE)
}
