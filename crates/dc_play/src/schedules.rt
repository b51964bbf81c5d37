//! The actions of a schedule, and the text of their run.

ghost use Rattle.std.specs.Prelude.{◌≡◌, ◌≤◌, true, IfOk, OnErr};
ghost use Rattle.dc_base.specs.declared.kernels.Version.TheVariants.{Rr, Edf};
ghost use Rattle.dc_base.specs.Cores.{core_step};
ghost use Rattle.dc_base.specs.CoreRuns.{core_run_from};
ghost use Rattle.dc_base.specs.EntryText.{journal_text};
ghost use Rattle.dc_base.specs.Sound.{IsSound};
ghost use Rattle.dc_base.specs.Valid.{IsActionOf, IsValidSchedule};
ghost use Rattle.dc_io.specs.Counts.{Rose};
ghost use Rattle.dc_machine.specs.Answers.{polls_then};
ghost use Rattle.dc_objects.specs.States.{state_of};
ghost use Rattle.dc_play.specs.Played.{PlaysTo};
ghost use Rattle.dc_play.specs.Written.{Writes};

use crate::writing::put_ended;
use dc_base::actions::{Action, Actor};
use dc_base::numbers::Ticket;
use dc_io::{Failed, Sink};
use dc_journal::push_entry;
use dc_kernel::Driver;
use dc_machine::{Objects, Stepped, step};
use dc_script::Schedule;
use dc_sound::sound_keeps;
use dc_text::Line;

/// Makes an action and writes its entry with the help of a lent line, and says whether it made one.
fn play_action<D: Driver, S: Sink>(
    objects: &mut Objects<D>,
    polls: &mut u32,
    ticket: u64,
    who: Actor,
    action: &Action,
    text: &mut Line,
    sink: &mut S,
) -> Result<bool, Failed>
    requires sound { IsSound (state_of objects.old) }
    requires action { IsActionOf (state_of objects.old).script.settings who action.now }
    requires polls { polls.old ≤ 1000000000 }
    requires first { D.served Rr ≡ true }
    requires second { D.served Edf ≡ true }
    ensures plays { PlaysTo (state_of objects.old) (state_of objects.new) ticket (S.told sink.old) (S.told sink.new) result
        (core_step (state_of objects.old) polls.old who action.now) }
    ensures polls { polls.new ≡ polls_then action.now polls.old (core_step (state_of objects.old) polls.old who action.now) }
    ensures few { polls.new ≤ 1000000000 }
    ensures failed { OnErr result (Rose (S.faults sink.old) (S.faults sink.new)) }
    ensures grows { S.faults sink.old ≤ S.faults sink.new }
{
    match step(objects, polls, who, action) {
        Stepped::Did(entry) => {
            text.clear();
            push_entry(text, Ticket(ticket), &entry);
            match put_ended(sink, text) {
                Ok(()) => Ok(true),
                Err(failed) => Err(failed),
            }
        }
        _ => Ok(false),
    }
}

/// Makes the actions of a schedule and writes their entries, and says how many made none.
pub(crate) fn play_schedule<D: Driver, S: Sink>(
    objects: &mut Objects<D>,
    schedule: &Schedule,
    sink: &mut S,
) -> Result<u64, Failed>
    requires sound { IsSound (state_of objects.old) }
    requires schedule { IsValidSchedule (state_of objects.old).script.settings schedule.now }
    requires first { D.served Rr ≡ true }
    requires second { D.served Edf ≡ true }
    ensures state { IfOk result (λ skipped. state_of objects.new ≡ (core_run_from (state_of objects.old) schedule.now).state) }
    ensures skipped { IfOk result (λ skipped. skipped ≡ (core_run_from (state_of objects.old) schedule.now).skipped) }
    ensures sound { IfOk result (λ skipped. IsSound (state_of objects.new)) }
    ensures writes { Writes (S.told sink.old) (S.told sink.new) (journal_text (core_run_from (state_of objects.old) schedule.now).journal) result }
    ensures failed { OnErr result (Rose (S.faults sink.old) (S.faults sink.new)) }
    ensures grows { S.faults sink.old ≤ S.faults sink.new }
{
    sound_keeps();
    let mut polls = 0;
    let mut ticket = 0;
    let mut skipped = 0;
    let mut text = Line::new();
    for at in 0..schedule.len() {
        let (who, action) = schedule.row(at);
        match play_action(objects, &mut polls, ticket, who, &action, &mut text, sink) {
            Ok(made) => {
                if made {
                    ticket += 1;
                } else {
                    skipped += 1;
                }
            }
            Err(failed) => return Err(failed),
        }
    }
    Ok(skipped)
}
