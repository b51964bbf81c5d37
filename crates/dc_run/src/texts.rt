//! The text of a run.
ghost use Rattle.std.specs.Prelude.{◌≡◌, ◌≤◌, IsTrue, OnErr, map};
ghost use Rattle.std.specs.List.{list_all};
ghost use Rattle.dc_base.specs.EntryRanges.{has_line};
ghost use Rattle.dc_base.specs.EntryText.{journal_text};
ghost use Rattle.dc_base.specs.Objects.{objects as in_order};
ghost use Rattle.dc_base.specs.Sound.{IsSound};
ghost use Rattle.dc_base.specs.States.{State};
ghost use Rattle.dc_io.specs.Counts.{Rose};
ghost use Rattle.dc_numbered.specs.Rooms.{HasRoom};
ghost use Rattle.dc_objects.specs.States.{state_of};
ghost use Rattle.dc_play.specs.Written.{Writes};
ghost use Rattle.dc_run.specs.Texts.{text_of};
ghost use Rattle.dc_scene.specs.Objects.{object_seen};

use dc_base::entries::Entry;
use dc_base::numbers::Ticket;
use dc_both::EitherKernel;
use dc_crew::Ended;
use dc_io::{Failed, Sink};
use dc_journal::entry_line;
use dc_numbered::{Kinds, by_kind};
use dc_objects::Objects;
use dc_play::{put_line, word_line, write_report};

/// Writes the line of each entry of a journal, with its place as its ticket.
fn write_journal<S: Sink>(journal: &[Entry], sink: &mut S) -> Result<(), Failed>
    requires lines { IsTrue (list_all has_line journal.now) }
    ensures writes { Writes (S.told sink.old) (S.told sink.new) (journal_text journal.now) result }
    ensures failed { OnErr result (Rose (S.faults sink.old) (S.faults sink.new)) }
    ensures grows { S.faults sink.old ≤ S.faults sink.new }
{
    for i in 0..journal.len() {
        match put_line(sink, entry_line(Ticket(i as u64), &journal[i])) {
            Ok(()) => {}
            Err(failed) => return Err(failed),
        }
    }
    Ok(())
}

/// Writes a journal whose entries have lines, the report of a sound state, and the end.
pub(crate) fn write_text<S: Sink>(
    journal: &[Entry],
    objects: &Objects<EitherKernel>,
    sink: &mut S,
) -> Result<(), Failed>
    requires lines { IsTrue (list_all has_line journal.now) }
    requires sound { IsSound (state_of objects.now) }
    ensures writes { Writes (S.told sink.old) (S.told sink.new) (text_of journal.now (state_of objects.now)) result }
    ensures failed { OnErr result (Rose (S.faults sink.old) (S.faults sink.new)) }
    ensures grows { S.faults sink.old ≤ S.faults sink.new }
{
    write_journal(journal, sink)?;
    write_report(objects, sink)?;
    put_line(sink, word_line("end"))
}

/// Writes the text of a run that has ended. Its objects go into the empty lists of their kinds, and take no memory.
pub(crate) fn write_ended<S: Sink>(
    ended: Ended,
    kinds: Kinds<EitherKernel>,
    sink: &mut S,
) -> Result<(), Failed>
    requires lines { IsTrue (list_all has_line ended.journal.items) }
    requires objects { (s : State) × (map object_seen ended.objects.items ≡ in_order s) × HasRoom s kinds × IsSound s }
    ensures writes { (s : State) → map object_seen ended.objects.items ≡ in_order s →
        Writes (S.told sink.old) (S.told sink.new) (text_of ended.journal.items s) result }
    ensures failed { OnErr result (Rose (S.faults sink.old) (S.faults sink.new)) }
    ensures grows { S.faults sink.old ≤ S.faults sink.new }
{
    let Ended { journal, objects } = ended;
    let objects = by_kind(objects, kinds);
    write_text(&journal, &objects, sink)
}
