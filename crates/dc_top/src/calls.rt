//! The play of three files.

ghost use Rattle.std.specs.Prelude.{◌≡◌, ◌≤◌};
ghost use Rattle.dc_base.specs.PlayText.{play_text};
ghost use Rattle.dc_base.specs.States.{settings_of};
ghost use Rattle.dc_base.specs.Valid.{IsValid, IsValidScript, IsValidSchedule};
ghost use Rattle.dc_io.specs.Counts.{Rose};
ghost use Rattle.dc_top.specs.Contents.{OfFiles};
ghost use Rattle.dc_top.specs.Calls.{IsPlayStatus, PlayAnswers, TellsPlay, Wrote};
ghost use Rattle.dc_top.specs.Written.{PlaysAs};

use crate::loads::load_play;
use crate::statuses::status_of_play;
use crate::tellings::tell;
use dc_base::images::Image;
use dc_both::EitherKernel;
use dc_headline::every_run_is_reported;
use dc_io::{Shelf, Sink};
use dc_play::play;
use dc_ranges::entries_are_in_range;
use dc_script::{Schedule, Script};
use dc_spelling::{tickets_are_in_order, what_is_spelled_is_read};
use std::alloc::Global;

/// Plays with both kernels, and says the status.
#[tactic(auto, using(crate::proofs::Answers::plays_as))]
fn play_inputs<S: Sink>(
    alloc: Global,
    image: &Image,
    script: &Script,
    schedule: &Schedule,
    sink: &mut S,
) -> u8
    requires image { IsValid image.now }
    requires script { IsValidScript (settings_of image.now) script.now }
    requires schedule { IsValidSchedule (settings_of image.now) schedule.now }
    ensures played { PlaysAs (S.faults sink.old) (S.faults sink.new) (S.told sink.old) (S.told sink.new) (play_text image.now script.now schedule.now) result }
    ensures grows { S.faults sink.old ≤ S.faults sink.new }
{
    let played = play::<EitherKernel, S>(alloc, image, script, schedule, sink);
    status_of_play(played)
}

/// Loads and reads an image, a script and a schedule, and stops at the first fault; then plays the schedule, and writes the journal and the report, one line
/// a piece. The answer is a status: 0 where the whole text was written; 2, 3 or 4 where the image, the script or the schedule is refused, with a line that
/// says why; 5 where a file could not be read, with a line that names it; 6 where a put failed, with a part of the text that belongs to the case; 7 where
/// memory was wanting, with nothing.
#[tactic(auto, using(crate::proofs::Answers::plays_write_fault, crate::proofs::Answers::plays_no_memory, crate::proofs::Answers::plays_no_read, crate::proofs::Answers::plays_listed, crate::proofs::Answers::halt_answers, crate::proofs::Answers::halt_read_fault, crate::proofs::Answers::halt_write_fault, crate::proofs::Answers::halt_no_memory, crate::proofs::Answers::halt_listed))]
pub fn play_call<H: Shelf, S: Sink>(
    alloc: Global,
    shelf: &mut H,
    sink: &mut S,
    image: &str,
    script: &str,
    schedule: &str,
) -> u8
    // At status 0 the text written tells a run of the image and the script, from its first entry to its report, and how many actions of the schedule were skipped.
    ensures headline { result ≡ 0 → OfFiles (H.told shelf.old) image.now script.now schedule.now
        (λ bytes. Wrote (S.told sink.old) (S.told sink.new) (TellsPlay bytes.image bytes.script bytes.schedule)) }
    // Each status has its cause, and what was written with it: by the bytes of the files where they are told, and of some files where they are not.
    ensures answers { OfFiles (H.told shelf.old) image.now script.now schedule.now (λ bytes. PlayAnswers image.now script.now schedule.now bytes
        (record {
          shelf_faults = H.faults shelf.old;
          shelf_faults_after = H.faults shelf.new;
          sink_faults = S.faults sink.old;
          sink_faults_after = S.faults sink.new;
          told = S.told sink.old;
          told_after = S.told sink.new;
        }) result) }
    // A status tells a fault only where one was counted, also where nothing is told.
    ensures read_fault { result ≡ 5 → Rose (H.faults shelf.old) (H.faults shelf.new) }
    ensures write_fault { result ≡ 6 → Rose (S.faults sink.old) (S.faults sink.new) }
    ensures no_memory { result ≡ 7 → S.told sink.new ≡ S.told sink.old }
    ensures listed { IsPlayStatus result }
    ensures grows { S.faults sink.old ≤ S.faults sink.new }
{
    every_run_is_reported();
    entries_are_in_range();
    what_is_spelled_is_read();
    tickets_are_in_order();
    match load_play(alloc, image, script, schedule, shelf) {
        Ok((machine, lines, actions)) => play_inputs(alloc, &machine, &lines, &actions, sink),
        Err(halt) => tell(&halt, sink),
    }
}
