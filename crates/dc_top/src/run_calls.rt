//! The run of two files.

ghost use Rattle.std.specs.Prelude.{◌≡◌, ◌≤◌};
ghost use Rattle.dc_base.specs.States.{settings_of};
ghost use Rattle.dc_base.specs.Valid.{IsValid, IsValidScript};
ghost use Rattle.dc_io.specs.Counts.{Rose};
ghost use Rattle.dc_top.specs.Calls.{Wrote};
ghost use Rattle.dc_top.specs.Contents.{OfInputs};
ghost use Rattle.dc_top.specs.RunCalls.{IsRunStatus, RunAnswers, TellsRun};
ghost use Rattle.dc_top.specs.Written.{RunsAs};

use crate::loads::load_inputs;
use crate::statuses::status_of_play;
use crate::tellings::tell;
use dc_base::images::Image;
use dc_headline::every_run_is_reported;
use dc_io::{Gate, Shelf, Sink};
use dc_ranges::entries_are_in_range;
use dc_run::run;
use dc_script::Script;
use dc_spelling::{tickets_are_in_order, what_is_spelled_is_read};
use std::alloc::Global;
use std::sync::Wait;
use std::thread::Threads;

/// Runs with a thread for each core, and says the status.
fn run_inputs<R: Threads + Wait + Sync, S: Sink, G: Gate>(
    rt: &R,
    alloc: Global,
    image: &Image,
    script: &Script,
    sink: &mut S,
    gate: &G,
) -> u8
    requires image { IsValid image.now }
    requires script { IsValidScript (settings_of image.now) script.now }
    ensures ran { RunsAs image.now script.now (S.faults sink.old) (S.faults sink.new) (S.told sink.old) (S.told sink.new) result }
    ensures grows { S.faults sink.old ≤ S.faults sink.new }
{
    let ran = run(rt, alloc, image, script, sink, gate);
    status_of_play(ran)
}

/// Loads and reads an image and a script, and stops at the first fault; then runs them with a thread for each core, and writes the journal and the report,
/// one line a piece, once all threads have ended. A core passes the gate before each of its rounds. It may run for ever. The answer is a status: 0 where the
/// whole text was written; 2 or 3 where the image or the script is refused, with a line that says why; 5 where a file could not be read, with a line that
/// names it; 6 where a put failed, with a part of the text that belongs to the case; 7 where memory was wanting, with nothing.
#[tactic(auto, using(crate::proofs::Running::runs_write_fault, crate::proofs::Running::runs_no_memory, crate::proofs::Running::runs_no_read, crate::proofs::Running::runs_listed, crate::proofs::Running::stop_read_fault, crate::proofs::Running::stop_listed, crate::proofs::Answers::halt_write_fault, crate::proofs::Answers::halt_no_memory))]
pub fn run_call<R: Threads + Wait + Sync, H: Shelf, S: Sink, G: Gate>(
    rt: &R,
    alloc: Global,
    shelf: &mut H,
    sink: &mut S,
    gate: &G,
    image: &str,
    script: &str,
) -> u8
    // At status 0 the text written tells a run of the image and the script, from its first entry to its report, that ended where no core can act.
    ensures headline { result ≡ 0 → OfInputs (H.told shelf.old) image.now script.now (λ i s. Wrote (S.told sink.old) (S.told sink.new) (TellsRun i s)) }
    // Each status has its cause, and what was written with it: by the bytes of the files where they are told, and of some files where they are not.
    ensures answers { OfInputs (H.told shelf.old) image.now script.now (λ i s. RunAnswers image.now script.now i s
        (record {
          shelf_faults = H.faults shelf.old;
          shelf_faults_after = H.faults shelf.new;
          sink_faults = S.faults sink.old;
          sink_faults_after = S.faults sink.new;
          told = S.told sink.old;
          told_after = S.told sink.new;
        }) result) }
    // A status tells a fault only where one was counted, also where nothing is told.
    ensures read_fault { result ≡ 5 → Rose (H.faults shelf.old) (H.faults shelf.new) }
    ensures write_fault { result ≡ 6 → Rose (S.faults sink.old) (S.faults sink.new) }
    ensures no_memory { result ≡ 7 → S.told sink.new ≡ S.told sink.old }
    ensures listed { IsRunStatus result }
    ensures grows { S.faults sink.old ≤ S.faults sink.new }
{
    every_run_is_reported();
    entries_are_in_range();
    what_is_spelled_is_read();
    tickets_are_in_order();
    match load_inputs(alloc, image, script, shelf) {
        Ok((machine, lines)) => run_inputs(rt, alloc, &machine, &lines, sink, gate),
        Err(halt) => tell(&halt, sink),
    }
}
