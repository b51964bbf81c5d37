//! A whole run.
ghost use Rattle.std.specs.Prelude.{◌≤◌};
ghost use Rattle.dc_base.specs.States.{settings_of};
ghost use Rattle.dc_base.specs.Valid.{IsValid, IsValidScript};
ghost use Rattle.dc_run.specs.Texts.{Runs};

use crate::endings::ended_runs_have_texts;
use crate::events::run_events;
use crate::opening::{Opening, open_run};
use crate::texts::write_ended;
use dc_base::images::Image;
use dc_io::{Ended, Gate, Sink};
use dc_script::Script;
use std::alloc::Global;
use std::sync::Wait;
use std::thread::Threads;

/// Runs the machine of an image and a script with a thread for each core, and writes the journal and the report, one line a piece. All memory of the events
/// is taken before the first of them, and that of the journal before the first line.
pub fn run<R: Threads + Wait + Sync, S: Sink, G: Gate>(
    rt: &R,
    alloc: Global,
    image: &Image,
    script: &Script,
    sink: &mut S,
    gate: &G,
) -> Result<(), Ended>
    requires image { IsValid image.now }
    requires script { IsValidScript (settings_of image.now) script.now }
    ensures runs { Runs image.now script.now (S.faults sink.old) (S.faults sink.new) (S.told sink.old) (S.told sink.new) result }
    ensures grows { S.faults sink.old ≤ S.faults sink.new }
{
    ended_runs_have_texts();
    let Ok(opening) = open_run(alloc, image, script) else {
        return Err(Ended::Memory);
    };
    let Opening {
        stage,
        crew,
        room,
        logs,
        kinds,
    } = opening;
    let Ok(ended) = run_events(rt, gate, alloc, stage, crew, room, logs) else {
        return Err(Ended::Memory);
    };
    match write_ended(ended, kinds, sink) {
        Ok(()) => Ok(()),
        Err(_) => Err(Ended::Sink),
    }
}
