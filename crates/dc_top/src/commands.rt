//! The command line.

ghost use Rattle.std.specs.Prelude.{◌≡◌, ◌≢◌, ◌≤◌, [], map, string_bytes};
ghost use Rattle.dc_base.specs.TextWords.{ended};
ghost use Rattle.dc_io.specs.Counts.{Rose};
ghost use Rattle.dc_top.specs.BadInputs.{usage};
ghost use Rattle.dc_top.specs.Finished.{WrittenOut};
ghost use Rattle.dc_top.specs.Requests.{CommandAnswers, HasStatusOf, IsAnswered, RequestTold, asked, request_of};
ghost use Rattle.dc_top.specs.Written.{WritesAs};

use crate::calls::play_call;
use crate::generated::gen_call;
use crate::requests::{Request, request_of};
use crate::run_calls::run_call;
use crate::statuses::status_for;
use dc_io::{Gate, Shelf, Sink};
use dc_play::put_text;
use std::alloc::Global;
use std::sync::Wait;
use std::thread::Threads;

const USAGE: &str = "usage: dc play IMAGE SCRIPT SCHEDULE | dc run IMAGE SCRIPT | dc gen N\n";

/// Writes the forms of the command line.
#[tactic(auto, using(crate::proofs::Answers::writes_as))]
fn tell_usage<S: Sink>(sink: &mut S) -> u8
    ensures told { WritesAs (S.faults sink.old) (S.faults sink.new) (S.told sink.old) (S.told sink.new) 1 (ended usage) result }
    ensures grows { S.faults sink.old ≤ S.faults sink.new }
{
    status_for(put_text(sink, USAGE.as_bytes()), 1)
}

/// Carries out a request, or tells the usage where there is none.
#[tactic(auto, using(crate::proofs::Commanding::usage_status))]
fn answer<R: Threads + Wait + Sync, H: Shelf, S: Sink, G: Gate>(
    rt: &R,
    alloc: Global,
    request: Option<Request<'_>>,
    shelf: &mut H,
    sink: &mut S,
    gate: &G,
) -> u8
    ensures headline { result ≡ 0 → RequestTold (H.told shelf.old) (S.told sink.old) (S.told sink.new) (asked request.entry) }
    ensures answers { IsAnswered (asked request.entry) (H.told shelf.old)
        (record {
          shelf_faults = H.faults shelf.old;
          shelf_faults_after = H.faults shelf.new;
          sink_faults = S.faults sink.old;
          sink_faults_after = S.faults sink.new;
          told = S.told sink.old;
          told_after = S.told sink.new;
        }) result }
    ensures read_fault { result ≡ 5 → Rose (H.faults shelf.old) (H.faults shelf.new) }
    ensures write_fault { result ≡ 6 → Rose (S.faults sink.old) (S.faults sink.new) }
    ensures no_memory { result ≡ 7 → S.told sink.new ≡ S.told sink.old }
    ensures listed { HasStatusOf (asked request.entry) result }
    ensures grows { S.faults sink.old ≤ S.faults sink.new }
{
    match request {
        Some(
            Request::Play {
                image,
                script,
                schedule,
            },
        ) => play_call(alloc, shelf, sink, image, script, schedule),
        Some(Request::Run { image, script }) => {
            run_call(rt, alloc, shelf, sink, gate, image, script)
        }
        Some(Request::Gen(n)) => gen_call(alloc, sink, u32::from(n)),
        None => tell_usage(sink),
    }
}

/// Writes out what the sink holds back, and says the status, which is 6 where that fails. For want of memory nothing was written, and nothing is written out.
#[tactic(auto, using(crate::proofs::Commanding::is_untouched, crate::proofs::Commanding::is_all_out, crate::proofs::Commanding::is_end_lost))]
fn write_out<S: Sink>(status: u8, sink: &mut S) -> u8
    ensures out { WrittenOut S.holds_back (S.faults sink.old) (S.faults sink.new) (S.told sink.old) (S.told sink.new) status result }
    ensures nothing_left { result ≢ 7 → S.unwritten sink.new ≡ [] }
{
    if status == 7 {
        return 7;
    }
    match sink.finish() {
        Ok(()) => status,
        Err(_) => 6,
    }
}

/// Does what the words of a command line, those behind the program's name, ask for. The forms are `play IMAGE SCRIPT SCHEDULE`, `run IMAGE SCRIPT` and
/// `gen N`; words of another form are answered by the usage line and 1, and a status of the call else. What the sink holds back is written out at the end;
/// where that fails, the status is 6, and an end of the text is lost. In a run each core passes the gate before each of its rounds. A run may go on for ever;
/// the other forms return.
pub fn command<R: Threads + Wait + Sync, H: Shelf, S: Sink, G: Gate>(
    rt: &R,
    alloc: Global,
    words: &[String],
    shelf: &mut H,
    sink: &mut S,
    gate: &G,
) -> u8
    // At status 0 the words have a form, and the text written tells a run of the files that they name, or is the summary of the generated input of the number.
    ensures headline { result ≡ 0 → RequestTold (H.told shelf.old) (S.told sink.old) (S.told sink.new) (request_of (map string_bytes words.now)) }
    // Each status has its cause, and what was written with it.
    ensures answers { CommandAnswers (map string_bytes words.now) (H.told shelf.old) S.holds_back
        (record {
          shelf_faults = H.faults shelf.old;
          shelf_faults_after = H.faults shelf.new;
          sink_faults = S.faults sink.old;
          sink_faults_after = S.faults sink.new;
          told = S.told sink.old;
          told_after = S.told sink.new;
        }) result }
    // A status tells a fault only where one was counted, also where nothing is told.
    ensures read_fault { result ≡ 5 → Rose (H.faults shelf.old) (H.faults shelf.new) }
    ensures write_fault { result ≡ 6 → Rose (S.faults sink.old) (S.faults sink.new) }
    ensures no_memory { result ≡ 7 → S.told sink.new ≡ S.told sink.old }
    // What the words ask for decides which statuses there are: 1 is said of words that have no form, and of no others, also where nothing is told.
    ensures listed { HasStatusOf (request_of (map string_bytes words.now)) result }
    // Where something was written, none of it is held back any more.
    ensures written_out { result ≢ 7 → S.unwritten sink.new ≡ [] }
{
    let status = answer(rt, alloc, request_of(words), shelf, sink, gate);
    write_out(status, sink)
}
