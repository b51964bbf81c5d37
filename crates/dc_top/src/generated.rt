//! The summary of a generated input.

ghost use Rattle.std.specs.Prelude.{◌≡◌, ◌⊎◌, ◌≤◌, [], ◌∷◌, IfOk, OnErr, decimal, length};
ghost use Rattle.dc_base.specs.CoreRuns.{core_run};
ghost use Rattle.dc_base.specs.Generated.{generated_image, generated_script, generated_schedule, summary_text};
ghost use Rattle.dc_base.specs.PlayText.{gen_text};
ghost use Rattle.dc_base.specs.TextWords.{ended, spaced};
ghost use Rattle.dc_io.specs.Counts.{Rose};
ghost use Rattle.dc_io.specs.Told.{Adds};
ghost use Rattle.dc_play.specs.Summaries.{IsSummaryOf};
ghost use Rattle.dc_play.specs.Written.{Writes};
ghost use Rattle.dc_top.specs.Written.{PlaysAs};

use crate::statuses::status_for;
use dc_base::memory::Memory;
use dc_both::EitherKernel;
use dc_gen::generate;
use dc_io::{Failed, Sink};
use dc_play::{Summary, count_line, play_summary, put_line};
use std::alloc::Global;

/// Plays the generated input of number `n`, and sums up the run.
fn summary_of(alloc: Global, n: u32) -> Result<Summary, Memory>
    requires { n ≤ 65535 }
    ensures { IfOk result (IsSummaryOf (core_run generated_image generated_script (generated_schedule n))) }
{
    match generate(alloc, n) {
        Ok((image, script, schedule)) => {
            play_summary::<EitherKernel>(alloc, &image, &script, &schedule)
        }
        Err(memory) => Err(memory),
    }
}

/// Writes a line of a word of at most 16 bytes and a number.
fn put_count<S: Sink>(word: &str, count: u64, sink: &mut S) -> Result<(), Failed>
    requires { length word.now ≤ 16 }
    ensures writes { Writes (S.told sink.old) (S.told sink.new) (ended (spaced (word.now ∷ decimal count ∷ []))) result }
    ensures failed { OnErr result (Rose (S.faults sink.old) (S.faults sink.new)) }
    ensures grows { S.faults sink.old ≤ S.faults sink.new }
{
    put_line(sink, count_line(word, count))
}

/// Writes the lines of a summary.
fn put_summary<S: Sink>(summary: Summary, sink: &mut S) -> Result<(), Failed>
    ensures writes { Writes (S.told sink.old) (S.told sink.new) (summary_text summary.entries summary.skipped summary.outputs summary.sum) result }
    ensures failed { OnErr result (Rose (S.faults sink.old) (S.faults sink.new)) }
    ensures grows { S.faults sink.old ≤ S.faults sink.new }
{
    put_count("entries", summary.entries, sink)?;
    put_count("skipped", summary.skipped, sink)?;
    put_count("outputs", summary.outputs, sink)?;
    put_count("sum", summary.sum as u64, sink)
}

/// Plays the generated input of number `n`, at most 65,535, and writes the four lines of its summary, one line a piece. The answer is a status: 0 where all
/// was written, 6 where a put failed, with a part of the text, and 7 where memory was wanting, with nothing.
pub fn gen_call<S: Sink>(alloc: Global, sink: &mut S, n: u32) -> u8
    requires { n ≤ 65535 }
    // At status 0 the text written is the summary of the generated input of this number.
    ensures written { result ≡ 0 → Adds (S.told sink.old) (S.told sink.new) (gen_text n) }
    // Each status has its cause, and what was written with it.
    ensures answers { PlaysAs (S.faults sink.old) (S.faults sink.new) (S.told sink.old) (S.told sink.new) (gen_text n) result }
    ensures write_fault { result ≡ 6 → Rose (S.faults sink.old) (S.faults sink.new) }
    ensures no_memory { result ≡ 7 → S.told sink.new ≡ S.told sink.old }
    ensures listed { (result ≡ 0) ⊎ ((6 ≤ result) × (result ≤ 7)) }
    ensures grows { S.faults sink.old ≤ S.faults sink.new }
{
    match summary_of(alloc, n) {
        Ok(summary) => status_for(put_summary(summary, sink), 0),
        Err(_) => 7,
    }
}
