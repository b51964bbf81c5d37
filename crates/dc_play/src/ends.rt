//! The end of a text.

ghost use Rattle.std.specs.Prelude.{◌≤◌, ◌++◌, OnErr};
ghost use Rattle.dc_base.specs.ReportText.{skipped_text, end_text};
ghost use Rattle.dc_base.specs.TextWords.{ended};
ghost use Rattle.dc_io.specs.Counts.{Rose};
ghost use Rattle.dc_play.specs.Written.{Writes};

use crate::lines::{skipped_line, word_line};
use crate::writing::put_line;
use dc_io::{Failed, Sink};

/// Writes how many actions made no entry, and the end.
pub(crate) fn write_end<S: Sink>(skipped: u64, sink: &mut S) -> Result<(), Failed>
    ensures writes { Writes (S.told sink.old) (S.told sink.new) (ended (skipped_text skipped) ++ ended end_text) result }
    ensures failed { OnErr result (Rose (S.faults sink.old) (S.faults sink.new)) }
    ensures grows { S.faults sink.old ≤ S.faults sink.new }
{
    put_line(sink, skipped_line(skipped))?;
    put_line(sink, word_line("end"))
}
