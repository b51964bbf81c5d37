//! The text of a report.

ghost use Rattle.std.specs.Prelude.{◌≤◌, OnErr};
ghost use Rattle.dc_base.specs.Report.{report_lines};
ghost use Rattle.dc_base.specs.ReportText.{report_text};
ghost use Rattle.dc_base.specs.Sound.{IsSound};
ghost use Rattle.dc_io.specs.Counts.{Rose};
ghost use Rattle.dc_objects.specs.States.{state_of};
ghost use Rattle.dc_play.specs.ReportLines.{lines_text};
ghost use Rattle.dc_play.specs.Written.{Writes};

use crate::lines::word_line;
use crate::writing::{put_ended, put_line};
use dc_io::{Failed, Sink};
use dc_journal::push_report_line;
use dc_kernel::Driver;
use dc_machine::Objects;
use dc_report::Report;
use dc_text::Line;

/// Writes the lines of the report, one by one.
fn write_lines<D: Driver, S: Sink>(objects: &Objects<D>, sink: &mut S) -> Result<(), Failed>
    requires { IsSound (state_of objects.now) }
    ensures writes { Writes (S.told sink.old) (S.told sink.new) (lines_text (report_lines (state_of objects.now))) result }
    ensures failed { OnErr result (Rose (S.faults sink.old) (S.faults sink.new)) }
    ensures grows { S.faults sink.old ≤ S.faults sink.new }
{
    let mut report = Report::start();
    let mut text = Line::new();
    while let Some(line) = report.next(objects) {
        text.clear();
        push_report_line(&mut text, &line);
        match put_ended(sink, &mut text) {
            Ok(()) => {}
            Err(failed) => return Err(failed),
        }
    }
    Ok(())
}

/// Writes the report.
pub fn write_report<D: Driver, S: Sink>(objects: &Objects<D>, sink: &mut S) -> Result<(), Failed>
    requires { IsSound (state_of objects.now) }
    ensures writes { Writes (S.told sink.old) (S.told sink.new) (report_text (report_lines (state_of objects.now))) result }
    ensures failed { OnErr result (Rose (S.faults sink.old) (S.faults sink.new)) }
    ensures grows { S.faults sink.old ≤ S.faults sink.new }
{
    put_line(sink, word_line("report"))?;
    write_lines(objects, sink)
}
