//! Lines written to a sink, one piece each.

ghost use Rattle.std.specs.Prelude.{◌<◌, ◌≤◌, OnErr};
ghost use Rattle.arrayvec.specs.ArrayString.{array_string_len};
ghost use Rattle.dc_base.specs.TextWords.{ended};
ghost use Rattle.dc_io.specs.Counts.{Rose};
ghost use Rattle.dc_play.specs.Written.{Writes};

use dc_io::{Failed, Sink, put_all};
use dc_text::Line;

/// Puts a line of at most 255 bytes and its newline.
pub fn put_line<S: Sink>(sink: &mut S, line: Line) -> Result<(), Failed>
    requires { array_string_len line < 256 }
    ensures writes { Writes (S.told sink.old) (S.told sink.new) (ended line.bytes) result }
    ensures failed { OnErr result (Rose (S.faults sink.old) (S.faults sink.new)) }
    ensures grows { S.faults sink.old ≤ S.faults sink.new }
{
    let mut line = line;
    put_ended(sink, &mut line)
}

/// Puts a lent line of at most 255 bytes with its newline, which it then has.
pub(crate) fn put_ended<S: Sink>(sink: &mut S, line: &mut Line) -> Result<(), Failed>
    requires { array_string_len line.old < 256 }
    ensures writes { Writes (S.told sink.old) (S.told sink.new) (ended line.old.bytes) result }
    ensures failed { OnErr result (Rose (S.faults sink.old) (S.faults sink.new)) }
    ensures grows { S.faults sink.old ≤ S.faults sink.new }
{
    line.push_str("\n");
    put_all(sink, line.as_str().as_bytes())
}

/// Puts a text.
pub fn put_text<S: Sink>(sink: &mut S, text: &[u8]) -> Result<(), Failed>
    ensures writes { Writes (S.told sink.old) (S.told sink.new) text.now result }
    ensures failed { OnErr result (Rose (S.faults sink.old) (S.faults sink.new)) }
    ensures grows { S.faults sink.old ≤ S.faults sink.new }
{
    put_all(sink, text)
}
