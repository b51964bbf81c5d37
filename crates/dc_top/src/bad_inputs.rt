//! Why a file is refused, as a status and a line.

ghost use Rattle.std.specs.Prelude.{◌≡◌, ◌<◌, ◌≤◌, ◌++◌, length, OnErr};
ghost use Rattle.arrayvec.specs.ArrayString.{array_string_len};
ghost use Rattle.dc_base.specs.FaultText.{code_kind_words, image_fault_line, read_fault_line, text_fault_line, text_kind_words};
ghost use Rattle.dc_base.specs.TextWords.{ended};
ghost use Rattle.dc_image.specs.Faults.{refusal_of};
ghost use Rattle.dc_io.specs.Counts.{Rose};
ghost use Rattle.dc_play.specs.Written.{Writes};
ghost use Rattle.dc_top.specs.BadInputs as spec;

use dc_base::faults::{AsmKind, ImageFault, Key, TextFault, TextKind};
use dc_io::{Failed, Sink};
use dc_play::{put_line, put_text};
use dc_text::{Line, push_u32};

/// What is wrong with a file that is refused. Want of memory is nothing wrong with it, and has no line.
#[derive(Debug, Drop)]
pub enum BadInput {
    Image(ImageFault),
    Script(TextFault),
    Schedule(TextFault),
}

/// The status where a file is refused.
pub fn status_of(input: &BadInput) -> u8
    ensures { result ≡ spec.status_of input.now }
{
    match input {
        BadInput::Image(_) => 2,
        BadInput::Script(_) => 3,
        BadInput::Schedule(_) => 4,
    }
}

/// What a fault of code is.
fn kind_name(kind: AsmKind) -> &'static str
    ensures named { result.now ≡ code_kind_words kind }
    ensures short { length result.now ≤ 16 }
{
    match kind {
        AsmKind::UnknownName => "unknown name",
        AsmKind::BadOperand => "bad operand",
        AsmKind::BadNumber => "bad number",
        AsmKind::NoLabel => "no label",
        AsmKind::TwiceLabel => "label twice",
        AsmKind::TooLong => "too long",
    }
}

/// A line of a short text.
fn line_with(text: &str) -> Line
    requires { length text.now ≤ 64 }
    ensures text { result.bytes ≡ text.now }
    ensures room { array_string_len result ≤ 64 }
{
    let mut line = Line::new();
    line.push_str(text);
    line
}

/// A line of a short text and a key.
fn line_of_key(text: &str, key: &Key) -> Line
    requires { length text.now ≤ 64 }
    ensures text { result.bytes ≡ text.now ++ key.now.bytes }
    ensures room { array_string_len result ≤ 128 }
{
    let mut line = line_with(text);
    line.push_str(key.as_str());
    line
}

/// The line of a fault in a dispatcher's code.
#[tactic(auto, unfolding(dc_base::specs::FaultText::image_fault_line))]
fn code_line(fault: &ImageFault, key: &Key, number: u32, kind: AsmKind) -> Line
    requires { fault.now ≡ ImageFault.Code key.now number kind }
    ensures text { result.bytes ≡ spec.image_line (refusal_of fault.now) }
    ensures room { array_string_len result < 256 }
{
    let mut line = line_of_key("image: code ", key);
    line.push_str(" line");
    push_u32(&mut line, number);
    line.push_str(": ");
    line.push_str(kind_name(kind));
    line
}

/// The line of a fault of an image; empty for want of memory.
#[tactic(auto, unfolding(dc_base::specs::FaultText::image_fault_line))]
fn image_line(fault: &ImageFault) -> Line
    ensures text { result.bytes ≡ spec.image_line (refusal_of fault.now) }
    ensures room { array_string_len result < 256 }
{
    match fault {
        ImageFault::TooLong => line_with("image: too long"),
        ImageFault::NotToml => line_with("image: not TOML"),
        ImageFault::Missing { key } => line_of_key("image: missing ", key),
        ImageFault::WrongKind { key } => line_of_key("image: wrong kind ", key),
        ImageFault::OutOfRange { key } => line_of_key("image: out of range ", key),
        ImageFault::Code { key, line, kind } => code_line(fault, key, *line, *kind),
        ImageFault::Memory => line_with(""),
    }
}

/// What is wrong with a line of a script or a schedule.
fn text_kind_name(kind: TextKind) -> &'static str
    ensures named { result.now ≡ text_kind_words kind }
    ensures short { length result.now ≤ 16 }
{
    match kind {
        TextKind::UnknownWord => "unknown word",
        TextKind::WrongCount => "wrong count",
        TextKind::BadNumber => "bad number",
        TextKind::BadVersion => "bad version",
        TextKind::TooMany => "too many",
    }
}

/// The line of a fault in a script or a schedule; empty for want of memory.
#[tactic(auto, unfolding(dc_base::specs::FaultText::text_fault_line))]
fn text_line(name: &str, fault: TextFault) -> Line
    requires { length name.now ≤ 16 }
    ensures text { result.bytes ≡ text_fault_line name.now fault }
    ensures room { array_string_len result < 256 }
{
    match fault {
        TextFault::TooLong => {
            let mut line = line_with(name);
            line.push_str(": too long");
            line
        }
        TextFault::Bad { line: number, kind } => {
            let mut line = line_with(name);
            line.push_str(" line");
            push_u32(&mut line, number);
            line.push_str(": ");
            line.push_str(text_kind_name(kind));
            line
        }
        TextFault::Memory => line_with(""),
    }
}

/// The line of a file that is refused, without its newline; empty for want of memory.
#[tactic(auto, unfolding(dc_base::specs::FaultText::text_fault_line))]
fn line_of(input: &BadInput) -> Line
    ensures text { result.bytes ≡ spec.line_of input.now }
    ensures room { array_string_len result < 256 }
{
    match input {
        BadInput::Image(fault) => image_line(fault),
        BadInput::Script(fault) => text_line("script", *fault),
        BadInput::Schedule(fault) => text_line("schedule", *fault),
    }
}

/// Writes the line of a file that is refused.
pub fn put_bad_input<S: Sink>(input: &BadInput, sink: &mut S) -> Result<(), Failed>
    ensures writes { Writes (S.told sink.old) (S.told sink.new) (ended (spec.line_of input.now)) result }
    ensures failed { OnErr result (Rose (S.faults sink.old) (S.faults sink.new)) }
    ensures grows { S.faults sink.old ≤ S.faults sink.new }
{
    put_line(sink, line_of(input))
}

/// Writes a text and another one behind it.
fn put_both<S: Sink>(first: &[u8], second: &[u8], sink: &mut S) -> Result<(), Failed>
    ensures writes { Writes (S.told sink.old) (S.told sink.new) (first.now ++ second.now) result }
    ensures failed { OnErr result (Rose (S.faults sink.old) (S.faults sink.new)) }
    ensures grows { S.faults sink.old ≤ S.faults sink.new }
{
    put_text(sink, first)?;
    put_text(sink, second)
}

/// Writes that a file of this name could not be read.
pub fn put_read_fault<S: Sink>(name: &str, sink: &mut S) -> Result<(), Failed>
    ensures writes { Writes (S.told sink.old) (S.told sink.new) (ended (read_fault_line name.now)) result }
    ensures failed { OnErr result (Rose (S.faults sink.old) (S.faults sink.new)) }
    ensures grows { S.faults sink.old ≤ S.faults sink.new }
{
    put_both("read fault ".as_bytes(), name.as_bytes(), sink)?;
    put_text(sink, "\n".as_bytes())
}
