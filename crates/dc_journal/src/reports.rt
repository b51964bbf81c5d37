//! The line of a report line.

ghost use Rattle.std.specs.Prelude.{◌≡◌, ◌+◌, ◌≤◌, ◌<◌, [], ◌∷◌, ◌++◌, map, length, decimal, codes};
ghost use Rattle.std.specs.Option.{option_map};
ghost use Rattle.arrayvec.specs.ArrayString.{array_string_len};
ghost use Rattle.dc_base.specs.declared.numbers.BlockNo.{BlockNo};
ghost use Rattle.dc_base.specs.declared.numbers.CoreNo.{CoreNo};
ghost use Rattle.dc_base.specs.declared.numbers.DispNo.{DispNo};
ghost use Rattle.dc_base.specs.TextWords.{add_word, add_words, comma_list, number_or_dash};
ghost use Rattle.dc_base.specs.EntryText.{version_word};
ghost use Rattle.dc_base.specs.ReportText.{report_line_text, place_words, wait_words, state_words, kind_words, source_words, bound_words};

use crate::names::version_name;
use arrayvec::ArrayVec;
use dc_base::capabilities::CapKind;
use dc_base::dispatchers::{DispState, Wait};
use dc_base::interrupts::Source;
use dc_base::kernels::Version;
use dc_base::messages::Message;
use dc_base::numbers::{BlockNo, CoreNo, DispNo, LineNo, SignalNo};
use dc_base::reports::ReportLine;
use dc_text::{Line, push_list, push_u32, push_u64, push_word};

/// Adds the line of a report line, without its newline, to an empty line.
#[tactic(auto, unfolding(dc_base::specs::ReportText::report_line_text))]
pub fn push_report_line(text: &mut Line, line: &ReportLine)
    requires { text.old.bytes ≡ [] }
    ensures text { text.new.bytes ≡ report_line_text line.now }
    ensures room { array_string_len text.new < 256 }
{
    match line {
        ReportLine::CoreOn {
            core,
            version,
            clock,
            home,
            share,
            used,
        } => {
            push_on(text, *core, *version, *clock);
            push_share(text, *home, share);
            push_named(text, "used", *used);
        }
        ReportLine::CoreOff { core, clock, used } => {
            push_named(text, "core", core.0);
            push_word(text, "off");
            push_named_u64(text, "clock", *clock);
            push_named(text, "used", *used);
        }
        ReportLine::Block {
            block,
            core,
            time,
            armed,
        } => {
            push_named(text, "block", block.0);
            push_place(text, *core);
            push_named_u64(text, "time", *time);
            push_named(text, "armed", *armed);
        }
        ReportLine::Disp {
            block,
            disp,
            state,
            place,
            due,
        } => {
            push_named(text, "disp", block.0);
            push_u32(text, disp.0);
            push_state(text, *state);
            push_named(text, "place", *place);
            push_named_u64(text, "due", *due);
        }
        ReportLine::Ready { block, list } => {
            push_named(text, "ready", block.0);
            push_ready(text, list);
        }
        ReportLine::Cap {
            block,
            slot,
            cap,
            parent,
        } => {
            push_named(text, "cap", block.0);
            push_u32(text, slot.0);
            push_kind(text, cap.kind);
            push_named(text, "rights", cap.rights as u32);
            push_word(text, "parent");
            push_or_dash(text, parent.map(|slot| slot.0));
        }
        ReportLine::Timer { block, timer } => {
            push_named(text, "timer", block.0);
            push_u64(text, timer.deadline);
            push_u32(text, timer.number);
            push_u32(text, timer.signal.0);
            push_u32(text, timer.value);
        }
        ReportLine::PortMessage {
            block,
            port,
            message,
        } => {
            push_named(text, "port", block.0);
            push_u32(text, port.0);
            push_message(text, *message);
        }
        ReportLine::Signal {
            block,
            signal,
            latch,
        } => {
            push_named(text, "signal", block.0);
            push_u32(text, signal.0);
            push_source(text, latch.source);
            push_u32(text, latch.value);
        }
        ReportLine::Channel {
            channel,
            sent,
            taken,
        } => {
            push_named(text, "channel", channel.0);
            push_named_u64(text, "sent", *sent);
            push_named_u64(text, "taken", *taken);
        }
        ReportLine::ChannelMessage { channel, message } => {
            push_named(text, "message", channel.0);
            push_message(text, *message);
        }
        ReportLine::Line {
            line,
            bound,
            route,
            raised,
            stray,
            pending,
            merged,
            latched,
            joined,
            delivered,
        } => {
            push_ends(text, *line, *bound, *route);
            push_named(text, "raised", *raised);
            push_named(text, "stray", *stray);
            push_named(text, "pending", *pending);
            push_named(text, "merged", *merged);
            push_named(text, "latched", *latched);
            push_named(text, "joined", *joined);
            push_named(text, "delivered", *delivered);
        }
        ReportLine::Offer {
            line,
            channel,
            rights,
        } => {
            push_named(text, "offer", line.0);
            push_u32(text, channel.0);
            push_named(text, "rights", *rights as u32);
        }
        ReportLine::Out { block, word } => {
            push_named(text, "out", block.0);
            push_u32(text, *word);
        }
    }
}

/// The line of a report line, without its newline, for which it has room.
pub fn report_line(line: &ReportLine) -> Line
    ensures text { result.bytes ≡ report_line_text line.now }
    ensures room { array_string_len result < 256 }
{
    let mut text = Line::new();
    push_report_line(&mut text, line);
    text
}

/// Adds a short word, and a number.
fn push_named(line: &mut Line, name: &str, n: u32)
    requires room { array_string_len line.old ≤ 230 }
    requires short { length name.now ≤ 9 }
    ensures words { line.new.bytes ≡ add_words line.old.bytes (name.now ∷ decimal n ∷ []) }
    ensures len { array_string_len line.new ≤ array_string_len line.old + length name.now + 12 }
{
    push_word(line, name);
    push_u32(line, n);
}

/// Adds a short word, and a number of 64 bits.
fn push_named_u64(line: &mut Line, name: &str, n: u64)
    requires room { array_string_len line.old ≤ 220 }
    requires short { length name.now ≤ 9 }
    ensures words { line.new.bytes ≡ add_words line.old.bytes (name.now ∷ decimal n ∷ []) }
    ensures len { array_string_len line.new ≤ array_string_len line.old + length name.now + 22 }
{
    push_word(line, name);
    push_u64(line, n);
}

/// Adds a number, or a dash.
fn push_or_dash(line: &mut Line, n: Option<u32>)
    requires { array_string_len line.old ≤ 240 }
    ensures word { line.new.bytes ≡ add_word line.old.bytes (number_or_dash n) }
    ensures len { array_string_len line.new ≤ array_string_len line.old + 11 }
{
    match n {
        None => push_word(line, "-"),
        Some(n) => push_u32(line, n),
    }
}

/// Adds a core that is on, its version and its clock.
fn push_on(line: &mut Line, core: CoreNo, version: Version, clock: u64)
    requires { array_string_len line.old ≤ 100 }
    ensures words { line.new.bytes ≡ add_words line.old.bytes
        (codes "core" ∷ decimal core.0 ∷ codes "on" ∷ version_word version ∷ codes "clock" ∷ decimal clock ∷ []) }
    ensures len { array_string_len line.new ≤ array_string_len line.old + 50 }
{
    push_named(line, "core", core.0);
    push_word(line, "on");
    push_word(line, version_name(version));
    push_named_u64(line, "clock", clock);
}

/// Adds a line, and where it leads: to the block and the signal that it is bound to, over the core of its route.
fn push_ends(
    text: &mut Line,
    line: LineNo,
    bound: Option<(BlockNo, SignalNo)>,
    route: Option<CoreNo>,
)
    requires { array_string_len text.old ≤ 100 }
    ensures words { text.new.bytes ≡ add_words text.old.bytes
        (codes "line" ∷ decimal line.0 ∷ codes "to" ∷ (bound_words bound ++ codes "route" ∷ number_or_dash (option_map (λ (c : CoreNo). c.0) route) ∷ [])) }
    ensures len { array_string_len text.new ≤ array_string_len text.old + 60 }
{
    push_named(text, "line", line.0);
    push_word(text, "to");
    push_bound(text, bound);
    push_word(text, "route");
    push_or_dash(text, route.map(|core| core.0));
}

/// Adds the home block of a core, and the blocks of its share in their order.
fn push_share(line: &mut Line, home: Option<BlockNo>, share: &ArrayVec<BlockNo, 9>)
    requires { array_string_len line.old ≤ 100 }
    ensures words { line.new.bytes ≡ add_words line.old.bytes
        (codes "home" ∷ number_or_dash (option_map (λ (b : BlockNo). b.0) home) ∷ codes "share" ∷ comma_list
        (map (λ (b : BlockNo). b.0) share.now.items) ∷ []) }
    ensures len { array_string_len line.new ≤ array_string_len line.old + 123 }
{
    push_word(line, "home");
    push_or_dash(line, home.map(|block| block.0));
    push_word(line, "share");
    push_list(line, share.as_slice());
}

/// Adds the dispatchers of a ready list in their order.
fn push_ready(line: &mut Line, list: &ArrayVec<DispNo, 16>)
    requires { array_string_len line.old ≤ 70 }
    ensures word { line.new.bytes ≡ add_word line.old.bytes (comma_list (map (λ (d : DispNo). d.0) list.now.items)) }
    ensures len { array_string_len line.new ≤ array_string_len line.old + 180 }
{
    push_list(line, list.as_slice());
}

/// Adds the core of a block, or that it is at rest.
fn push_place(line: &mut Line, core: Option<CoreNo>)
    requires { array_string_len line.old ≤ 200 }
    ensures words { line.new.bytes ≡ add_words line.old.bytes (place_words core) }
    ensures len { array_string_len line.new ≤ array_string_len line.old + 16 }
{
    match core {
        None => push_word(line, "rest"),
        Some(core) => push_named(line, "core", core.0),
    }
}

/// Adds the state of a dispatcher.
fn push_state(line: &mut Line, state: DispState)
    requires { array_string_len line.old ≤ 200 }
    ensures words { line.new.bytes ≡ add_words line.old.bytes (state_words state) }
    ensures len { array_string_len line.new ≤ array_string_len line.old + 25 }
{
    match state {
        DispState::Ready => push_word(line, "ready"),
        DispState::Halted => push_word(line, "halted"),
        DispState::Trapped(trap) => push_named(line, "trap", trap as u32),
        DispState::Waits(wait) => {
            push_word(line, "wait");
            push_wait(line, wait);
        }
    }
}

/// Adds what a dispatcher waits for.
fn push_wait(line: &mut Line, wait: Wait)
    requires { array_string_len line.old ≤ 220 }
    ensures words { line.new.bytes ≡ add_words line.old.bytes (wait_words wait) }
    ensures len { array_string_len line.new ≤ array_string_len line.old + 18 }
{
    match wait {
        Wait::Send(port) => push_named(line, "send", port.0),
        Wait::Recv(port) => push_named(line, "recv", port.0),
        Wait::Signal(signal) => push_named(line, "signal", signal.0),
        Wait::Csend(channel) => push_named(line, "csend", channel.0),
        Wait::Crecv(channel) => push_named(line, "crecv", channel.0),
    }
}

/// Adds what a capability names.
fn push_kind(line: &mut Line, kind: CapKind)
    requires { array_string_len line.old ≤ 200 }
    ensures words { line.new.bytes ≡ add_words line.old.bytes (kind_words kind) }
    ensures len { array_string_len line.new ≤ array_string_len line.old + 28 }
{
    match kind {
        CapKind::Ram { first, length } => {
            push_named(line, "ram", first);
            push_u32(line, length);
        }
        CapKind::Frame { first, length } => {
            push_named(line, "frame", first);
            push_u32(line, length);
        }
        CapKind::Port(port) => push_named(line, "port", port.0),
        CapKind::Signal(signal) => push_named(line, "signal", signal.0),
        CapKind::SendEnd(channel) => push_named(line, "sendend", channel.0),
        CapKind::RecvEnd(channel) => push_named(line, "recvend", channel.0),
        CapKind::Line(named) => push_named(line, "line", named.0),
    }
}

/// Adds where a latch comes from.
fn push_source(line: &mut Line, source: Source)
    requires { array_string_len line.old ≤ 200 }
    ensures words { line.new.bytes ≡ add_words line.old.bytes (source_words source) }
    ensures len { array_string_len line.new ≤ array_string_len line.old + 16 }
{
    match source {
        Source::Timer => push_word(line, "timer"),
        Source::Line(raised) => push_named(line, "line", raised.0),
    }
}

/// Adds the block and the signal that a line is bound to, or two dashes.
fn push_bound(line: &mut Line, bound: Option<(BlockNo, SignalNo)>)
    requires { array_string_len line.old ≤ 200 }
    ensures words { line.new.bytes ≡ add_words line.old.bytes (bound_words bound) }
    ensures len { array_string_len line.new ≤ array_string_len line.old + 22 }
{
    match bound {
        None => {
            push_word(line, "-");
            push_word(line, "-");
        }
        Some((block, signal)) => {
            push_u32(line, block.0);
            push_u32(line, signal.0);
        }
    }
}

/// Adds the words of a message.
fn push_message(line: &mut Line, message: Message)
    requires { array_string_len line.old ≤ 200 }
    ensures words { line.new.bytes ≡ add_words line.old.bytes (map decimal message.0) }
    ensures len { array_string_len line.new ≤ array_string_len line.old + 44 }
{
    let Message([first, second, third, fourth]) = message;
    push_u32(line, first);
    push_u32(line, second);
    push_u32(line, third);
    push_u32(line, fourth);
}
