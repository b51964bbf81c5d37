//! The line of an entry.

ghost use Rattle.std.specs.Prelude.{◌≡◌, ◌+◌, ◌≤◌, ◌<◌, [], IsTrue};
ghost use Rattle.arrayvec.specs.ArrayString.{array_string_len};
ghost use Rattle.dc_base.specs.TextWords.{add_words};
ghost use Rattle.dc_base.specs.EntryText.{entry_text, actor_words};
ghost use Rattle.dc_base.specs.EntryRanges as spec;

use crate::whats::{push_core_what, push_script_what};
use dc_base::actions::Actor;
use dc_base::calls::End;
use dc_base::entries::{Entry, What};
use dc_base::numbers::Ticket;
use dc_text::{Line, push_u32, push_u64, push_word};

/// Adds the line of an entry that has one, without its newline, to an empty line.
#[tactic(auto, unfolding(dc_base::specs::EntryText::entry_text, dc_base::specs::EntryRanges::has_line))]
pub fn push_entry(line: &mut Line, ticket: Ticket, entry: &Entry)
    requires empty { line.old.bytes ≡ [] }
    requires has_line { IsTrue (spec.has_line entry.now) }
    ensures text { line.new.bytes ≡ entry_text ticket.0 entry.now }
    ensures room { array_string_len line.new < 256 }
{
    push_u64(line, ticket.0);
    push_actor(line, entry.actor);
    match entry.actor {
        Actor::Core(_) => push_core_what(line, &entry.what),
        Actor::Script => push_script_what(line, &entry.what),
    }
}

/// The line of an entry that has one, without its newline, for which it has room.
pub fn entry_line(ticket: Ticket, entry: &Entry) -> Line
    requires { IsTrue (spec.has_line entry.now) }
    ensures text { result.bytes ≡ entry_text ticket.0 entry.now }
    ensures room { array_string_len result < 256 }
{
    let mut line = Line::new();
    push_entry(&mut line, ticket, entry);
    line
}

/// Whether a core makes it, and its end has a word.
fn is_of_core(what: &What) -> bool
    ensures { result ≡ spec.is_of_core what.now }
{
    match what {
        What::Slice { end, .. } => !matches!(end, End::Empty),
        What::SliceNone { .. }
        | What::Idle { .. }
        | What::Wake { .. }
        | What::Intake { .. }
        | What::Start { .. }
        | What::Stop { .. }
        | What::Replace { .. }
        | What::Adopt { .. }
        | What::Release { .. } => true,
        _ => false,
    }
}

/// Whether the script makes it.
fn is_of_script(what: &What) -> bool
    ensures { result ≡ spec.is_of_script what.now }
{
    match what {
        What::Post { .. }
        | What::Done { .. }
        | What::Refused { .. }
        | What::Raise { .. }
        | What::Route { .. }
        | What::Met { .. }
        | What::Unmet { .. } => true,
        _ => false,
    }
}

/// Whether there is a line for the entry: a core made an entry of a core whose end, if it is a slice, has a word, or the script made an entry of the script.
#[tactic(auto, unfolding(dc_base::specs::EntryRanges::has_line))]
pub fn has_line(entry: &Entry) -> bool
    ensures { result ≡ spec.has_line entry.now }
{
    match entry.actor {
        Actor::Core(_) => is_of_core(&entry.what),
        Actor::Script => is_of_script(&entry.what),
    }
}

/// Adds who made an entry.
fn push_actor(line: &mut Line, actor: Actor)
    requires { array_string_len line.old ≤ 100 }
    ensures words { line.new.bytes ≡ add_words line.old.bytes (actor_words actor) }
    ensures len { array_string_len line.new ≤ array_string_len line.old + 16 }
{
    match actor {
        Actor::Core(core) => {
            push_word(line, "core");
            push_u32(line, core.0);
        }
        Actor::Script => push_word(line, "script"),
    }
}
