//! Reading a journal.

ghost use Rattle.std.specs.Prelude.{◌≡◌, ◌&&◌, ◌+◌, ◌-◌, ◌<◌, ◌≤◌, ◌^◌, ◌↔◌, ℕ, Ok, Err, length, vec_len, bytes_eq, IfOk, IfSome};
ghost use Rattle.dc_base.specs.declared.faults.JournalFault.TheVariants.{TooLong, Bad};
ghost use Rattle.dc_base.specs.Limits.{longest_file};
ghost use Rattle.dc_base.specs.EntryText.{entry_text};
ghost use Rattle.dc_base.specs.EntryRanges.{has_line};
ghost use Rattle.dc_base.specs.JournalText as spec;
ghost use Rattle.dc_text.specs.Rest.{most_left};
ghost use Rattle.dc_journal.specs.Readings.{AddsEntry, ReadsLine};

use crate::candidates::candidate;
use crate::entries::{entry_line, has_line};
use crate::words::{is_word, words_in};
use dc_base::entries::Entry;
use dc_base::faults::JournalFault;
use dc_base::limits::LONGEST_FILE;
use dc_base::numbers::Ticket;
use dc_text::first_line;
use std::alloc::Global;

/// Whether a line spells an entry just so.
fn is_spelled(ticket: u64, line: &[u8], entry: &Entry) -> bool
    ensures { result ≡ (has_line entry.now && bytes_eq (entry_text ticket entry.now) line.now) }
{
    has_line(entry) && entry_line(Ticket(ticket), entry).as_str().as_bytes() == line
}

/// The entry of a line with this ticket.
#[tactic(auto, unfolding(dc_base::specs::JournalText::entry_of))]
fn entry_of(ticket: u64, line: &[u8]) -> Option<Entry>
    requires { length line.now < 2 ^ 32 }
    ensures { result ≡ spec.entry_of ticket line.now }
{
    let words = words_in(line);
    let entry = candidate(words.as_slice())?;
    if is_spelled(ticket, line, &entry) {
        Some(entry)
    } else {
        None
    }
}

/// Reads the entry of a line that has the next ticket.
fn add_entry(entries: &mut Vec<Entry>, line: &[u8]) -> Result<(), JournalFault>
    requires room { vec_len entries.old < 2 ^ 32 - 1 }
    requires long { length line.now < 2 ^ 32 }
    ensures entry { AddsEntry result entries.old.items entries.new.items line.now }
    ensures room { vec_len entries.new ≤ vec_len entries.old + 1 }
{
    let ticket = entries.len();
    let Some(entry) = entry_of(ticket as u64, line) else {
        return Err(JournalFault::Bad {
            line: ticket as u32 + 1,
        });
    };
    match entries.push(entry) {
        Ok(()) => Ok(()),
        Err(_) => Err(JournalFault::Memory),
    }
}

/// Reads the first line of the rest of a journal, and gives what is then still to be read.
fn read_line<'a>(entries: &mut Vec<Entry>, text: &'a [u8]) -> Result<Option<&'a [u8]>, JournalFault>
    requires room { vec_len entries.old < 2 ^ 32 - 1 }
    requires long { length text.now < 2 ^ 32 }
    ensures line { ReadsLine result entries.old.items entries.new.items text.now }
    ensures shorter { IfOk result (λ rest. IfSome rest (λ rest. length rest.now < length text.now)) }
    ensures room { vec_len entries.new ≤ vec_len entries.old + 1 }
{
    let (line, further) = first_line(text);
    let Some(further) = further else {
        return if line.is_empty() {
            Ok(None)
        } else {
            Err(JournalFault::Bad {
                line: entries.len() as u32 + 1,
            })
        };
    };
    if is_word("report", line) {
        return Ok(None);
    }
    add_entry(entries, line)?;
    Ok(Some(further))
}

/// The entries of a journal, read up to the line `report` or the end; or that it is longer than 33,554,432 bytes; or the first line, counted from 1, that is
/// not the line of an entry whose ticket is the line's number less one. `Memory` is want of memory.
pub fn read_journal(alloc: Global, bytes: &[u8]) -> Result<Vec<Entry>, JournalFault>
    ensures entries { IfOk result (λ entries. spec.journal_of bytes.now ≡ Ok entries.items) }
    ensures line { (line : ℕ) → result ≡ Err (Bad line) → spec.journal_of bytes.now ≡ Err line }
    ensures long { (result ≡ Err TooLong) ↔ (longest_file < length bytes.now) }
{
    if bytes.len() > LONGEST_FILE {
        return Err(JournalFault::TooLong);
    }
    let mut entries = Vec::new(alloc);
    let mut rest = Some(bytes);
    while let Some(text) = rest {
        rest = read_line(&mut entries, text)?;
    }
    Ok(entries)
}
