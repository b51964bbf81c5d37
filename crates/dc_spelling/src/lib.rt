//! The spelling of journals and the reading of them fit each other. Each law is the contract of a function that does nothing.
#![tactic(auto)]

ghost use Rattle.std.specs.Prelude.{◌≡◌, ◌↔◌, ◌≤◌, ◌^◌, ℕ, List, ◌++◌, IsTrue, Some, Ok, length, map, take};
ghost use Rattle.std.specs.List.{list_all, range_with_len};
ghost use Rattle.dc_base.specs.declared.entries.Entry.{Entry};
ghost use Rattle.dc_base.specs.EntryText.{journal_text};
ghost use Rattle.dc_base.specs.EntryRanges.{has_line, is_in_range};
ghost use Rattle.dc_base.specs.Journals.{EndsJournal, IsJournal};
ghost use Rattle.dc_base.specs.JournalText.{journal_of, ticket_of};
ghost use Rattle.dc_base.specs.TextWords.{lines_of};

/// What is spelled is read: of entries that have lines and whose numbers are in range, the lines are read as just these entries, where nothing or a report
/// follows.
pub fn what_is_spelled_is_read()
    ensures { (es : List Entry) (rest : List ℕ) → IsTrue (list_all has_line es) → IsTrue (list_all is_in_range es) → EndsJournal rest →
        journal_of (journal_text es ++ rest) ≡ Ok es }
{}

/// What is read is spelled: the entries that a text says have lines and are in range, and the text begins with just these lines; behind them nothing or a
/// report follows.
pub fn what_is_read_is_spelled()
    ensures lines { (text : List ℕ) (es : List Entry) → journal_of text ≡ Ok es → IsTrue (list_all has_line es) }
    ensures ranges { (text : List ℕ) (es : List Entry) → journal_of text ≡ Ok es → IsTrue (list_all is_in_range es) }
    ensures text { (text : List ℕ) (es : List Entry) → journal_of text ≡ Ok es → (rest : List ℕ) × (text ≡ journal_text es ++ rest) × EndsJournal rest }
{}

/// The reader decides which texts are journals: it gives just the entries that a text tells, and where a text tells some, it gives these.
pub fn the_reader_decides()
    ensures { (text : List ℕ) (es : List Entry) → (journal_of text ≡ Ok es) ↔ IsJournal text es }
{}

/// A text tells the entries of one list at most.
pub fn a_text_tells_one()
    ensures { (text : List ℕ) (es others : List Entry) → IsJournal text es → IsJournal text others → es ≡ others }
{}

/// The lines of entries begin with 0, 1 and on, in order, whatever follows; a number has at most 10 digits.
pub fn tickets_are_in_order()
    ensures { (es : List Entry) (rest : List ℕ) → length es ≤ 10 ^ 10 →
        map ticket_of (take (length es) (lines_of (journal_text es ++ rest))) ≡ map Some (range_with_len 0 (length es)) }
{}
