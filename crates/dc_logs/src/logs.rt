//! Laws of the logs of actors. Each is the contract of a function that does nothing.
ghost use Rattle.std.specs.Prelude.{◌≡◌, ℕ, List, [], ◌∷◌, ◌++◌, length};
ghost use Rattle.std.specs.Global.{Vec};
ghost use mathlib.Core.List.{IsPrefix};
ghost use Rattle.dc_base.specs.declared.entries.Entry.{Entry};
ghost use Rattle.dc_stage.specs.History.{Log, own};
ghost use Rattle.dc_stage.specs.Pasts.{EachOwn};
ghost use Rattle.dc_stage.specs.declared.view.Past.{Past};
ghost use Rattle.dc_journal.specs.declared.merging.Logged.{Logged};
ghost use Rattle.dc_logs.specs.Marks.{marked, ticket_no, IsLogOf};
ghost use Rattle.dc_logs.specs.Logs.{EachLog};

/// A longer history marks the same of an actor where the actor made no new entry.
pub fn marks_stay()
    ensures { (a : ℕ) (xs ys : Log Entry) → IsPrefix xs ys → own a ys ≡ own a xs → marked a 0 ys ≡ marked a 0 xs }
{}

/// An actor's new entry is marked with its place, behind the others.
pub fn marks_grow()
    ensures { (a : ℕ) (xs : Log Entry) (e : Entry) → marked a 0 (xs ++ (a, e) ∷ []) ≡ marked a 0 xs ++ (length xs, e) ∷ [] }
{}

/// The log of an actor who made no entry is empty.
pub fn new_logs_are_empty()
    ensures start { (a : ℕ) → IsLogOf a [] [] }
    ensures none { (a : ℕ) (xs : Log Entry) → own a xs ≡ [] → IsLogOf a xs [] }
{}

/// A log is that of a longer history too where its actor made no new entry.
pub fn logs_stay()
    ensures { (a : ℕ) (xs ys : Log Entry) (log : List Logged) → IsPrefix xs ys → own a ys ≡ own a xs → IsLogOf a xs log → IsLogOf a ys log }
{}

/// An actor's new entry goes behind its log, with the number of the entries before it as its ticket.
pub fn logs_grow()
    ensures entry { (a : ℕ) (xs : Log Entry) (log : List Logged) (e : Entry) → IsLogOf a xs log →
        IsLogOf a (xs ++ (a, e) ∷ []) (log ++ record { ticket = ticket_no (length xs); entry = e } ∷ []) }
    ensures logged { (a : ℕ) (xs : Log Entry) (log : List Logged) (l : Logged) → l.ticket.0 ≡ length xs → IsLogOf a xs log →
        IsLogOf a (xs ++ (a, l.entry) ∷ []) (log ++ l ∷ []) }
{}

/// A log has as many entries as its actor made.
pub fn logs_are_counted()
    ensures { (a : ℕ) (xs : Log Entry) (log : List Logged) → IsLogOf a xs log → length log ≡ length (own a xs) }
{}

/// The logs of passes that ended are those of a longer history too.
pub fn logs_stay_together()
    ensures { (xs ys : Log Entry) (passes : List (Past Entry)) (logs : List (Vec Logged)) → IsPrefix xs ys → EachOwn passes xs → EachOwn passes ys →
        EachLog xs passes logs → EachLog ys passes logs }
{}
