//! Lawful histories, and their beginnings.
ghost use Rattle.std.specs.Prelude.{◌≡◌, ℕ, List, ◌++◌};
ghost use Rattle.dc_base.specs.declared.entries.Entry.{Entry};
ghost use Rattle.dc_base.specs.States.{State, Settings};
ghost use Rattle.dc_base.specs.Histories.{IsLawfulHistory, after};
ghost use Rattle.dc_base.specs.Sound.{IsSound};

use dc_sound::entries_keep_sound;

/// A lawful history from a sound state leads to a sound state.
pub fn histories_keep_sound()
    ensures { (t : Settings) (s : State) (history : List (ℕ × Entry)) → IsSound s → IsLawfulHistory t s history → IsSound (after s history) }
{
    entries_keep_sound();
}

/// Each beginning of a lawful history is lawful, and what follows it is lawful from the state that the beginning leads to. The history leads where its parts
/// lead, one after the other.
pub fn beginnings_are_lawful()
    ensures first { (t : Settings) (s : State) (before more : List (ℕ × Entry)) → IsLawfulHistory t s (before ++ more) → IsLawfulHistory t s before }
    ensures rest { (t : Settings) (s : State) (before more : List (ℕ × Entry)) → IsLawfulHistory t s (before ++ more) →
        IsLawfulHistory t (after s before) more }
    ensures state { (s : State) (before more : List (ℕ × Entry)) → after s (before ++ more) ≡ after (after s before) more }
{}
