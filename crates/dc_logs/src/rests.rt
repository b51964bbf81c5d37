//! Laws of rests before the entries that need one. Each is the contract of a function that does nothing.
ghost use Rattle.std.specs.Prelude.{◌≡◌, ℕ, true, false, [], ◌∷◌, ◌++◌, length};
ghost use mathlib.Core.List.{IsPrefix};
ghost use Rattle.dc_base.specs.declared.entries.Entry.{Entry};
ghost use Rattle.dc_base.specs.States.{State};
ghost use Rattle.dc_stage.specs.History.{Log, own};
ghost use Rattle.dc_logs.specs.Marks.{marked};
ghost use Rattle.dc_logs.specs.Rests.{QuietBy, AreRests};

/// Which entries need a rest before them, and which histories from a state end where an actor of a number can do nothing. Contracts alone speak of it.
pub trait Resting {
    ghost use Rattle.std.specs.Prelude.{ℕ, Bool};
    ghost use Rattle.dc_base.specs.declared.entries.Entry.{Entry};
    ghost use Rattle.dc_base.specs.States.{State};
    ghost use Rattle.dc_stage.specs.History.{Log};

    ghost needs_rest: { Entry → Bool };

    ghost at_rest: { State → ℕ → Log Entry → Type 0 };
}

/// Before the first entry of the actor no rest is asked for.
pub fn rests_begin<R: Resting>()
    ensures { (start : State) (by a : ℕ) (history seen : Log Entry) → own a history ≡ [] →
        AreRests R.needs_rest (R.at_rest start by) a history seen }
{}

/// A rest that is seen in a history is one by its length.
pub fn rests_are_now<R: Resting>()
    ensures { (start : State) (by n : ℕ) (seen : Log Entry) → length seen ≡ n → R.at_rest start by seen → QuietBy (R.at_rest start by) n seen }
{}

/// Rests stay where more is seen, and where the history grows by entries of others.
pub fn rests_stay<R: Resting>()
    ensures seen { (start : State) (by a : ℕ) (history s u : Log Entry) → IsPrefix s u →
        AreRests R.needs_rest (R.at_rest start by) a history s → AreRests R.needs_rest (R.at_rest start by) a history u }
    ensures history { (start : State) (by a : ℕ) (s u seen : Log Entry) → IsPrefix s u → own a u ≡ own a s →
        AreRests R.needs_rest (R.at_rest start by) a s seen → AreRests R.needs_rest (R.at_rest start by) a u seen }
    ensures quiet { (start : State) (by t : ℕ) (s u : Log Entry) → IsPrefix s u → QuietBy (R.at_rest start by) t s → QuietBy (R.at_rest start by) t u }
{}

/// The actor made one more entry: after a rest, or one that needs none.
pub fn rests_grow<R: Resting>()
    ensures rested { (start : State) (by a n : ℕ) (s u seen : Log Entry) (e : Entry) → marked a 0 u ≡ marked a 0 s ++ (n, e) ∷ [] →
        AreRests R.needs_rest (R.at_rest start by) a s seen → QuietBy (R.at_rest start by) n seen → AreRests R.needs_rest (R.at_rest start by) a u seen }
    ensures other { (start : State) (by a n : ℕ) (s u seen : Log Entry) (e : Entry) → marked a 0 u ≡ marked a 0 s ++ (n, e) ∷ [] →
        R.needs_rest e ≡ false → AreRests R.needs_rest (R.at_rest start by) a s seen → AreRests R.needs_rest (R.at_rest start by) a u seen }
{}

/// Where the rests were seen in a beginning of a history, there is one before each entry of the actor that needs one.
pub fn rests_hold<R: Resting>()
    ensures { (start : State) (by a : ℕ) (history seen : Log Entry) → IsPrefix seen history →
        AreRests R.needs_rest (R.at_rest start by) a history seen →
        (before behind : Log Entry) (e : Entry) → history ≡ before ++ (a, e) ∷ behind → R.needs_rest e ≡ true → R.at_rest start by before }
{}
