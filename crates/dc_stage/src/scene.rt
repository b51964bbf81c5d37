//! What a stage is for.
ghost use Rattle.std.specs.Prelude.{◌≡◌, ℕ};
ghost use Rattle.dc_stage.specs.History.{Meaning, Untouched, IsLocal};

/// Objects, their states, and the entries of a history.
/// A `Whole` has the states of all objects. Contracts alone speak of it and of a `State`, and no program has to make one.
pub trait Scene: Drop + Send + Sync {
    type Object: Drop + Send;

    type Whole;

    type State;

    type Entry;

    /// The state of an object.
    ghost state: { Self.Object → Self.State };

    /// The whole at the start, the states in a whole, and of an entry what it touches, where it is lawful, and the whole after it.
    ghost meaning: { Self → Meaning Self.Whole Self.State Self.Entry };

    /// What a lawful entry does not touch keeps its state.
    ghost untouched: { (s : Self) → Untouched (meaning s) };

    /// What a lawful entry does depends on what it touches alone.
    ghost local: { (s : Self) → IsLocal (meaning s) };
}
