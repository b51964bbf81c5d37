//! What a pass knows.
use std::collections::LinkedList;

/// What a pass knows. Contracts alone speak of it, and no value of it is made.
pub struct View<C, E> {
    /// It has not ended.
    pub live: bool,
    pub scene: Option<C>,
    pub actor: u64,
    /// A beginning of the history: entries, each with its actor.
    pub seen: LinkedList<(u64, E)>,
    /// The numbers of the objects that it holds.
    pub holds: LinkedList<u64>,
    /// The numbers of all objects that it ever took.
    pub took: LinkedList<u64>,
    /// Its refused takes, as pairs of an object and the actor that had it.
    pub refused: LinkedList<(u64, u64)>,
    /// It is the first pass of its stage, which makes the others.
    pub first: bool,
    /// How many passes it made, itself counted.
    pub made: u64,
    /// What the pass had seen that was joined to it last.
    pub told: LinkedList<(u64, E)>,
    /// The passes that were joined to it.
    pub joined: LinkedList<Past<E>>,
}

/// What is kept of a pass that was joined to the first.
pub struct Past<E> {
    pub actor: u64,
    /// Its own entries.
    pub entries: LinkedList<(u64, E)>,
    pub took: LinkedList<u64>,
    pub refused: LinkedList<(u64, u64)>,
}
