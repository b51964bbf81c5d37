//! Lists of actions that take four bytes each where their numbers are small.

ghost use Rattle.std.specs.Prelude.{◌≡◌, ◌-◌, ◌<◌, ◌^◌, ◌∷◌, ◌++◌, [], length, slice_get, OnOk, OnErr};

use crate::shorts::Short;
use dc_base::actions::{Action, Actor};
use std::alloc::{AllocError, Global};
use std::marker::Model;

/// The lines of a schedule that count, in order: who acts, and what it does. A line takes four bytes, up to the first that these cannot hold.
#[derive(Debug, Drop)]
pub struct Schedule {
    shorts: Vec<Short>,
    others: Vec<(Actor, Action)>,
}

impl Model for Schedule {
    ghost use Rattle.std.specs.Prelude.{List};
    ghost use Rattle.dc_base.specs.declared.actions.Actor.{Actor};
    ghost use Rattle.dc_base.specs.declared.actions.Action.{Action};
    ghost use Rattle.dc_script.specs.Shorts.{lines_in};

    ghost Value = { List (Actor × Action) };

    ghost view = { λ s. lines_in s.shorts.items s.others.items };
}

impl Schedule {
    pub fn new(alloc: Global) -> Schedule
        ensures { result ≡ [] }
    {
        Schedule {
            shorts: Vec::new(alloc),
            others: Vec::new(alloc),
        }
    }

    /// Adds a line.
    #[tactic(auto, using(crate::proofs::ShortLines::short_added, crate::proofs::ShortLines::other_added))]
    pub fn push(&mut self, line: (Actor, Action)) -> Result<(), AllocError>
        ensures ok { OnOk result (self.new ≡ self.old ++ line ∷ []) }
        ensures err { OnErr result (self.new ≡ self.old) }
    {
        if self.others.is_empty() {
            if let Some(short) = Short::of(line.0, line.1) {
                self.shorts.push(short)?;
                return Ok(());
            }
        }
        self.others.push(line)?;
        Ok(())
    }

    /// How many lines there are, where they are fewer than 2^32.
    #[tactic(auto, using(crate::proofs::ShortLines::lines_len))]
    pub fn len(&self) -> usize
        requires { length self.now < 2 ^ 32 }
        ensures { result ≡ length self.now }
    {
        self.shorts.len() + self.others.len()
    }

    /// How many lines are wanting to so many.
    #[tactic(auto, using(crate::proofs::ShortLines::lines_len))]
    pub(crate) fn left_of(&self, limit: usize) -> usize
        ensures { result ≡ limit - length self.now }
    {
        limit
            .saturating_sub(self.shorts.len())
            .saturating_sub(self.others.len())
    }

    /// The line at a place.
    #[tactic(auto, using(crate::proofs::ShortLines::lines_len, crate::proofs::ShortLines::short_at, crate::proofs::ShortLines::other_at))]
    pub fn row(&self, at: usize) -> (Actor, Action)
        requires { at < length self.now }
        ensures { slice_get self.now at ≡ Some result }
    {
        if at < self.shorts.len() {
            self.shorts[at].whole()
        } else {
            self.others[at - self.shorts.len()]
        }
    }
}
