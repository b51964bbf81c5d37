//! Where the lines of a text go.

ghost use Rattle.std.specs.Prelude.{◌≡◌, ◌-◌, ◌∷◌, ◌++◌, [], length, OnOk};

use crate::lists::Schedule;
use crate::texts::Row;
use dc_base::actions::{Action, Actor};
use dc_base::lists::Items;
use std::alloc::{AllocError, Global};

/// What was found in a text, line by line.
pub(crate) trait Found<T>: Sized + Drop {
    ghost use Rattle.std.specs.Prelude.{List};

    ghost listed: { Self → List T };

    fn none(alloc: Global) -> Self
        ensures { listed result ≡ [] };

    /// How many lines are wanting to so many.
    fn room(&self, limit: usize) -> usize
        ensures { result ≡ limit - length (listed self.now) };

    fn add(&mut self, line: T) -> Result<(), AllocError>
        ensures { OnOk result (listed self.new ≡ listed self.old ++ line ∷ []) };
}

impl<T: Row> Found<T> for Items<T> {
    ghost listed = { λ found. found };

    fn none(alloc: Global) -> Items<T> {
        Items::new(alloc)
    }

    fn room(&self, limit: usize) -> usize {
        limit.saturating_sub(self.len())
    }

    fn add(&mut self, line: T) -> Result<(), AllocError> {
        self.push(line)
    }
}

impl Found<(Actor, Action)> for Schedule {
    ghost listed = { λ found. found };

    fn none(alloc: Global) -> Schedule {
        Schedule::new(alloc)
    }

    fn room(&self, limit: usize) -> usize {
        self.left_of(limit)
    }

    fn add(&mut self, line: (Actor, Action)) -> Result<(), AllocError> {
        self.push(line)
    }
}
