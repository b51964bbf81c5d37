ghost use Rattle.std.specs.Prelude.{◌≡◌};

use crate::lists::ReadyList;
use arrayvec::ArrayVec;
use dc_base::kernels::Version;
use dc_base::limits::MOST_DISPS;
use dc_base::numbers::DispNo;
use std::marker::Model;

/// First in, first out: the first that arrived runs next, whatever its due.
#[derive(Drop)]
pub struct Fifo {
    entries: ArrayVec<(DispNo, u64), MOST_DISPS>,
}

impl Model for Fifo {
    ghost use Rattle.std.specs.Prelude.{List, ℕ};
    ghost use Rattle.dc_ready.specs.Entries.{entries_of, IsReadyList};

    ghost Value = { List (ℕ × ℕ) };

    ghost view = { λ f. entries_of f.entries.items };

    ghost invariant = { λ f. IsReadyList (entries_of f.entries.items) };
}

/// A copy of the entries.
fn copied(entries: &ArrayVec<(DispNo, u64), MOST_DISPS>) -> ArrayVec<(DispNo, u64), MOST_DISPS>
    ensures { result.items ≡ entries.now.items }
{
    let mut list = ArrayVec::new();
    for entry in entries.as_slice() {
        list.push(*entry);
    }
    list
}

impl ReadyList for Fifo {
    ghost use Rattle.dc_base.specs.declared.kernels.Version.TheVariants.{Rr};

    ghost listed = { λ f. f };

    ghost policy = { Rr };

    fn version() -> Version {
        Version::Rr
    }

    fn empty() -> Fifo {
        Fifo {
            entries: ArrayVec::new(),
        }
    }

    fn add(&mut self, d: DispNo, due: u64) {
        self.entries.push((d, due));
    }

    fn pick(&self) -> Option<DispNo> {
        match self.entries.as_slice() {
            [] => None,
            [(d, _), ..] => Some(*d),
        }
    }

    fn remove(&mut self, d: DispNo) -> bool {
        let before = self.entries.len();
        self.entries.retain(|e| e.0.0 != d.0);
        self.entries.len() < before
    }

    fn to_list(&self) -> ArrayVec<(DispNo, u64), MOST_DISPS> {
        copied(&self.entries)
    }
}
