use crate::fifos::Fifo;
use crate::heaps::{Candidate, put_leaf};
use crate::lists::ReadyList;
use arrayvec::ArrayVec;
use dc_base::kernels::Version;
use dc_base::limits::MOST_DISPS;
use dc_base::numbers::DispNo;
use std::marker::Model;

/// Earliest due first: the least (due, number) runs next. A heap stands beside the order of arrival.
#[derive(Drop)]
pub struct DueHeap {
    arrivals: Fifo,
    nodes: [Option<Candidate>; 32],
}

impl Model for DueHeap {
    ghost use Rattle.std.specs.Prelude.{List, ℕ};
    ghost use Rattle.dc_ready.specs.Heaps.{IsHeapOf};

    ghost Value = { List (ℕ × ℕ) };

    ghost view = { λ h. h.arrivals };

    ghost invariant = { λ h. IsHeapOf h.nodes h.arrivals };
}

impl ReadyList for DueHeap {
    ghost use Rattle.dc_base.specs.declared.kernels.Version.TheVariants.{Edf};

    ghost listed = { λ h. h };

    ghost policy = { Edf };

    fn version() -> Version {
        Version::Edf
    }

    fn empty() -> DueHeap {
        DueHeap {
            arrivals: Fifo::empty(),
            nodes: [None; 32],
        }
    }

    fn add(&mut self, d: DispNo, due: u64) {
        self.arrivals.add(d, due);
        let candidate = Candidate { due, number: d.0 };
        put_leaf(&mut self.nodes, d.0 as usize, Some(candidate));
    }

    fn pick(&self) -> Option<DispNo> {
        match self.nodes[1] {
            None => None,
            Some(first) => Some(DispNo(first.number)),
        }
    }

    fn remove(&mut self, d: DispNo) -> bool {
        let there = self.arrivals.remove(d);
        if there {
            put_leaf(&mut self.nodes, d.0 as usize, None);
        }
        there
    }

    fn to_list(&self) -> ArrayVec<(DispNo, u64), MOST_DISPS> {
        self.arrivals.to_list()
    }
}
