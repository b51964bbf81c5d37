ghost use Rattle.std.specs.Prelude.{◌≡◌, false};

use dc_base::numbers::BlockNo;
use std::marker::Model;

/// A block of a share, which is home there or parked.
#[derive(Clone, Copy, Debug)]
pub struct Seat {
    block: BlockNo,
    parked: bool,
}

// Contracts see a member of a share of the machine with cores.
impl Model for Seat {
    ghost use Rattle.dc_base.specs.States.{Member};

    ghost Value = { Member };

    ghost view = { λ s. record { block = s.block.0; parked = s.parked } };

    ghost inverse = { λ m. record { block = record { 0 = m.block }; parked = m.parked } };
}

impl Seat {
    pub(crate) fn new(block: BlockNo, parked: bool) -> Seat
        ensures { result ≡ record { block = block.0; parked = parked } }
    {
        Seat { block, parked }
    }

    pub(crate) fn block(&self) -> BlockNo
        ensures { result.0 ≡ self.now.block }
    {
        self.block
    }

    pub(crate) fn is_parked(&self) -> bool
        ensures { result ≡ self.now.parked }
    {
        self.parked
    }
}

impl Default for Seat {
    ghost use Rattle.std.specs.Prelude.{◌≡◌, false};

    ghost is_default = { λ s. s ≡ record { block = 0; parked = false } };

    fn default() -> Seat {
        Seat::new(BlockNo(0), false)
    }
}
