ghost use Rattle.std.specs.Prelude.{◌≡◌, ◌+◌, ◌^◌, ◌<ℤ◌, ◌≤ℤ◌, ◌+ℤ◌, ◌-ℤ◌, pos};
ghost use Rattle.dc_base.specs.States.{time_on};

use std::marker::Model;

/// How far the time of a block on a core is ahead of the core's clock. Contracts see the difference.
#[derive(Clone, Copy, Debug, PartialEq, Eq)]
pub struct Clock {
    offset: i128,
}

impl Model for Clock {
    ghost use Rattle.std.specs.Prelude.{ℤ};

    ghost Value = { ℤ };

    ghost view = { λ c. c.offset };

    ghost inverse = { λ z. record { offset = z } };
}

impl Clock {
    /// Of a block whose time was kept, adopted as the core's clock stands so.
    pub fn adopted(kept: u64, core_clock: u64) -> Clock
        ensures { result ≡ pos kept -ℤ pos core_clock }
    {
        Clock {
            offset: kept as i128 - core_clock as i128,
        }
    }

    /// The block's time, from 0 to 2^63 - 1.
    pub fn time(&self, core_clock: u64) -> u64
        requires from_zero { pos 0 ≤ℤ (pos core_clock +ℤ self.now) }
        requires below { (pos core_clock +ℤ self.now) <ℤ pos (2 ^ 63) }
        ensures { result ≡ time_on core_clock self.now }
    {
        (core_clock as i128 + self.offset) as u64
    }

    /// The block's time less the core's clock.
    pub fn offset(&self) -> i128
        ensures { result ≡ self.now }
    {
        self.offset
    }
}
