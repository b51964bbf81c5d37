//! The logs of all seats.
ghost use Rattle.std.specs.Prelude.{◌≡◌, ◌↔◌, ◌⊎◌, ◌<◌, ◌+◌, IsTrue, false, length, true};
ghost use Rattle.dc_rests.specs.Resting.{entries_in_logs};
ghost use Rattle.dc_rests.specs.Settling.{HasFull, IsFull};

use dc_crew::Seat;

/// Whether one of the logs is full.
pub(crate) fn is_any_full(seats: &[Seat], script: &Seat) -> bool
    ensures full { result ≡ true → HasFull seats.now ⊎ IsFull script.now.log }
    ensures room { result ≡ false → length script.now.log.entries < script.now.log.room }
{
    for seat in seats {
        if seat.log.is_full() {
            return true;
        }
    }
    script.log.is_full()
}

/// Whether the logs have `n` entries together.
pub(crate) fn have_together(seats: &[Seat], script: &Seat, n: u64) -> bool
    ensures { IsTrue result ↔ (entries_in_logs seats.now + length script.now.log.entries ≡ n) }
{
    let mut left = n;
    for seat in seats {
        let Some(rest) = left.checked_sub(seat.log.len()) else {
            return false;
        };
        left = rest;
    }
    left == script.log.len()
}
