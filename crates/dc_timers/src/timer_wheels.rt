ghost use Rattle.std.specs.Prelude.{◌≡◌, ℕ, ◌≤◌, length};
ghost use Rattle.dc_base.specs.Words.{lesser};
ghost use Rattle.dc_timers.specs.Numbers.{by_number, AreNumbered};

use crate::buckets::Buckets;
use crate::orders::{in_order, least_deadline};
use crate::queues::{TimerQueue, TimersFull};
use arrayvec::ArrayVec;
use dc_base::interrupts::Timer;
use dc_base::limits::TIMER_ROOM;
use dc_base::numbers::SignalNo;
use std::marker::Model;

/// The armed timers in a wheel of 64 buckets by deadline, with the earliest deadline.
#[derive(Drop)]
pub struct TimerWheel {
    buckets: Buckets,
    earliest: Option<u64>,
    next: u32,
}

impl Model for TimerWheel {
    ghost use Rattle.dc_timers.specs.Numbers.{Queue};

    ghost Value = { Queue };

    ghost use Rattle.dc_timers.specs.Numbers.{by_number};
    ghost use Rattle.dc_timers.specs.Wheels.{IsWheel};

    ghost view = { λ q. record { armed = by_number q.buckets; next = q.next } };

    ghost invariant = { λ q. IsWheel q.next q.earliest q.buckets };
}

fn lesser(deadline: u64, earliest: Option<u64>) -> u64
    ensures { result ≡ lesser deadline earliest }
{
    match earliest {
        None => deadline,
        Some(other) => { if other < deadline { other } else { deadline } }
    }
}

/// The timers in buckets.
fn in_buckets(timers: &[Timer]) -> Buckets
    requires few { length timers.now ≤ 64 }
    requires numbered { (next : ℕ) × AreNumbered next timers.now }
    ensures same { by_number result ≡ by_number timers.now }
    ensures numbered { (next : ℕ) → AreNumbered next timers.now → AreNumbered next result }
{
    let mut buckets = Buckets::empty();
    for i in (0..timers.len()).rev() {
        buckets.put(timers[i]);
    }
    buckets
}

impl TimerQueue for TimerWheel {
    ghost armed = { λ q. q.armed };

    ghost next = { λ q. q.next };

    fn empty() -> TimerWheel {
        TimerWheel {
            buckets: Buckets::empty(),
            earliest: None,
            next: 0,
        }
    }

    fn restore(number: u32, timers: &ArrayVec<Timer, TIMER_ROOM>) -> TimerWheel {
        let buckets = in_buckets(timers.as_slice());
        let earliest = least_deadline(buckets.as_slice());
        TimerWheel {
            buckets,
            earliest,
            next: number,
        }
    }

    fn arm(&mut self, deadline: u64, signal: SignalNo, value: u32) -> Result<u32, TimersFull> {
        if self.buckets.is_full() {
            return Err(TimersFull);
        }
        let number = self.next;
        let timer = Timer {
            deadline,
            number,
            signal,
            value,
        };
        self.buckets.put(timer);
        self.earliest = Some(lesser(deadline, self.earliest));
        self.next += 1;
        Ok(number)
    }

    fn due(&mut self, now: u64) -> Option<Timer> {
        match self.earliest {
            Some(deadline) if deadline <= now => {
                let at = self.buckets.soonest_of_bucket(deadline);
                let timer = self.buckets.take(at);
                self.earliest = least_deadline(self.buckets.as_slice());
                Some(timer)
            }
            _ => None,
        }
    }

    fn earliest(&self) -> Option<u64> {
        self.earliest
    }

    fn next(&self) -> u32 {
        self.next
    }

    fn to_list(&self) -> ArrayVec<Timer, TIMER_ROOM> {
        in_order(self.buckets.as_slice())
    }
}
