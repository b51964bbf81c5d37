use crate::orders::{in_order, put};
use crate::queues::{TimerQueue, TimersFull};
use arrayvec::ArrayVec;
use dc_base::interrupts::Timer;
use dc_base::limits::TIMER_ROOM;
use dc_base::numbers::SignalNo;
use std::marker::Model;

/// The armed timers in one list by (deadline, number).
#[derive(Drop)]
pub struct TimerList {
    timers: ArrayVec<Timer, TIMER_ROOM>,
    next: u32,
}

impl Model for TimerList {
    ghost use Rattle.dc_timers.specs.Numbers.{Queue};

    ghost Value = { Queue };

    ghost use Rattle.dc_timers.specs.Numbers.{by_number};
    ghost use Rattle.dc_timers.specs.Orders.{AreInOrder};

    ghost view = { λ q. record { armed = by_number q.timers.items; next = q.next } };

    ghost invariant = { λ q. AreInOrder q.next q.timers.items };
}

impl TimerQueue for TimerList {
    ghost armed = { λ q. q.armed };

    ghost next = { λ q. q.next };

    fn empty() -> TimerList {
        TimerList {
            timers: ArrayVec::new(),
            next: 0,
        }
    }

    fn restore(number: u32, timers: &ArrayVec<Timer, TIMER_ROOM>) -> TimerList {
        TimerList {
            timers: in_order(timers.as_slice()),
            next: number,
        }
    }

    fn arm(&mut self, deadline: u64, signal: SignalNo, value: u32) -> Result<u32, TimersFull> {
        if self.timers.is_full() {
            return Err(TimersFull);
        }
        let number = self.next;
        let timer = Timer {
            deadline,
            number,
            signal,
            value,
        };
        put(&mut self.timers, timer);
        self.next += 1;
        Ok(number)
    }

    fn due(&mut self, now: u64) -> Option<Timer> {
        match self.earliest() {
            Some(deadline) if deadline <= now => Some(self.timers.remove(0)),
            _ => None,
        }
    }

    fn earliest(&self) -> Option<u64> {
        match self.timers.as_slice() {
            [] => None,
            [first, ..] => Some(first.deadline),
        }
    }

    fn next(&self) -> u32 {
        self.next
    }

    fn to_list(&self) -> ArrayVec<Timer, TIMER_ROOM> {
        in_order(self.timers.as_slice())
    }
}
