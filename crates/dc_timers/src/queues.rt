ghost use Rattle.std.specs.Prelude.{◌≡◌, ◌↔◌, ℕ, ◌+◌, ◌-◌, ◌^◌, ◌<◌, ◌≤◌, List, [], ◌∷◌, ◌++◌, length, IsErr, IfOk, OnOk, OnErr};
ghost use Rattle.std.specs.Option.{option_map};
ghost use Rattle.dc_base.specs.declared.interrupts.Timer.{Timer};
ghost use Rattle.dc_base.specs.Timers.{due_timer, is_due, soonest, in_order};
ghost use Rattle.dc_timers.specs.Numbers.{by_number, without_fired, AreNumbered};

use arrayvec::ArrayVec;
use dc_base::interrupts::Timer;
use dc_base::limits::TIMER_ROOM;
use dc_base::numbers::SignalNo;

/// 64 timers are armed.
#[derive(Clone, Copy, Debug, PartialEq, Eq)]
pub struct TimersFull;

/// The armed timers of a block, by ascending number, and the next number. At most 64 are armed. Deadlines are in the block's time.
pub trait TimerQueue: Sized + Drop {
    ghost armed: { Self → List Timer };

    ghost next: { Self → ℕ };

    /// No timer, and the next number 0.
    fn empty() -> Self
        ensures none { armed result ≡ [] }
        ensures first { next result ≡ 0 };

    /// The next number, and the timers, whose numbers differ and are below it.
    fn restore(number: u32, timers: &ArrayVec<Timer, TIMER_ROOM>) -> Self
        requires { AreNumbered number timers.now.items }
        ensures timers { armed result ≡ by_number timers.now.items }
        ensures next { next result ≡ number };

    /// Arms a timer, and gives its number.
    fn arm(&mut self, deadline: u64, signal: SignalNo, value: u32) -> Result<u32, TimersFull>
        requires { next self.old < 2 ^ 32 - 1 }
        ensures full { IsErr result ↔ (64 ≤ length (armed self.old)) }
        ensures number { IfOk result (λ n. n ≡ next self.old) }
        ensures armed { OnOk result (armed self.new ≡
            armed self.old ++ record { deadline = deadline; number = next self.old; signal = signal; value = value } ∷ []) }
        ensures next { OnOk result (next self.new ≡ next self.old + 1) }
        ensures same { OnErr result (self.new ≡ self.old) };

    /// Removes the timer with the least (deadline, number) whose deadline is at most `now`. None where none is due.
    fn due(&mut self, now: u64) -> Option<Timer>
        ensures which { result ≡ due_timer now (armed self.old) }
        ensures rest { armed self.new ≡ without_fired result (armed self.old) }
        ensures next { next self.new ≡ next self.old };

    /// The least deadline.
    fn earliest(&self) -> Option<u64>
        ensures { result ≡ option_map (λ (t : Timer). t.deadline) (soonest (armed self.now)) };

    /// Whether a timer is due.
    fn is_due(&self, now: u64) -> bool
        ensures { result ≡ is_due now (armed self.now) }
    {
        match self.earliest() {
            None => false,
            Some(deadline) => deadline <= now,
        }
    }

    /// The number of the timer that is armed next.
    fn next(&self) -> u32
        ensures { result ≡ next self.now };

    /// The timers by (deadline, number).
    fn to_list(&self) -> ArrayVec<Timer, TIMER_ROOM>
        ensures order { result.items ≡ in_order (armed self.now) }
        ensures all { by_number result.items ≡ armed self.now }
        ensures numbered { AreNumbered (next self.now) result.items };
}
