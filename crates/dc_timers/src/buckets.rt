//! The buckets of a wheel, side by side in one room.

ghost use Rattle.std.specs.Prelude.{◌≡◌, ℕ, ◌+◌, ◌<◌, ◌≤◌, ◌==◌, [], Some, false, length, insert, remove, slice_get, slice_index, nat_lt};
ghost use Rattle.dc_base.specs.declared.interrupts.Timer.{Timer};
ghost use Rattle.dc_base.specs.Timers.{is_sooner};
ghost use Rattle.dc_base.specs.Words.{count_of};
ghost use Rattle.dc_timers.specs.Wheels.{bucket_of};

use crate::orders::soonest_within;
use arrayvec::ArrayVec;
use dc_base::interrupts::Timer;
use dc_base::limits::TIMER_ROOM;
use std::marker::Model;

/// Room for 64 timers, each in the bucket of its deadline modulo 64. Bucket b begins at the b-th start, and ends where the next begins.
#[derive(Drop)]
pub(crate) struct Buckets {
    room: ArrayVec<Timer, TIMER_ROOM>,
    starts: [u8; 65],
}

impl Model for Buckets {
    ghost use Rattle.std.specs.Prelude.{List};
    ghost use Rattle.dc_base.specs.declared.interrupts.Timer.{Timer};
    ghost use Rattle.dc_timers.specs.Wheels.{AreBuckets};

    ghost Value = { List Timer };

    ghost view = { λ b. b.room.items };

    ghost invariant = { λ b. AreBuckets b.room.items b.starts };
}

fn bucket_of(deadline: u64) -> usize
    ensures value { result ≡ bucket_of deadline }
    ensures within { result < 64 }
{
    (deadline % 64) as usize
}

/// The buckets after one begin a place later.
fn move_later(starts: &mut [u8; 65], bucket: usize)
    requires bucket { bucket < 64 }
    requires room { (k : ℕ) → k < 65 → slice_index starts.old k ≤ 64 }
    ensures size { length starts.new ≡ 65 }
    ensures starts { (k : ℕ) → k < 65 → slice_index starts.new k ≡ slice_index starts.old k + count_of (nat_lt bucket k) }
{
    for k in bucket + 1..65 {
        starts[k] += 1;
    }
}

/// The buckets after one begin a place earlier.
fn move_earlier(starts: &mut [u8; 65], bucket: usize)
    requires bucket { bucket < 64 }
    requires some { (k : ℕ) → bucket < k → k < 65 → 0 < slice_index starts.old k }
    ensures size { length starts.new ≡ 65 }
    ensures starts { (k : ℕ) → k < 65 → slice_index starts.new k + count_of (nat_lt bucket k) ≡ slice_index starts.old k }
{
    for k in bucket + 1..65 {
        starts[k] -= 1;
    }
}

impl Buckets {
    pub(crate) fn empty() -> Buckets
        ensures { result ≡ [] }
    {
        Buckets {
            room: ArrayVec::new(),
            starts: [0; 65],
        }
    }

    pub(crate) fn is_full(&self) -> bool
        ensures full { result ≡ (length self.now == 64) }
        ensures fits { length self.now ≤ 64 }
    {
        self.room.is_full()
    }

    pub(crate) fn as_slice(&self) -> &[Timer]
        ensures value { result.now ≡ self.now }
        ensures fits { length result.now ≤ 64 }
    {
        self.room.as_slice()
    }

    /// Puts a timer at the end of its bucket.
    pub(crate) fn put(&mut self, t: Timer)
        requires { length self.old < 64 }
        ensures { (at : ℕ) × (at ≤ length self.old) × (self.new ≡ insert self.old at t) }
    {
        let bucket = bucket_of(t.deadline);
        let at = self.starts[bucket + 1] as usize;
        self.room.insert(at, t);
        move_later(&mut self.starts, bucket);
    }

    /// The place of the soonest timer in the bucket of a deadline that a timer has.
    pub(crate) fn soonest_of_bucket(&self, deadline: u64) -> usize
        requires { (j : ℕ) × (t : Timer) × (slice_get self.now j ≡ Some t) × (t.deadline ≡ deadline) }
        ensures within { result < length self.now }
        ensures soonest { (j : ℕ) (t u : Timer) → slice_get self.now result ≡ Some t → slice_get self.now j ≡ Some u →
            u.deadline ≡ deadline → is_sooner u t ≡ false }
    {
        let bucket = bucket_of(deadline);
        let from = self.starts[bucket] as usize;
        let to = self.starts[bucket + 1] as usize;
        soonest_within(self.room.as_slice(), from, to)
    }

    /// Removes the timer at a place.
    pub(crate) fn take(&mut self, at: usize) -> Timer
        requires { at < length self.old }
        ensures value { slice_get self.old at ≡ Some result }
        ensures rest { self.new ≡ remove self.old at }
    {
        let timer = self.room.remove(at);
        move_earlier(&mut self.starts, bucket_of(timer.deadline));
        timer
    }
}
