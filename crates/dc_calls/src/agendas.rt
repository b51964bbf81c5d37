//! The dispatchers of a block, and what wakes them.

ghost use Rattle.std.specs.Prelude.{◌≡◌, ◌<◌, ◌≤◌, ◌||◌, nat_lt, ◌+◌, ◌^◌, ◌-◌, ◌↔◌, ℕ, Some, None, false, length, map, slice_get, slice_set, IsErr};
ghost use Rattle.std.specs.Prelude.{OnOk, OnErr};
ghost use Rattle.std.specs.Option.{option_map, option_map_or};
ghost use Rattle.dc_base.specs.declared.dispatchers.DispState.TheVariants as disp;
ghost use Rattle.dc_base.specs.declared.dispatchers.Wait.{Wait as Waits};
ghost use Rattle.dc_base.specs.declared.interrupts.Timer.{Timer as Armed};
ghost use Rattle.dc_base.specs.declared.kernels.Version.TheVariants.{Edf};
ghost use Rattle.dc_base.specs.declared.numbers.DispNo.{DispNo as Disp};
ghost use Rattle.dc_base.specs.Words.{Each, lists};
ghost use Rattle.dc_base.specs.Ports.{latch_at, how_latched};
ghost use Rattle.dc_base.specs.Policies.{pick};
ghost use Rattle.dc_base.specs.Firing.{waits_so, wake, latch_in, fire_all};
ghost use Rattle.dc_base.specs.Kernel.{with_timer};
ghost use Rattle.dc_base.specs.Slices.{with_state, ready_last, without_ready, due_after};
ghost use Rattle.dc_base.specs.Timers.{is_due, soonest};
ghost use Rattle.dc_base.specs.Wakes.{ready_again};
ghost use Rattle.dc_base.specs.Timers.{due_timer};
ghost use Rattle.dc_timers.specs.Numbers.{without_fired};
ghost use Rattle.dc_ready.specs.Entries.{dispatchers};
ghost use Rattle.dc_kcb.specs.Controls.{Store, control_of, due_of, state_of};
ghost use Rattle.dc_calls.specs.Contexts.{at_context};

use arrayvec::ArrayVec;
use dc_base::dispatchers::{DispState, Wait};
use dc_base::interrupts::{Latch, Latched, Source, Timer};
use dc_base::numbers::{DispNo, SignalNo};
use dc_isa::Dispatcher;
use dc_kcb::copied;
use dc_ports::Signal;
use dc_ready::ReadyList;
use dc_timers::{TimerQueue, TimersFull};
use std::marker::Model;

/// The dispatchers of a block, and what wakes them: its signals, its ready list and its timers.
#[derive(Drop)]
pub(crate) struct Agenda<R: ReadyList, T: TimerQueue> {
    pub(crate) disps: ArrayVec<Dispatcher, 16>,
    pub(crate) signals: ArrayVec<Signal, 16>,
    pub(crate) ready: R,
    pub(crate) timers: T,
}

impl<R: ReadyList, T: TimerQueue> Model for Agenda<R, T> {
    ghost use Rattle.dc_kcb.specs.Controls.{Agenda};
    ghost use Rattle.dc_calls.specs.Queued.{AreQueued};

    ghost Value = { Agenda };

    ghost view = { λ a. record {
      disps = a.disps.items;
      signals = a.signals.items;
      ready = R.listed a.ready;
      timers = T.armed a.timers;
      next_timer = T.next a.timers;
    } };

    ghost invariant = { λ a. AreQueued a.disps.items (R.listed a.ready) };
}

impl<R: ReadyList, T: TimerQueue> Agenda<R, T> {
    /// The dispatcher that runs next.
    pub(crate) fn pick(&self) -> Option<DispNo>
        ensures { option_map (λ (d : Disp). d.0) result ≡ pick R.policy (map due_of self.now.disps) (dispatchers self.now.ready) }
    {
        self.ready.pick()
    }

    /// A dispatcher.
    pub(crate) fn disp(&self, d: DispNo) -> Dispatcher
        requires { d.0 < length self.now.disps }
        ensures { slice_get self.now.disps d.0 ≡ Some result }
    {
        self.disps[d.0 as usize]
    }

    /// The dispatcher goes out of the ready list.
    pub(crate) fn take_out(&mut self, d: DispNo)
        ensures control { (s : Store) → control_of s self.new ≡ without_ready d.0 (control_of s self.old) }
        ensures size { length self.new.disps ≡ length self.old.disps }
    {
        self.ready.remove(d);
    }

    /// The dispatcher, which is ready and not listed, goes to the end of the ready list.
    pub(crate) fn ready_last(&mut self, d: DispNo)
        requires ready { slice_get (map state_of self.old.disps) d.0 ≡ Some disp.Ready }
        requires absent { lists (dispatchers self.old.ready) d.0 ≡ false }
        ensures control { (s : Store) → control_of s self.new ≡ ready_last d.0 (control_of s self.old) }
        ensures size { length self.new.disps ≡ length self.old.disps }
    {
        let due = self.disps[d.0 as usize].due;
        self.ready.add(d, due);
    }

    /// The dispatcher, which is not listed, is in this state.
    pub(crate) fn set_state(&mut self, d: DispNo, state: DispState)
        requires there { d.0 < length self.old.disps }
        requires absent { lists (dispatchers self.old.ready) d.0 ≡ false }
        ensures control { (s : Store) → control_of s self.new ≡ with_state d.0 state (control_of s self.old) }
        ensures ready { self.new.ready ≡ self.old.ready }
        ensures size { length self.new.disps ≡ length self.old.disps }
    {
        self.disps[d.0 as usize].state = state;
    }

    /// The due of the dispatcher, which is not listed, grows by its period.
    pub(crate) fn add_period(&mut self, d: DispNo)
        requires there { d.0 < length self.old.disps }
        requires absent { lists (dispatchers self.old.ready) d.0 ≡ false }
        requires within { Each (map due_of self.old.disps) (λ d due. due < 2 ^ 63) }
        ensures control { (s : Store) → control_of s self.new ≡ due_after Edf d.0 (control_of s self.old) }
        ensures ready { self.new.ready ≡ self.old.ready }
        ensures states { map state_of self.new.disps ≡ map state_of self.old.disps }
        ensures size { length self.new.disps ≡ length self.old.disps }
    {
        let period = self.disps[d.0 as usize].period;
        self.disps[d.0 as usize].due += period as u64;
    }

    /// The dispatcher goes on with these registers at this place.
    pub(crate) fn go_to(&mut self, d: DispNo, regs: [u32; 8], place: u32)
        requires there { d.0 < length self.old.disps }
        ensures control { (s : Store) → control_of s self.new ≡ at_context d.0 (record { regs = regs; place = place }) (control_of s self.old) }
        ensures size { length self.new.disps ≡ length self.old.disps }
    {
        let disp = &mut self.disps[d.0 as usize];
        disp.regs = regs;
        disp.place = place;
    }

    /// All that wait so become ready, by ascending number.
    pub(crate) fn wake(&mut self, w: Wait)
        ensures control { (s : Store) → control_of s self.new ≡ wake w (control_of s self.old) }
        ensures size { length self.new.disps ≡ length self.old.disps }
    {
        for i in 0..self.count() {
            let d = DispNo(i);
            if self.waits(d, w) {
                self.wake_one(d);
            }
        }
    }

    /// How many dispatchers there are.
    fn count(&self) -> u32
        ensures { result ≡ length self.now.disps }
    {
        self.disps.len() as u32
    }

    /// Whether the dispatcher waits so.
    fn waits(&self, d: DispNo, w: Wait) -> bool
        requires { d.0 < length self.now.disps }
        ensures { result ≡ option_map_or (waits_so w) (slice_get (map state_of self.now.disps) d.0) false }
    {
        is_waiting(self.disps[d.0 as usize].state, w)
    }

    /// A waiting dispatcher is ready again, last of all.
    pub(crate) fn wake_one(&mut self, d: DispNo)
        requires waits { (w : Waits) × (slice_get (map state_of self.old.disps) d.0 ≡ Some (disp.Waits w)) }
        ensures control { (s : Store) → control_of s self.new ≡ ready_again d.0 (control_of s self.old) }
        ensures size { length self.new.disps ≡ length self.old.disps }
    {
        let _ = &self.disps;
        self.set_state(d, DispState::Ready);
        self.ready_last(d);
    }

    /// A latch comes to a signal, and wakes all that wait for it.
    pub(crate) fn latch(&mut self, s: SignalNo, l: Latch) -> Latched
        requires there { s.0 < length self.old.signals }
        ensures how { result ≡ how_latched (latch_at self.old.signals s.0) }
        ensures control { (st : Store) → control_of st self.new ≡ latch_in s.0 l (control_of st self.old) }
        ensures size { length self.new.disps ≡ length self.old.disps }
        ensures signals { length self.new.signals ≡ length self.old.signals }
    {
        let how = self.signals[s.0 as usize].latch(l);
        self.wake(Wait::Signal(s));
        how
    }

    /// All due timers fire, and it is told how many.
    pub(crate) fn fire(&mut self, time: u64) -> u32
        requires named { Each self.old.timers (λ i (t : Armed). t.signal.0 < length self.old.signals) }
        requires room { length self.old.timers ≤ 64 }
        ensures control { (st : Store) → record { control = control_of st self.new; count = result } ≡ fire_all time (control_of st self.old) }
        ensures size { length self.new.disps ≡ length self.old.disps }
    {
        let mut count = 0;
        while let Some(t) = self.take_due(time) {
            let latch = Latch {
                source: Source::Timer,
                value: t.value,
            };
            self.latch(t.signal, latch);
            count += 1;
        }
        count
    }

    /// The timer that fires first goes out of the armed ones, if one is due.
    fn take_due(&mut self, time: u64) -> Option<Timer>
        ensures which { result ≡ due_timer time self.old.timers }
        ensures rest { self.new ≡ record self.old { timers = without_fired result self.old.timers } }
    {
        self.timers.due(time)
    }

    /// The dispatcher that runs next once all due timers have fired.
    pub(crate) fn pick_after(&self, time: u64) -> Option<DispNo>
        requires named { Each self.now.timers (λ i (t : Armed). t.signal.0 < length self.now.signals) }
        requires room { length self.now.timers ≤ 64 }
        ensures { (st : Store) → let x = (fire_all time (control_of st self.now)).control in
            option_map (λ (d : Disp). d.0) result ≡ pick R.policy x.dues x.ready }
    {
        if !self.timers.is_due(time) {
            return self.pick();
        }
        self.pick_fired(time)
    }

    /// The same, found on a copy. It stands apart, so that the room of the copy is not cleared where no timer is due.
    #[inline(never)]
    fn pick_fired(&self, time: u64) -> Option<DispNo>
        requires named { Each self.now.timers (λ i (t : Armed). t.signal.0 < length self.now.signals) }
        requires room { length self.now.timers ≤ 64 }
        ensures { (st : Store) → let x = (fire_all time (control_of st self.now)).control in
            option_map (λ (d : Disp). d.0) result ≡ pick R.policy x.dues x.ready }
    {
        let mut other = self.copy();
        other.fire(time);
        other.pick()
    }

    /// Another with the same.
    fn copy(&self) -> Agenda<R, T>
        ensures { result ≡ self.now }
    {
        Agenda {
            disps: copied(&self.disps),
            signals: copied(&self.signals),
            ready: R::restore(&self.ready.to_list()),
            timers: T::restore(self.timers.next(), &self.timers.to_list()),
        }
    }

    /// Whether a dispatcher is ready or a timer is due.
    pub(crate) fn can_run(&self, time: u64) -> bool
        ensures { result ≡ (nat_lt 0 (length self.now.ready) || is_due time self.now.timers) }
    {
        self.ready.pick().is_some() || self.timers.is_due(time)
    }

    /// The least deadline of a timer.
    pub(crate) fn deadline(&self) -> Option<u64>
        ensures { result ≡ option_map (λ (t : Armed). t.deadline) (soonest self.now.timers) }
    {
        self.timers.earliest()
    }

    /// The latch of a signal is taken, if there is one.
    pub(crate) fn take_latch(&mut self, s: SignalNo) -> Option<Latch>
        requires { s.0 < length self.old.signals }
        ensures latch { result ≡ latch_at self.old.signals s.0 }
        ensures agenda { self.new ≡ record self.old { signals = slice_set self.old.signals s.0 None } }
    {
        self.signals[s.0 as usize].take()
    }

    /// Arms a timer of a signal, unless 64 are armed.
    pub(crate) fn arm(
        &mut self,
        deadline: u64,
        signal: SignalNo,
        value: u32,
    ) -> Result<(), TimersFull>
        requires { self.old.next_timer < 2 ^ 32 - 1 }
        ensures full { IsErr result ↔ (64 ≤ length self.old.timers) }
        ensures armed { OnOk result ((st : Store) → control_of st self.new ≡
            (let x = control_of st self.old in record x { parts = with_timer deadline signal.0 value x.parts })) }
        ensures kept { OnErr result (self.new ≡ self.old) }
        ensures size { length self.new.disps ≡ length self.old.disps }
    {
        self.timers.arm(deadline, signal, value)?;
        Ok(())
    }
}

/// Whether it is the state of a dispatcher that waits so.
fn is_waiting(state: DispState, w: Wait) -> bool
    ensures { result ≡ waits_so w state }
{
    state == DispState::Waits(w)
}
