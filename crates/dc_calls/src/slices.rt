//! A slice once its timers have fired: the plain part, the call, and the end.

ghost use Rattle.std.specs.Prelude.{◌≡◌, ℕ, ◌<◌, ◌≤◌, ◌-◌, ◌^◌, max, List, Some, false, length, slice_get, IsTrue};
ghost use Rattle.dc_base.specs.declared.calls.Need.{Need as Needed};
ghost use Rattle.dc_base.specs.declared.calls.Op.{Op};
ghost use Rattle.dc_base.specs.declared.calls.End.TheVariants as end;
ghost use Rattle.dc_base.specs.declared.dispatchers.DispState.TheVariants as disp;
ghost use Rattle.dc_base.specs.declared.dispatchers.Wait.{Wait as Waits};
ghost use Rattle.dc_base.specs.declared.numbers.DispNo.{DispNo as Disp};
ghost use Rattle.std.specs.Option.{option_map};
ghost use Rattle.dc_base.specs.Words.{Each, lists};
ghost use Rattle.dc_base.specs.Ahead as plain;
ghost use Rattle.dc_base.specs.Effects.{Context};
ghost use Rattle.dc_base.specs.ControlBlocks.{ControlBlock};
ghost use Rattle.dc_base.specs.Firing.{fire_all, latch_in, wake_if};
ghost use Rattle.dc_base.specs.Policies.{pick};
ghost use Rattle.dc_base.specs.Ports.{latch_at, how_latched};
ghost use Rattle.dc_base.specs.Wakes.{ready_again};
ghost use Rattle.dc_base.specs.Kernel.{call_of};
ghost use Rattle.dc_base.specs.Slices.{ready_last, with_state, without_ready, due_after, with_due, after_ahead, after_served, need_of, slice_end};
ghost use Rattle.dc_base.specs.Serving.{need as need_of_call, serve};
ghost use Rattle.dc_exec.specs.Calls.{call_name as name_of, is_proper_call};
ghost use Rattle.dc_exec.specs.Ends.{end_seen, is_proper_end};
ghost use Rattle.dc_block_sound.specs.SoundControls.{IsSoundControl};
ghost use Rattle.dc_calls.specs.Outsides.{outside_seen, HasRoom, Fits};
ghost use Rattle.dc_calls.specs.Serves.{IsRunning, Serves};
ghost use Rattle.dc_calls.specs.Slices.{IsRun, half_of, sliced_seen};

use crate::answers::Answer;
use crate::forms::Form;
use crate::outsides::Outside;
use crate::sliced::Sliced;
use dc_base::calls::{End, Need};
use dc_base::dispatchers::{DispState, Wait};
use dc_base::interrupts::{Latch, Latched};
use dc_base::kernels::Version;
use dc_base::numbers::{BlockNo, CoreNo, DispNo, SignalNo};
use dc_exec::{AheadEnd, Ran, call_name, end_ahead, run};
use dc_isa::Instr;
use dc_ready::ReadyList;
use dc_timers::TimerQueue;

/// A slice that ended without a call that was made.
fn stopped(d: DispNo, fired: u32, ran: u32, end: End) -> Sliced
    ensures { result ≡ record { disp = Some d; fired = fired; ran = ran; end = end; advance = max ran 1 } }
{
    Sliced {
        disp: Some(d),
        fired,
        ran,
        end,
        advance: ran.max(1),
    }
}

impl<R: ReadyList, T: TimerQueue> Form<R, T> {
    /// All due timers fire, and it is told how many.
    pub fn fire(&mut self, time: u64) -> u32
        requires { IsSoundControl self.old }
        ensures { record { control = self.new; count = result } ≡ fire_all time self.old }
    {
        self.agenda.fire(time)
    }

    /// The dispatcher that runs next.
    pub fn pick(&self) -> Option<DispNo>
        ensures { option_map (λ (d : Disp). d.0) result ≡ pick R.policy self.now.dues self.now.ready }
    {
        self.agenda.pick()
    }

    /// The dispatcher that runs next once all due timers have fired.
    pub fn pick_after(&self, time: u64) -> Option<DispNo>
        requires { IsSoundControl self.now }
        ensures { let x = (fire_all time self.now).control in option_map (λ (d : Disp). d.0) result ≡ pick R.policy x.dues x.ready }
    {
        self.agenda.pick_after(time)
    }

    /// A latch comes to a signal, and wakes all that wait for it.
    pub fn latch(&mut self, s: SignalNo, l: Latch) -> Latched
        requires { s.0 < length self.old.parts.signals }
        ensures how { result ≡ how_latched (latch_at self.old.parts.signals s.0) }
        ensures block { self.new ≡ latch_in s.0 l self.old }
    {
        self.agenda.latch(s, l)
    }

    /// A waiting dispatcher is ready again, last of all.
    pub fn wake_one(&mut self, d: DispNo)
        requires { (w : Waits) × (slice_get self.old.states d.0 ≡ Some (disp.Waits w)) }
        ensures { self.new ≡ ready_again d.0 self.old }
    {
        self.agenda.wake_one(d);
    }

    /// The object outside the block that the call needs at which the plain part ends.
    pub fn need_after(&self, d: DispNo, end: &AheadEnd) -> Need
        requires there { d.0 < length self.now.states }
        requires proper { IsTrue (is_proper_end end.now) }
        ensures { (time : ℕ) (x : ControlBlock) (a : plain.Ahead) → x.parts.caps ≡ self.now.parts.caps → end_seen end.now ≡ a.end →
            result ≡ need_of (after_ahead time x d.0 a a.end) }
    {
        match end {
            AheadEnd::Quantum => Need::Nothing,
            AheadEnd::Halt => Need::Nothing,
            AheadEnd::Trap(_) => Need::Nothing,
            AheadEnd::Call(instr) => self.need(d, instr),
        }
    }

    /// How the plain part of a slice of the dispatcher would end. Nothing changes.
    pub fn end_ahead(&self, d: DispNo, time: u64, quantum: u32) -> AheadEnd
        requires sound { IsSoundControl self.now }
        requires there { d.0 < length self.now.states }
        requires quantum { quantum ≤ 64 }
        ensures end { (code : List ℕ) (x : Context) → slice_get self.now.parts.code d.0 ≡ Some code → slice_get self.now.parts.contexts d.0 ≡ Some x →
            end_seen result ≡ (plain.ahead time code quantum x self.now.parts.memory).end }
        ensures proper { IsTrue (is_proper_end result) }
    {
        let disp = self.agenda.disp(d);
        end_ahead(
            &disp,
            self.code[d.0 as usize].as_slice(),
            self.memory.as_slice(),
            time,
            quantum,
        )
    }

    /// Runs the plain part of a slice of the dispatcher, which stays in the ready list.
    pub fn run_plain(&mut self, d: DispNo, time: u64, quantum: u32) -> Ran
        requires sound { IsSoundControl self.old }
        requires there { d.0 < length self.old.states }
        requires quantum { quantum ≤ 64 }
        ensures plain { (code : List ℕ) (x : Context) → slice_get self.old.parts.code d.0 ≡ Some code → slice_get self.old.parts.contexts d.0 ≡ Some x →
            IsRun d.0 self.old self.new result (plain.ahead time code quantum x self.old.parts.memory) }
        ensures proper { IsTrue (is_proper_end result.end) }
    {
        let mut disp = self.agenda.disp(d);
        let code = self.code[d.0 as usize].as_slice();
        let ran = run(&mut disp, code, &mut self.memory, time, quantum);
        self.agenda.go_to(d, disp.regs, disp.place);
        ran
    }

    /// All that wait so become ready, if any.
    fn wake_if(&mut self, wakes: Option<Wait>)
        ensures { self.new ≡ wake_if wakes self.old }
    {
        if let Some(w) = wakes {
            self.agenda.wake(w);
        }
    }

    /// In the second version the due of the dispatcher, which is not listed, grows by its period.
    fn grow_due(&mut self, d: DispNo)
        requires there { d.0 < length self.old.states }
        requires absent { lists self.old.ready d.0 ≡ false }
        requires dues { Each self.old.dues (λ d due. due < 2 ^ 63) }
        ensures { self.new ≡ due_after R.policy d.0 self.old }
    {
        match R::version() {
            Version::Rr => {}
            Version::Edf => self.agenda.add_period(d),
        }
    }

    /// The dispatcher stays ready, last of all.
    fn stay_ready(&mut self, d: DispNo)
        requires ready { slice_get self.old.states d.0 ≡ Some disp.Ready }
        requires absent { lists self.old.ready d.0 ≡ false }
        requires dues { Each self.old.dues (λ d due. due < 2 ^ 63) }
        ensures { self.new ≡ due_after R.policy d.0 (ready_last d.0 self.old) }
    {
        self.grow_due(d);
        self.agenda.ready_last(d);
    }

    /// The dispatcher is in this state after its slice.
    fn stand(&mut self, d: DispNo, state: DispState)
        requires there { d.0 < length self.old.states }
        requires absent { lists self.old.ready d.0 ≡ false }
        requires dues { Each self.old.dues (λ d due. due < 2 ^ 63) }
        ensures { self.new ≡ due_after R.policy d.0 (with_state d.0 state self.old) }
    {
        self.agenda.set_state(d, state);
        self.grow_due(d);
    }

    /// The dispatcher goes out of the ready list.
    fn take_out(&mut self, d: DispNo)
        ensures { self.new ≡ without_ready d.0 self.old }
    {
        self.agenda.take_out(d);
    }

    /// The end of a slice of the dispatcher, whose plain part has run.
    pub fn end_slice(
        &mut self,
        d: DispNo,
        fired: u32,
        part: &Ran,
        time: u64,
        core: CoreNo,
        block: BlockNo,
        outside: &mut Outside,
    ) -> Sliced
        requires running { IsRunning d.0 (without_ready d.0 self.old) }
        requires dues { Each self.old.dues (λ d due. due < 2 ^ 63) }
        requires timers { self.old.parts.next_timer < 2 ^ 32 - 1 }
        requires time { time < 2 ^ 63 }
        requires room { HasRoom outside.old }
        requires ran { part.now.ran ≤ 64 }
        requires proper { IsTrue (is_proper_end part.now.end) }
        ensures slice { (x : ControlBlock) (a : plain.Ahead) → IsRun d.0 x self.old part.now a → let h = half_of time d.0 x a in
            Fits (need_of h) outside.old → sliced_seen self.new result (need_of h) (outside_seen outside.new) ≡
            slice_end core.0 block.0 R.policy d.0 h (outside_seen outside.old) }
        ensures disp { result.disp ≡ Some d }
        ensures fired { result.fired ≡ fired }
        ensures kind { (n : Needed) → Fits n outside.old → Fits n outside.new }
    {
        self.take_out(d);
        match &part.end {
            AheadEnd::Quantum => {
                self.stay_ready(d);
                stopped(d, fired, part.ran, End::Quantum)
            }
            AheadEnd::Halt => {
                self.stand(d, DispState::Halted);
                stopped(d, fired, part.ran, End::Halt)
            }
            AheadEnd::Trap(x) => {
                self.stand(d, DispState::Trapped(*x));
                stopped(d, fired, part.ran, End::Trap(*x))
            }
            AheadEnd::Call(instr) => {
                self.serve(d, fired, part.ran, instr, time, core, block, outside)
            }
        }
    }

    /// The call at which a slice stands, and its end.
    fn serve(
        &mut self,
        d: DispNo,
        fired: u32,
        ran: u32,
        instr: &Instr,
        time: u64,
        core: CoreNo,
        block: BlockNo,
        outside: &mut Outside,
    ) -> Sliced
        requires running { IsRunning d.0 self.old }
        requires dues { Each self.old.dues (λ d due. due < 2 ^ 63) }
        requires timers { self.old.parts.next_timer < 2 ^ 32 - 1 }
        requires time { time < 2 ^ 63 }
        requires ran { ran ≤ 64 }
        requires proper { IsTrue (is_proper_call instr.now) }
        requires room { HasRoom outside.old }
        ensures slice { (x : Context) (o : Op) → slice_get self.old.parts.contexts d.0 ≡ Some x → name_of instr.now ≡ Some o →
            let call = call_of time d.0 x instr.now self.old.parts in
            sliced_seen self.new result (need_of_call call) (outside_seen outside.new) ≡
            with_due R.policy d.0 (after_served self.old d.0 ran o (need_of_call call) (outside_seen outside.old)
            (serve core.0 block.0 call (outside_seen outside.old))) }
        ensures disp { result.disp ≡ Some d }
        ensures fired { result.fired ≡ fired }
        ensures kind { (n : Needed) → Fits n outside.old → Fits n outside.new }
    {
        let op = call_name(instr).unwrap();
        match self.call(d, instr, time, core, block, outside) {
            Answer::Fault(x) => {
                self.stand(d, DispState::Trapped(x));
                stopped(d, fired, ran, End::Trap(x))
            }
            Answer::Hold(w) => {
                self.stand(d, DispState::Waits(w));
                stopped(d, fired, ran, End::Hold(op))
            }
            Answer::Made(wakes) => {
                self.wake_if(wakes);
                self.stay_ready(d);
                Sliced {
                    disp: Some(d),
                    fired,
                    ran,
                    end: End::Call(op),
                    advance: ran + 1,
                }
            }
        }
    }
}
