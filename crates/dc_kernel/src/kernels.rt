//! One kernel over any ready list and any queue of timers.

ghost use Rattle.std.specs.Prelude.{◌≡◌, None};
ghost use Rattle.dc_base.specs.declared.calls.End.TheVariants as end;
ghost use Rattle.dc_calls.specs.Slices.{OffersWithin};

use crate::drivers::{Begun, Driver};
use arrayvec::ArrayVec;
use dc_base::calls::{End, Need};
use dc_base::capabilities::Cap;
use dc_base::interrupts::{Latch, Latched, Timer};
use dc_base::kernels::Version;
use dc_base::numbers::{BlockNo, CoreNo, DispNo, PortNo, SignalNo, SlotNo};
use dc_block_sound::{
    aheads_keep_controls, firing_keeps_controls, latching_keeps_controls, picked_is_ready,
    ready_stand_once, slices_keep_controls, waking_keeps_controls,
};
use dc_calls::{Form, Outside, Sliced};
use dc_exec::{AheadEnd, Ran};
use dc_isa::Dispatcher;
use dc_kcb::Kcb;
use dc_ports::Port;
use dc_ready::ReadyList;
use dc_timers::{Clock, TimerQueue};
use std::marker::Model;

/// A kernel over a ready list, which tells its version, and a queue of timers. Contracts see the block that it drives, how far the block's time is ahead,
/// and the version.
#[derive(Drop)]
pub struct Kernel<R: ReadyList, T: TimerQueue> {
    form: Form<R, T>,
    clock: Clock,
}

impl<R: ReadyList, T: TimerQueue> Model for Kernel<R, T> {
    ghost use Rattle.dc_kernel.specs.Running.{Running};
    ghost use Rattle.dc_kernel.specs.Kernels.{IsKept};

    ghost Value = { Running };

    ghost view = { λ k. record { control = k.form; offset = k.clock; version = R.policy } };

    ghost invariant = { λ k. IsKept k.form k.clock };
}

/// A slice in which timers fired, and no dispatcher was ready.
fn empty(fired: u32) -> Sliced
    ensures { result ≡ record { disp = None; fired = fired; ran = 0; end = end.Empty; advance = 1 } }
{
    Sliced {
        disp: None,
        fired,
        ran: 0,
        end: End::Empty,
        advance: 1,
    }
}

/// The rights of an offered line are at most 7.
fn offers_are_within(outside: &Outside)
    ensures { OffersWithin outside.now }
{
    if let Outside::Line(line) = outside {
        let _ = line.offered();
    }
}

impl<R: ReadyList + Send + Sync, T: TimerQueue + Send + Sync> Driver for Kernel<R, T> {
    ghost use Rattle.dc_kernel.specs.Kernels.{is_version};

    ghost held = { λ k. k };

    ghost served = { λ v. is_version v R.policy };

    fn serves(v: Version) -> bool {
        v == R::version()
    }

    fn adopt(v: Version, kcb: Kcb, now: u64) -> Kernel<R, T> {
        let _ = v;
        let parts = kcb.take_apart();
        let clock = Clock::adopted(parts.time, now);
        Kernel {
            form: Form::of(parts),
            clock,
        }
    }

    fn surrender(self, now: u64) -> Kcb {
        let time = self.clock.time(now);
        Kcb::put_together(self.form.into_parts(time))
    }

    fn version(&self) -> Version {
        let _ = &self.form;
        R::version()
    }

    fn time(&self, now: u64) -> u64 {
        self.clock.time(now)
    }

    fn runnable(&self, now: u64) -> bool {
        self.form.can_run(self.clock.time(now))
    }

    fn earliest(&self) -> Option<i128> {
        let deadline = self.form.deadline()?;
        Some(deadline as i128 - self.clock.offset())
    }

    #[inline(never)]
    fn need(&self, now: u64, quantum: u32) -> Need {
        firing_keeps_controls();
        picked_is_ready();
        let time = self.clock.time(now);
        let Some(d) = self.form.pick_after(time) else {
            return Need::Nothing;
        };
        let end = self.form.end_ahead(d, time, quantum);
        self.form.need_after(d, &end)
    }

    fn begin(&mut self, now: u64, quantum: u32) -> Begun {
        firing_keeps_controls();
        picked_is_ready();
        aheads_keep_controls();
        let time = self.clock.time(now);
        let fired = self.form.fire(time);
        let Some(d) = self.form.pick() else {
            return Begun {
                disp: None,
                fired,
                plain: Ran {
                    ran: 0,
                    end: AheadEnd::Quantum,
                },
                need: Need::Nothing,
            };
        };
        let plain = self.form.run_plain(d, time, quantum);
        let need = self.form.need_after(d, &plain.end);
        Begun {
            disp: Some(d),
            fired,
            plain,
            need,
        }
    }

    fn finish(
        &mut self,
        now: u64,
        core: CoreNo,
        block: BlockNo,
        begun: &Begun,
        outside: &mut Outside,
    ) -> Sliced {
        firing_keeps_controls();
        picked_is_ready();
        aheads_keep_controls();
        slices_keep_controls();
        ready_stand_once();
        offers_are_within(outside);
        let Some(d) = begun.disp else {
            return empty(begun.fired);
        };
        let time = self.clock.time(now);
        self.form
            .end_slice(d, begun.fired, &begun.plain, time, core, block, outside)
    }

    fn intake(&mut self, s: SignalNo, l: Latch) -> Latched {
        latching_keeps_controls();
        self.form.latch(s, l)
    }

    fn wake(&mut self, d: DispNo) {
        waking_keeps_controls();
        self.form.wake_one(d);
    }

    fn disp(&self, d: DispNo) -> Option<Dispatcher> {
        self.form.disp(d)
    }

    fn disps(&self) -> u32 {
        self.form.disps()
    }

    fn ready(&self) -> ArrayVec<(DispNo, u64), 16> {
        self.form.ready()
    }

    fn timers(&self) -> ArrayVec<Timer, 64> {
        self.form.timers()
    }

    fn next_timer(&self) -> u32 {
        self.form.next_timer()
    }

    fn cap(&self, s: SlotNo) -> Option<Cap> {
        self.form.cap(s)
    }

    fn parent(&self, s: SlotNo) -> Option<SlotNo> {
        self.form.parent(s)
    }

    fn port(&self, p: PortNo) -> Option<&Port> {
        self.form.port(p)
    }

    fn ports(&self) -> u32 {
        self.form.ports()
    }

    fn signal(&self, s: SignalNo) -> Option<Latch> {
        self.form.latch_at(s)
    }

    fn signals(&self) -> u32 {
        self.form.signals()
    }

    fn word(&self, address: u32) -> Option<u32> {
        self.form.word(address)
    }
}
