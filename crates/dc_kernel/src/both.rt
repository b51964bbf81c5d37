//! A kernel that is one of two.

ghost use Rattle.std.specs.Prelude.{◌||◌};

use crate::drivers::{Begun, Driver};
use arrayvec::ArrayVec;
use dc_base::calls::Need;
use dc_base::capabilities::Cap;
use dc_base::interrupts::{Latch, Latched, Timer};
use dc_base::kernels::Version;
use dc_base::numbers::{BlockNo, CoreNo, DispNo, PortNo, SignalNo, SlotNo};
use dc_calls::{Outside, Sliced};
use dc_isa::Dispatcher;
use dc_kcb::Kcb;
use dc_ports::Port;

/// A kernel that is one of two. It serves what either of them serves.
#[derive(Drop)]
pub enum Both<A, B> {
    First(A),
    Second(B),
}

impl<A: Driver, B: Driver> Driver for Both<A, B> {
    ghost use Rattle.dc_kernel.specs.Sides.{by_side};

    ghost held = { by_side A.held B.held };

    ghost served = { λ v. A.served v || B.served v };

    fn serves(v: Version) -> bool {
        A::serves(v) || B::serves(v)
    }

    fn adopt(v: Version, kcb: Kcb, now: u64) -> Both<A, B> {
        if A::serves(v) {
            Both::First(A::adopt(v, kcb, now))
        } else {
            Both::Second(B::adopt(v, kcb, now))
        }
    }

    fn surrender(self, now: u64) -> Kcb {
        match self {
            Both::First(a) => a.surrender(now),
            Both::Second(b) => b.surrender(now),
        }
    }

    fn version(&self) -> Version {
        match self {
            Both::First(a) => a.version(),
            Both::Second(b) => b.version(),
        }
    }

    fn time(&self, now: u64) -> u64 {
        match self {
            Both::First(a) => a.time(now),
            Both::Second(b) => b.time(now),
        }
    }

    fn runnable(&self, now: u64) -> bool {
        match self {
            Both::First(a) => a.runnable(now),
            Both::Second(b) => b.runnable(now),
        }
    }

    fn earliest(&self) -> Option<i128> {
        match self {
            Both::First(a) => a.earliest(),
            Both::Second(b) => b.earliest(),
        }
    }

    fn need(&self, now: u64, quantum: u32) -> Need {
        match self {
            Both::First(a) => a.need(now, quantum),
            Both::Second(b) => b.need(now, quantum),
        }
    }

    fn begin(&mut self, now: u64, quantum: u32) -> Begun {
        match self {
            Both::First(a) => a.begin(now, quantum),
            Both::Second(b) => b.begin(now, quantum),
        }
    }

    fn finish(
        &mut self,
        now: u64,
        core: CoreNo,
        block: BlockNo,
        begun: &Begun,
        outside: &mut Outside,
    ) -> Sliced {
        match self {
            Both::First(a) => a.finish(now, core, block, begun, outside),
            Both::Second(b) => b.finish(now, core, block, begun, outside),
        }
    }

    fn intake(&mut self, s: SignalNo, l: Latch) -> Latched {
        match self {
            Both::First(a) => a.intake(s, l),
            Both::Second(b) => b.intake(s, l),
        }
    }

    fn wake(&mut self, d: DispNo) {
        match self {
            Both::First(a) => a.wake(d),
            Both::Second(b) => b.wake(d),
        }
    }

    fn disp(&self, d: DispNo) -> Option<Dispatcher> {
        match self {
            Both::First(a) => a.disp(d),
            Both::Second(b) => b.disp(d),
        }
    }

    fn disps(&self) -> u32 {
        match self {
            Both::First(a) => a.disps(),
            Both::Second(b) => b.disps(),
        }
    }

    fn ready(&self) -> ArrayVec<(DispNo, u64), 16> {
        match self {
            Both::First(a) => a.ready(),
            Both::Second(b) => b.ready(),
        }
    }

    fn timers(&self) -> ArrayVec<Timer, 64> {
        match self {
            Both::First(a) => a.timers(),
            Both::Second(b) => b.timers(),
        }
    }

    fn next_timer(&self) -> u32 {
        match self {
            Both::First(a) => a.next_timer(),
            Both::Second(b) => b.next_timer(),
        }
    }

    fn cap(&self, s: SlotNo) -> Option<Cap> {
        match self {
            Both::First(a) => a.cap(s),
            Both::Second(b) => b.cap(s),
        }
    }

    fn parent(&self, s: SlotNo) -> Option<SlotNo> {
        match self {
            Both::First(a) => a.parent(s),
            Both::Second(b) => b.parent(s),
        }
    }

    fn port(&self, p: PortNo) -> Option<&Port> {
        match self {
            Both::First(a) => a.port(p),
            Both::Second(b) => b.port(p),
        }
    }

    fn ports(&self) -> u32 {
        match self {
            Both::First(a) => a.ports(),
            Both::Second(b) => b.ports(),
        }
    }

    fn signal(&self, s: SignalNo) -> Option<Latch> {
        match self {
            Both::First(a) => a.signal(s),
            Both::Second(b) => b.signal(s),
        }
    }

    fn signals(&self) -> u32 {
        match self {
            Both::First(a) => a.signals(),
            Both::Second(b) => b.signals(),
        }
    }

    fn word(&self, address: u32) -> Option<u32> {
        match self {
            Both::First(a) => a.word(address),
            Both::Second(b) => b.word(address),
        }
    }
}
