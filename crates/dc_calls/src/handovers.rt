//! A block comes under a kernel, and goes out from under it.

ghost use Rattle.std.specs.Prelude.{◌≡◌};
ghost use Rattle.dc_block_sound.specs.SoundControls.{IsSoundControl};
ghost use Rattle.dc_kcb.specs.Wholes.{resting_of, AreWhole};

use crate::agendas::Agenda;
use crate::forms::Form;
use dc_block_sound::ready_stand_once;
use dc_kcb::Parts;
use dc_ready::ReadyList;
use dc_timers::TimerQueue;

impl<R: ReadyList, T: TimerQueue> Form<R, T> {
    /// The block that these are the parts of.
    pub fn of(parts: Parts) -> Form<R, T>
        requires { AreWhole parts }
        ensures { result ≡ (resting_of parts).control }
    {
        ready_stand_once();
        Form {
            memory: parts.memory,
            code: parts.code,
            table: parts.table,
            ports: parts.ports,
            agenda: Agenda {
                ready: R::restore(&parts.ready),
                timers: T::restore(parts.next_timer, &parts.timers),
                disps: parts.disps,
                signals: parts.signals,
            },
        }
    }

    /// The parts of the block, with its time.
    pub fn into_parts(self, time: u64) -> Parts
        requires { IsSoundControl self }
        ensures block { resting_of result ≡ record { control = self; kept = time } }
        ensures whole { AreWhole result }
    {
        let Form {
            memory,
            code,
            table,
            ports,
            agenda,
        } = self;
        let Agenda {
            disps,
            signals,
            ready,
            timers,
        } = agenda;
        Parts {
            memory,
            code,
            table,
            disps,
            ready: ready.to_list(),
            timers: timers.to_list(),
            next_timer: timers.next(),
            ports,
            signals,
            time,
        }
    }
}
