//! A schedule that is played without its text.

ghost use Rattle.std.specs.Prelude.{◌≡◌, ◌+◌, ◌<◌, ◌^◌, true, length, if◌then◌else◌};
ghost use Rattle.dc_base.specs.declared.kernels.Version.TheVariants.{Rr, Edf};
ghost use Rattle.dc_base.specs.CoreRuns.{core_run_from};
ghost use Rattle.dc_base.specs.Sound.{IsSound};
ghost use Rattle.dc_base.specs.Valid.{IsValidSchedule};
ghost use Rattle.dc_machine.specs.Answers.{is_did};
ghost use Rattle.dc_objects.specs.States.{state_of};

use dc_kernel::Driver;
use dc_machine::{Objects, Stepped, step};
use dc_script::Schedule;
use dc_sound::sound_keeps;

/// How many actions made an entry, and how many made none.
#[derive(Clone, Copy)]
pub(crate) struct Counts {
    pub(crate) entries: u64,
    pub(crate) skipped: u64,
}

/// One action more.
fn with_one(counts: Counts, stepped: &Stepped) -> Counts
    requires entries { counts.entries < 2 ^ 63 }
    requires skipped { counts.skipped < 2 ^ 63 }
    ensures { result ≡ (if is_did stepped.now then record counts { entries = counts.entries + 1 } else record counts { skipped = counts.skipped + 1 }) }
{
    match stepped {
        Stepped::Did(_) => Counts {
            entries: counts.entries + 1,
            skipped: counts.skipped,
        },
        _ => Counts {
            entries: counts.entries,
            skipped: counts.skipped + 1,
        },
    }
}

/// Makes the actions of a schedule, and counts them.
pub(crate) fn count_actions<D: Driver>(objects: &mut Objects<D>, schedule: &Schedule) -> Counts
    requires sound { IsSound (state_of objects.old) }
    requires schedule { IsValidSchedule (state_of objects.old).script.settings schedule.now }
    requires first { D.served Rr ≡ true }
    requires second { D.served Edf ≡ true }
    ensures sound { IsSound (state_of objects.new) }
    ensures state { state_of objects.new ≡ (core_run_from (state_of objects.old) schedule.now).state }
    ensures entries { result.entries ≡ length (core_run_from (state_of objects.old) schedule.now).journal }
    ensures skipped { result.skipped ≡ (core_run_from (state_of objects.old) schedule.now).skipped }
{
    sound_keeps();
    let mut polls = 0;
    let mut counts = Counts {
        entries: 0,
        skipped: 0,
    };
    for i in 0..schedule.len() {
        let (who, action) = schedule.row(i);
        let stepped = step(objects, &mut polls, who, &action);
        counts = with_one(counts, &stepped);
    }
    counts
}
