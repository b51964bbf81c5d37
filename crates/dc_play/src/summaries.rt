//! The summary of a play.

ghost use Rattle.std.specs.Prelude.{◌≡◌, true, IfOk};
ghost use Rattle.dc_base.specs.declared.kernels.Version.TheVariants.{Rr, Edf};
ghost use Rattle.dc_base.specs.CoreRuns.{core_run};
ghost use Rattle.dc_base.specs.States.{settings_of};
ghost use Rattle.dc_base.specs.Valid.{IsValid, IsValidScript, IsValidSchedule};
ghost use Rattle.dc_play.specs.Summaries.{IsSummaryOf};

use crate::counting::count_actions;
use crate::totals::{sum_of, words_on};
use dc_base::images::Image;
use dc_base::memory::Memory;
use dc_kernel::Driver;
use dc_machine::objects;
use dc_script::{Schedule, Script};
use dc_sound::the_start_is_sound;
use std::alloc::Global;

/// What a run came to: the entries of its journal, the actions that made none, the words that its blocks put out, and the sum of these words modulo 2^32.
#[derive(Clone, Copy, Debug, PartialEq, Eq)]
pub struct Summary {
    pub entries: u64,
    pub skipped: u64,
    pub outputs: u64,
    pub sum: u32,
}

/// Plays a schedule on the machine of an image and a script from its start, and sums up the run.
pub fn play_summary<D: Driver>(
    alloc: Global,
    image: &Image,
    script: &Script,
    schedule: &Schedule,
) -> Result<Summary, Memory>
    requires image { IsValid image.now }
    requires script { IsValidScript (settings_of image.now) script.now }
    requires schedule { IsValidSchedule (settings_of image.now) schedule.now }
    requires first { D.served Rr ≡ true }
    requires second { D.served Edf ≡ true }
    ensures { IfOk result (IsSummaryOf (core_run image.now script.now schedule.now)) }
{
    the_start_is_sound();
    let mut objects = objects::<D>(alloc, image, script)?;
    let counts = count_actions(&mut objects, schedule);
    let consoles = objects.consoles.as_slice();
    Ok(Summary {
        entries: counts.entries,
        skipped: counts.skipped,
        outputs: words_on(consoles),
        sum: sum_of(consoles),
    })
}
