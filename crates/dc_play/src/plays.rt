//! The text of a play.

ghost use Rattle.std.specs.Prelude.{◌≡◌, ◌≢◌, ◌≤◌, true, Err, OnErr};
ghost use Rattle.dc_base.specs.declared.kernels.Version.TheVariants.{Rr, Edf};
ghost use Rattle.dc_base.specs.CoreRuns.{core_run_from};
ghost use Rattle.dc_base.specs.PlayText.{played_text, play_text};
ghost use Rattle.dc_base.specs.Sound.{IsSound};
ghost use Rattle.dc_base.specs.States.{settings_of};
ghost use Rattle.dc_base.specs.Valid.{IsValid, IsValidScript, IsValidSchedule};
ghost use Rattle.dc_io.specs.Counts.{Rose};
ghost use Rattle.dc_io.specs.declared.sinks.Ended.TheVariants as ended;
ghost use Rattle.dc_objects.specs.States.{state_of};
ghost use Rattle.dc_play.specs.Plays.{Plays};
ghost use Rattle.dc_play.specs.Written.{Writes};

use crate::counting::count_actions;
use crate::ends::write_end;
use crate::reporting::write_report;
use crate::schedules::play_schedule;
use dc_base::images::Image;
use dc_io::{Ended, Failed, Sink};
use dc_kernel::Driver;
use dc_machine::{Objects, objects};
use dc_script::{Schedule, Script};
use dc_sound::the_start_is_sound;
use std::alloc::Global;

/// Plays a schedule from the state of a machine, and writes the journal, the report and the end.
fn write_run<D: Driver, S: Sink>(
    machine: &mut Objects<D>,
    schedule: &Schedule,
    sink: &mut S,
) -> Result<(), Failed>
    requires sound { IsSound (state_of machine.old) }
    requires schedule { IsValidSchedule (state_of machine.old).script.settings schedule.now }
    requires first { D.served Rr ≡ true }
    requires second { D.served Edf ≡ true }
    ensures writes { Writes (S.told sink.old) (S.told sink.new) (played_text (core_run_from (state_of machine.old) schedule.now)) result }
    ensures failed { OnErr result (Rose (S.faults sink.old) (S.faults sink.new)) }
    ensures grows { S.faults sink.old ≤ S.faults sink.new }
{
    let skipped = play_schedule(machine, schedule, sink)?;
    write_report(machine, sink)?;
    write_end(skipped, sink)
}

/// Plays a schedule on objects of a sound state, as an opening is, and writes the journal and the report, one line a piece. It takes no memory.
pub fn play_on<D: Driver, S: Sink>(
    objects: Objects<D>,
    schedule: &Schedule,
    sink: &mut S,
) -> Result<(), Ended>
    requires sound { IsSound (state_of objects) }
    requires schedule { IsValidSchedule (state_of objects).script.settings schedule.now }
    requires first { D.served Rr ≡ true }
    requires second { D.served Edf ≡ true }
    ensures plays { Plays (S.faults sink.old) (S.faults sink.new) (S.told sink.old) (S.told sink.new)
        (played_text (core_run_from (state_of objects) schedule.now)) result }
    ensures memory { result ≢ Err ended.Memory }
    ensures grows { S.faults sink.old ≤ S.faults sink.new }
{
    let mut objects = objects;
    match write_run(&mut objects, schedule, sink) {
        Ok(()) => Ok(()),
        Err(_) => Err(Ended::Sink),
    }
}

/// Plays a schedule and writes nothing. The objects are then those of the run's last state.
pub fn play_out<D: Driver>(objects: &mut Objects<D>, schedule: &Schedule)
    requires sound { IsSound (state_of objects.old) }
    requires schedule { IsValidSchedule (state_of objects.old).script.settings schedule.now }
    requires first { D.served Rr ≡ true }
    requires second { D.served Edf ≡ true }
    ensures state { state_of objects.new ≡ (core_run_from (state_of objects.old) schedule.now).state }
    ensures sound { IsSound (state_of objects.new) }
{
    count_actions(objects, schedule);
}

/// Plays a schedule on the machine of an image and a script from its start, and writes the journal and the report, one line a piece. Memory is taken before
/// the first line alone.
pub fn play<D: Driver, S: Sink>(
    alloc: Global,
    image: &Image,
    script: &Script,
    schedule: &Schedule,
    sink: &mut S,
) -> Result<(), Ended>
    requires image { IsValid image.now }
    requires script { IsValidScript (settings_of image.now) script.now }
    requires schedule { IsValidSchedule (settings_of image.now) schedule.now }
    requires first { D.served Rr ≡ true }
    requires second { D.served Edf ≡ true }
    ensures plays { Plays (S.faults sink.old) (S.faults sink.new) (S.told sink.old) (S.told sink.new) (play_text image.now script.now schedule.now) result }
    ensures grows { S.faults sink.old ≤ S.faults sink.new }
{
    the_start_is_sound();
    let Ok(machine) = objects::<D>(alloc, image, script) else {
        return Err(Ended::Memory);
    };
    play_on(machine, schedule, sink)
}
