ghost use Rattle.std.specs.Prelude.{◌≡◌, slice_get};
ghost use Rattle.std.specs.Option.{option_map};
ghost use Rattle.dc_base.specs.States.{Core as CoreSeen};
ghost use Rattle.dc_base.specs.Report.{core_line as line_of};
ghost use Rattle.dc_base.specs.Sound.{IsSound};
ghost use Rattle.dc_base.specs.declared.kernels.Version.{Version as VersionSeen};
ghost use Rattle.dc_objects.specs.States.{state_of};
ghost use Rattle.dc_report.specs.Remaining.{rest_from};
ghost use Rattle.dc_report.specs.Told.{Tells};
ghost use Rattle.dc_report.specs.declared.places.Place.TheVariants.{Core as CorePlace};

use crate::blocks::block;
use crate::places::Place;
use dc_base::numbers::CoreNo;
use dc_base::reports::ReportLine;
use dc_kernel::Driver;
use dc_objects::{CoreState, Objects};

/// The first line from that of core `c` on, and the place after it.
pub(crate) fn core<D: Driver>(objects: &Objects<D>, c: u32) -> Option<(ReportLine, Place)>
    requires { IsSound (state_of objects.now) }
    ensures { Tells (rest_from (state_of objects.now)) (rest_from (state_of objects.now) (CorePlace c)) result }
{
    match objects.cores.get(c as usize) {
        Some(core) => Some((core_line(c, core), Place::Core(c + 1))),
        None => block(objects, 0),
    }
}

fn core_line(c: u32, core: &CoreState) -> ReportLine
    ensures { result ≡ line_of c core.now core.now.version }
{
    match core.version() {
        Some(version) => ReportLine::CoreOn {
            core: CoreNo(c),
            version,
            clock: core.clock(),
            home: core.share().home(),
            share: core.share().blocks(),
            used: core.used(),
        },
        None => ReportLine::CoreOff {
            core: CoreNo(c),
            clock: core.clock(),
            used: core.used(),
        },
    }
}
