ghost use Rattle.std.specs.Prelude.{◌≡◌, slice_get, Some};
ghost use Rattle.dc_base.specs.Sound.{IsSound};
ghost use Rattle.dc_objects.specs.States.{state_of};
ghost use Rattle.dc_report.specs.Remaining.{wire_line, rest_from};
ghost use Rattle.dc_report.specs.Told.{Tells};
ghost use Rattle.dc_report.specs.declared.places.Place.TheVariants.{Line as LinePlace, Offer as OfferPlace};

use crate::latches::latches;
use crate::outputs::output;
use crate::places::Place;
use dc_base::numbers::LineNo;
use dc_base::reports::ReportLine;
use dc_kernel::Driver;
use dc_lines::Line;
use dc_objects::Objects;

/// The first line from that of interrupt line `l` on, and the place after it.
pub(crate) fn line<D: Driver>(objects: &Objects<D>, l: u32) -> Option<(ReportLine, Place)>
    requires { IsSound (state_of objects.now) }
    ensures { Tells (rest_from (state_of objects.now)) (rest_from (state_of objects.now) (LinePlace l)) result }
{
    match objects.lines.get(l as usize) {
        Some(line) => Some((wire_line(objects, l, line), Place::Offer(l))),
        None => output(objects, 0, 0),
    }
}

/// The first line from the offer of interrupt line `l` on, and the place after it.
pub(crate) fn offer<D: Driver>(objects: &Objects<D>, l: u32) -> Option<(ReportLine, Place)>
    requires { IsSound (state_of objects.now) }
    ensures { Tells (rest_from (state_of objects.now)) (rest_from (state_of objects.now) (OfferPlace l)) result }
{
    let Some(there) = objects.lines.get(l as usize) else {
        return output(objects, 0, 0);
    };
    match there.offered() {
        Some((channel, rights)) => {
            let told = ReportLine::Offer {
                line: LineNo(l),
                channel,
                rights,
            };
            Some((told, Place::Line(l + 1)))
        }
        None => line(objects, l + 1),
    }
}

fn wire_line<D: Driver>(objects: &Objects<D>, l: u32, line: &Line) -> ReportLine
    requires sound { IsSound (state_of objects.now) }
    requires there { slice_get (state_of objects.now).lines l ≡ Some line.now }
    ensures { result ≡ wire_line (state_of objects.now).blocks l line.now }
{
    let counts = line.counts();
    let latched = latches(objects, l);
    ReportLine::Line {
        line: LineNo(l),
        bound: line.bound(),
        route: line.routed(),
        raised: counts.raised,
        stray: counts.stray,
        pending: u32::from(line.pending().is_some()),
        merged: counts.merged,
        latched,
        joined: counts.joined,
        delivered: counts.given - latched,
    }
}
