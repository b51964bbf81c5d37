ghost use Rattle.std.specs.Prelude.{◌≡◌, ◌∷◌, [], IfSome, IfNone};
ghost use Rattle.dc_base.specs.Report.{report_lines};
ghost use Rattle.dc_base.specs.Sound.{IsSound};
ghost use Rattle.dc_base.specs.States.{State};
ghost use Rattle.dc_objects.specs.States.{state_of};
ghost use Rattle.dc_report.specs.Remaining.{rest, rest_from};
ghost use Rattle.dc_report.specs.Told.{Tells};

use crate::blocks::{block, within};
use crate::channels::{channel, untaken};
use crate::cores::core;
use crate::lines::{line, offer};
use crate::outputs::output;
use crate::places::Place;
use dc_base::reports::ReportLine;
use dc_kernel::Driver;
use dc_objects::Objects;

/// How far the report of a machine has come.
#[derive(Debug, Drop)]
pub struct Report {
    place: Place,
}

impl Report {
    /// Nothing is told yet.
    pub fn start() -> Report
        ensures { (s : State) → rest result s ≡ report_lines s }
    {
        Report {
            place: Place::Core(0),
        }
    }

    /// The next line of the report. None after the last.
    pub fn next<D: Driver>(&mut self, objects: &Objects<D>) -> Option<ReportLine>
        requires { IsSound (state_of objects.now) }
        ensures told { IfSome result (λ l. rest self.old (state_of objects.now) ≡ l ∷ rest self.new (state_of objects.now)) }
        ensures end { IfNone result (rest self.old (state_of objects.now) ≡ []) }
        ensures kept { IfNone result (self.new ≡ self.old) }
    {
        match tell(objects, self.place) {
            Some((line, next)) => {
                self.place = next;
                Some(line)
            }
            None => None,
        }
    }
}

/// The line at a place, and the place after it.
fn tell<D: Driver>(objects: &Objects<D>, at: Place) -> Option<(ReportLine, Place)>
    requires { IsSound (state_of objects.now) }
    ensures { Tells (rest_from (state_of objects.now)) (rest_from (state_of objects.now) at) result }
{
    match at {
        Place::Core(c) => core(objects, c),
        Place::Block(b) => block(objects, b),
        Place::Within(b, part) => within(objects, b, part),
        Place::Channel(x) => channel(objects, x),
        Place::ChannelMessage(x, i) => untaken(objects, x, i),
        Place::Line(l) => line(objects, l),
        Place::Offer(l) => offer(objects, l),
        Place::Out(b, i) => output(objects, b, i),
    }
}
