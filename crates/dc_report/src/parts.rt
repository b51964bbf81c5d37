ghost use Rattle.dc_base.specs.KeptByBlocks.{HasPorts, HasShape, HasCaps};
ghost use Rattle.dc_report.specs.Remaining.{part_lines};
ghost use Rattle.dc_report.specs.Told.{Tells};

use crate::caps::cap;
use crate::disps::{disp, ready};
use crate::messages::message;
use crate::places::Part;
use crate::signals::signal;
use crate::timers::timer;
use dc_base::reports::ReportLine;
use dc_kernel::Driver;
use dc_objects::BlockState;

/// The first line of block `b` from a part on, and the part after it. None where no line is left.
pub(crate) fn tell_part<D: Driver>(
    b: u32,
    block: &BlockState<D>,
    part: Part,
) -> Option<(ReportLine, Part)>
    requires shape { HasShape block.now.control }
    requires ports { HasPorts block.now.control }
    requires caps { HasCaps block.now.control }
    ensures { Tells (part_lines b block.now) (part_lines b block.now part) result }
{
    match part {
        Part::Disp(d) => disp(b, block, d),
        Part::Ready => ready(b, block),
        Part::Cap(s) => cap(b, block, s),
        Part::Timer(i) => timer(b, block, i),
        Part::PortMessage(p, i) => message(b, block, p, i),
        Part::Signal(s) => signal(b, block, s),
    }
}
