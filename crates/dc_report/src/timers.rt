ghost use Rattle.dc_base.specs.KeptByBlocks.{HasPorts, HasShape};
ghost use Rattle.dc_report.specs.Remaining.{part_lines};
ghost use Rattle.dc_report.specs.Told.{Tells};
ghost use Rattle.dc_report.specs.declared.places.Part.TheVariants.{Timer as TimerPart};

use crate::messages::message;
use crate::places::Part;
use dc_base::numbers::BlockNo;
use dc_base::reports::ReportLine;
use dc_kernel::Driver;
use dc_objects::BlockState;

/// The first line of block `b` from place `i` of the timers in their order on, and the part after it.
pub(crate) fn timer<D: Driver>(b: u32, block: &BlockState<D>, i: u32) -> Option<(ReportLine, Part)>
    requires shape { HasShape block.now.control }
    requires ports { HasPorts block.now.control }
    ensures { Tells (part_lines b block.now) (part_lines b block.now (TimerPart i)) result }
{
    let timers = block.timers();
    match timers.get(i as usize) {
        Some(timer) => {
            let line = ReportLine::Timer {
                block: BlockNo(b),
                timer: *timer,
            };
            Some((line, Part::Timer(i + 1)))
        }
        None => message(b, block, 0, 0),
    }
}
