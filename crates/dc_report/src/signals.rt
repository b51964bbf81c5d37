ghost use Rattle.dc_base.specs.KeptByBlocks.{HasShape};
ghost use Rattle.dc_report.specs.Remaining.{part_lines};
ghost use Rattle.dc_report.specs.Told.{Tells};
ghost use Rattle.dc_report.specs.declared.places.Part.TheVariants.{Signal as SignalPart};

use crate::places::Part;
use dc_base::numbers::{BlockNo, SignalNo};
use dc_base::reports::ReportLine;
use dc_kernel::Driver;
use dc_objects::BlockState;

/// The most signals that a block has.
const SIGNALS: u32 = 16;

/// The first line of block `b` from signal `s` on, and the part after it. None where none of them holds a latch.
pub(crate) fn signal<D: Driver>(b: u32, block: &BlockState<D>, s: u32) -> Option<(ReportLine, Part)>
    requires { HasShape block.now.control }
    ensures { Tells (part_lines b block.now) (part_lines b block.now (SignalPart s)) result }
{
    for signal in s..SIGNALS {
        if let Some(latch) = block.signal(SignalNo(signal)) {
            let line = ReportLine::Signal {
                block: BlockNo(b),
                signal: SignalNo(signal),
                latch,
            };
            return Some((line, Part::Signal(signal + 1)));
        }
    }
    None
}
