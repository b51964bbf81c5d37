ghost use Rattle.std.specs.Prelude.{◌≡◌};
ghost use Rattle.std.specs.Option.{option_map};
ghost use Rattle.dc_base.specs.Capabilities.{seat_at};
ghost use Rattle.dc_base.specs.KeptByBlocks.{HasPorts, HasShape, HasCaps};
ghost use Rattle.dc_base.specs.Report.{cap_line as line_of};
ghost use Rattle.dc_report.specs.Remaining.{part_lines};
ghost use Rattle.dc_report.specs.Told.{Tells};
ghost use Rattle.dc_report.specs.declared.places.Part.TheVariants.{Cap as CapPart};

use crate::places::Part;
use crate::timers::timer;
use dc_base::numbers::{BlockNo, SlotNo};
use dc_base::reports::ReportLine;
use dc_kernel::Driver;
use dc_objects::BlockState;

/// The most slots that a block has.
const SLOTS: u32 = 256;

/// The first line of block `b` from slot `s` on, and the part after it.
pub(crate) fn cap<D: Driver>(b: u32, block: &BlockState<D>, s: u32) -> Option<(ReportLine, Part)>
    requires shape { HasShape block.now.control }
    requires ports { HasPorts block.now.control }
    requires caps { HasCaps block.now.control }
    ensures { Tells (part_lines b block.now) (part_lines b block.now (CapPart s)) result }
{
    for slot in s..SLOTS {
        if let Some(line) = cap_line(b, block, SlotNo(slot)) {
            return Some((line, Part::Cap(slot + 1)));
        }
    }
    timer(b, block, 0)
}

/// The line of a slot, if it is used.
fn cap_line<D: Driver>(b: u32, block: &BlockState<D>, slot: SlotNo) -> Option<ReportLine>
    ensures { result ≡ option_map (line_of b) (seat_at block.now.control.parts.caps slot.0) }
{
    let cap = block.cap(slot)?;
    Some(ReportLine::Cap {
        block: BlockNo(b),
        slot,
        cap,
        parent: block.parent(slot),
    })
}
