ghost use Rattle.std.specs.Prelude.{◌≡◌, map};
ghost use Rattle.dc_base.specs.KeptByBlocks.{HasShape};
ghost use Rattle.dc_report.specs.Remaining.{part_lines};
ghost use Rattle.dc_report.specs.Told.{Tells};
ghost use Rattle.dc_report.specs.declared.places.Part.TheVariants.{Disp as DispPart, Ready as ReadyPart};

use crate::places::Part;
use arrayvec::ArrayVec;
use dc_base::numbers::{BlockNo, DispNo};
use dc_base::reports::ReportLine;
use dc_kernel::Driver;
use dc_objects::BlockState;

/// The first line of block `b` from dispatcher `d` on, and the part after it.
pub(crate) fn disp<D: Driver>(b: u32, block: &BlockState<D>, d: u32) -> Option<(ReportLine, Part)>
    requires { HasShape block.now.control }
    ensures { Tells (part_lines b block.now) (part_lines b block.now (DispPart d)) result }
{
    match block.disp(DispNo(d)) {
        Some(disp) => {
            let line = ReportLine::Disp {
                block: BlockNo(b),
                disp: DispNo(d),
                state: disp.state,
                place: disp.place,
                due: disp.due,
            };
            Some((line, Part::Disp(d + 1)))
        }
        None => ready(b, block),
    }
}

/// The line of the ready list of block `b`, and the part after it.
pub(crate) fn ready<D: Driver>(b: u32, block: &BlockState<D>) -> Option<(ReportLine, Part)>
    ensures { Tells (part_lines b block.now) (part_lines b block.now ReadyPart) result }
{
    let line = ReportLine::Ready {
        block: BlockNo(b),
        list: ready_list(block),
    };
    Some((line, Part::Cap(0)))
}

/// The ready dispatchers in order of arrival.
fn ready_list<D: Driver>(block: &BlockState<D>) -> ArrayVec<DispNo, 16>
    ensures { result.items ≡ map (λ d. record { 0 = d }) block.now.control.ready }
{
    let entries = block.ready();
    let mut list = ArrayVec::new();
    for entry in entries.as_slice() {
        list.push(entry.0);
    }
    list
}
