ghost use Rattle.std.specs.Prelude.{◌≡◌, slice_get};
ghost use Rattle.dc_base.specs.KeptByBlocks.{HasPorts, HasShape};
ghost use Rattle.dc_base.specs.Words.{elements};
ghost use Rattle.dc_report.specs.Remaining.{part_lines};
ghost use Rattle.dc_report.specs.Told.{Tells};
ghost use Rattle.dc_report.specs.declared.places.Part.TheVariants.{PortMessage as MessagePart};

use crate::places::Part;
use crate::signals::signal;
use dc_base::messages::Message;
use dc_base::numbers::{BlockNo, PortNo};
use dc_base::reports::ReportLine;
use dc_kernel::Driver;
use dc_objects::BlockState;

/// The most ports that a block has.
const PORTS: u32 = 16;

/// The first line of block `b` from the message at place `i` of port `p` on, and the part after it.
pub(crate) fn message<D: Driver>(
    b: u32,
    block: &BlockState<D>,
    p: u32,
    i: u32,
) -> Option<(ReportLine, Part)>
    requires shape { HasShape block.now.control }
    requires ports { HasPorts block.now.control }
    ensures { Tells (part_lines b block.now) (part_lines b block.now (MessagePart p i)) result }
{
    let mut at = i;
    for port in p..PORTS {
        if let Some(message) = message_at(block, PortNo(port), at) {
            let line = ReportLine::PortMessage {
                block: BlockNo(b),
                port: PortNo(port),
                message,
            };
            return Some((line, Part::PortMessage(port, at + 1)));
        }
        at = 0;
    }
    signal(b, block, 0)
}

/// The message at a place of a port.
fn message_at<D: Driver>(block: &BlockState<D>, port: PortNo, at: u32) -> Option<Message>
    ensures { result ≡ slice_get (elements (slice_get block.now.control.parts.ports port.0)) at }
{
    match block.port(port) {
        Some(port) => port.at(at),
        None => None,
    }
}
