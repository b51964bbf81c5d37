ghost use Rattle.dc_base.specs.Sound.{IsSound};
ghost use Rattle.dc_objects.specs.States.{state_of};
ghost use Rattle.dc_report.specs.Remaining.{rest_from};
ghost use Rattle.dc_report.specs.Told.{Tells};
ghost use Rattle.dc_report.specs.declared.places.Place.TheVariants.{Channel as ChannelPlace, ChannelMessage as MessagePlace};

use crate::lines::line;
use crate::places::Place;
use dc_base::numbers::ChanNo;
use dc_base::reports::ReportLine;
use dc_kernel::Driver;
use dc_objects::Objects;

/// The first line from the first of channel `x` on, and the place after it.
pub(crate) fn channel<D: Driver>(objects: &Objects<D>, x: u32) -> Option<(ReportLine, Place)>
    requires { IsSound (state_of objects.now) }
    ensures { Tells (rest_from (state_of objects.now)) (rest_from (state_of objects.now) (ChannelPlace x)) result }
{
    let Some(channel) = objects.channels.get(x as usize) else {
        return line(objects, 0);
    };
    let head = ReportLine::Channel {
        channel: ChanNo(x),
        sent: channel.sent(),
        taken: channel.taken(),
    };
    Some((head, Place::ChannelMessage(x, 0)))
}

/// The first line from the message at place `i` of channel `x` on, and the place after it.
pub(crate) fn untaken<D: Driver>(
    objects: &Objects<D>,
    x: u32,
    i: u32,
) -> Option<(ReportLine, Place)>
    requires { IsSound (state_of objects.now) }
    ensures { Tells (rest_from (state_of objects.now)) (rest_from (state_of objects.now) (MessagePlace x i)) result }
{
    let Some(there) = objects.channels.get(x as usize) else {
        return line(objects, 0);
    };
    match there.at(i) {
        Some(message) => {
            let line = ReportLine::ChannelMessage {
                channel: ChanNo(x),
                message,
            };
            Some((line, Place::ChannelMessage(x, i + 1)))
        }
        None => channel(objects, x + 1),
    }
}
