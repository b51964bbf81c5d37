ghost use Rattle.std.specs.Prelude.{◌≡◌, ℕ, slice_get, Some};
ghost use Rattle.std.specs.Option.{option_map};
ghost use Rattle.dc_base.specs.Sound.{IsSound};
ghost use Rattle.dc_base.specs.declared.numbers.CoreNo.{CoreNo as Number};
ghost use Rattle.dc_objects.specs.States.{state_of};
ghost use Rattle.dc_report.specs.Remaining.{head_line as line_of, rest_from};
ghost use Rattle.dc_report.specs.Clocks.{clock_on};
ghost use Rattle.dc_report.specs.Told.{Tells};
ghost use Rattle.dc_report.specs.declared.places.Place.TheVariants.{Block as BlockPlace, Within as PartPlace};

use crate::channels::channel;
use crate::parts::tell_part;
use crate::places::{Part, Place};
use dc_base::numbers::{BlockNo, CoreNo};
use dc_base::reports::ReportLine;
use dc_kernel::Driver;
use dc_objects::{BlockState, Objects};

/// The first line from the first of block `b` on, and the place after it.
pub(crate) fn block<D: Driver>(objects: &Objects<D>, b: u32) -> Option<(ReportLine, Place)>
    requires { IsSound (state_of objects.now) }
    ensures { Tells (rest_from (state_of objects.now)) (rest_from (state_of objects.now) (BlockPlace b)) result }
{
    match objects.blocks.get(b as usize) {
        Some(block) => Some((
            head_line(objects, b, block),
            Place::Within(b, Part::Disp(0)),
        )),
        None => channel(objects, 0),
    }
}

/// The first line from a part of block `b` on, and the place after it.
pub(crate) fn within<D: Driver>(
    objects: &Objects<D>,
    b: u32,
    part: Part,
) -> Option<(ReportLine, Place)>
    requires { IsSound (state_of objects.now) }
    ensures { Tells (rest_from (state_of objects.now)) (rest_from (state_of objects.now) (PartPlace b part)) result }
{
    let Some(inside) = objects.blocks.get(b as usize) else {
        return channel(objects, 0);
    };
    match tell_part(b, inside, part) {
        Some((line, next)) => Some((line, Place::Within(b, next))),
        None => block(objects, b + 1),
    }
}

fn head_line<D: Driver>(objects: &Objects<D>, b: u32, block: &BlockState<D>) -> ReportLine
    requires sound { IsSound (state_of objects.now) }
    requires there { slice_get (state_of objects.now).blocks b ≡ Some block.now }
    ensures { result ≡ line_of (state_of objects.now).cores b block.now }
{
    let core = block.core();
    let clock = clock_on(objects, core);
    ReportLine::Block {
        block: BlockNo(b),
        core,
        time: block.time(clock),
        armed: block.timers().len() as u32,
    }
}

/// The clock of a core, or 0 without one.
fn clock_on<D: Driver>(objects: &Objects<D>, core: Option<CoreNo>) -> u64
    ensures { result ≡ clock_on (state_of objects.now).cores (option_map (λ (c : Number). c.0) core) }
{
    let Some(c) = core else {
        return 0;
    };
    match objects.cores.get(c.0 as usize) {
        Some(core) => core.clock(),
        None => 0,
    }
}
