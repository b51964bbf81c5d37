ghost use Rattle.std.specs.Prelude.{◌≡◌, slice_get};
ghost use Rattle.dc_base.specs.Sound.{IsSound};
ghost use Rattle.dc_base.specs.Words.{elements};
ghost use Rattle.dc_objects.specs.States.{state_of};
ghost use Rattle.dc_report.specs.Remaining.{rest_from};
ghost use Rattle.dc_report.specs.Told.{Tells};
ghost use Rattle.dc_report.specs.declared.places.Place.TheVariants.{Out as OutPlace};

use crate::places::Place;
use dc_base::numbers::BlockNo;
use dc_base::reports::ReportLine;
use dc_kernel::Driver;
use dc_objects::Objects;

/// The most blocks that there are.
const BLOCKS: u32 = 16;

/// The first line from the word at place `i` of the console of block `b` on, and the place after it. None where no word is left.
pub(crate) fn output<D: Driver>(objects: &Objects<D>, b: u32, i: u32) -> Option<(ReportLine, Place)>
    requires { IsSound (state_of objects.now) }
    ensures { Tells (rest_from (state_of objects.now)) (rest_from (state_of objects.now) (OutPlace b i)) result }
{
    let mut at = i;
    for block in b..BLOCKS {
        if let Some(word) = word_at(objects, block, at) {
            let line = ReportLine::Out {
                block: BlockNo(block),
                word,
            };
            return Some((line, Place::Out(block, at + 1)));
        }
        at = 0;
    }
    None
}

/// The word at a place of the console of block `b`.
fn word_at<D: Driver>(objects: &Objects<D>, b: u32, at: u32) -> Option<u32>
    ensures { result ≡ slice_get (elements (slice_get (state_of objects.now).consoles b)) at }
{
    match objects.consoles.get(b as usize) {
        Some(console) => console.at(at),
        None => None,
    }
}
