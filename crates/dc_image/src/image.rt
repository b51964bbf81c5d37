//! Whole images.

ghost use Rattle.std.specs.Prelude.{◌≡◌, ◌≤◌, length, IfOk};
ghost use Rattle.toml.specs.View.{view, table_view};
ghost use Rattle.dc_image.specs.Faults.{Gives};
ghost use Rattle.dc_image.specs.KeyText.{key_of};
ghost use Rattle.dc_image.specs.ImageKeys.{clocks_in, clocks_of, word_where, table_at};
ghost use Rattle.dc_image.specs.ImageOf.{cores_in, slices_in, channels_in, image_in};
ghost use Rattle.dc_image.specs.declared.keys.At.TheVariants as at;
ghost use Rattle.dc_image.specs.declared.keys.Place.TheVariants as place;

use crate::around::Machine;
use crate::arrays::array_of;
use crate::blocks::blocks_of;
use crate::channels::channels_of;
use crate::cores::cores_of;
use crate::faults::Fault;
use crate::keys::{At, Name, Place};
use crate::values::{find, optional_number, require, required_number, word_of};
use dc_base::images::{ChanImage, CoreImage, Image};
use dc_base::kernels::Clocks;
use dc_base::limits::{
    MOST_BLOCKS, MOST_CHANNELS, MOST_CORES, MOST_LINES, MOST_QUANTUM, MOST_SLICES,
    MOST_SLICES_IN_ALL,
};
use dc_base::lists::Items;
use std::alloc::Global;
use toml::{Table, Value};

/// The clocks of a name.
fn clocks_named(found: &Value, at: At) -> Result<Clocks, Fault>
    ensures { Gives result (word_where clocks_of (key_of at) (view found.now)) }
{
    match word_of(found, at)? {
        "kept" => Ok(Clocks::Kept),
        "running" => Ok(Clocks::Running),
        _ => Err(Fault::OutOfRange(at)),
    }
}

/// The clocks, which are kept in the first format.
fn clocks_at(table: &Table, format: u32) -> Result<Clocks, Fault>
    ensures { Gives result (clocks_in format (table_at place.Image table.now)) }
{
    if format != 2 {
        return Ok(Clocks::Kept);
    }
    match find(table, Name::Clocks) {
        Some(found) => clocks_named(found, At::Key(Place::Image, Name::Clocks)),
        None => Ok(Clocks::Kept),
    }
}

/// The cores.
#[tactic(auto, unfolding(crate::specs::ImageOf::cores_in))]
fn cores_at(alloc: Global, table: &Table) -> Result<Items<CoreImage>, Fault>
    ensures read { Gives result (cores_in (table_at place.Image table.now)) }
    ensures within { IfOk result (λ cores. (1 ≤ length cores) × (length cores ≤ 8)) }
{
    let found = require(table, Place::Image, Name::Core)?;
    let items = array_of(found, At::Key(Place::Image, Name::Core), 1, MOST_CORES)?;
    cores_of(alloc, items)
}

/// The budget of each core, of which there are so many.
#[tactic(auto, unfolding(crate::specs::ImageOf::slices_in))]
fn slices_at(table: &Table, cores: u32) -> Result<u32, Fault>
    requires { 1 ≤ cores }
    ensures { Gives result (slices_in cores (table_at place.Image table.now)) }
{
    required_number(
        table,
        Place::Image,
        Name::Slices,
        1,
        u32::min(MOST_SLICES, MOST_SLICES_IN_ALL / cores),
    )
}

/// The channels, if any.
#[tactic(auto, unfolding(crate::specs::ImageOf::channels_in))]
fn channels_at(alloc: Global, table: &Table, blocks: u32) -> Result<Items<ChanImage>, Fault>
    ensures read { Gives result (channels_in blocks (table_at place.Image table.now)) }
    ensures within { IfOk result (λ channels. length channels ≤ 64) }
{
    let Some(found) = find(table, Name::Channel) else {
        return Ok(Items::new(alloc));
    };
    let items = array_of(
        found,
        At::Key(Place::Image, Name::Channel),
        0,
        MOST_CHANNELS,
    )?;
    channels_of(alloc, items, blocks)
}

/// The image of a whole table. The elements of `block` are read after all of `channel`.
#[tactic(auto, using(crate::proofs::ArrayLaws::item_count_view), unfolding(crate::specs::ImageOf::image_in))]
pub fn image_of(alloc: Global, table: &Table) -> Result<Image, Fault>
    ensures { Gives result (image_in (table_view table.now)) }
{
    let format = required_number(table, Place::Image, Name::Format, 1, 2)?;
    let clocks = clocks_at(table, format)?;
    let quantum = required_number(table, Place::Image, Name::Quantum, 1, MOST_QUANTUM as u32)?;
    let cores = cores_at(alloc, table)?;
    let slices = slices_at(table, cores.len() as u32)?;
    let lines = optional_number(table, Place::Image, Name::Lines, 0, 0, MOST_LINES as u32)?;
    let blocks = require(table, Place::Image, Name::Block)?;
    let items = array_of(blocks, At::Key(Place::Image, Name::Block), 1, MOST_BLOCKS)?;
    let channels = channels_at(alloc, table, items.len() as u32)?;
    let machine = Machine {
        cores: cores.as_slice(),
        channels: channels.as_slice(),
        lines,
    };
    let blocks = blocks_of(alloc, items, &machine)?;
    Ok(Image {
        format,
        clocks,
        quantum,
        slices,
        lines,
        cores,
        blocks,
        channels,
    })
}
