//! The blocks of an image.

ghost use Rattle.std.specs.Prelude.{◌≡◌, ◌≤◌, ◌<◌, [], length, codes, slice_get, IsTrue};
ghost use Rattle.std.specs.List.{list_any};
ghost use Rattle.toml.specs.View.{view, items_view};
ghost use Rattle.dc_image.specs.Faults.{Gives};
ghost use Rattle.dc_image.specs.KeyText.{key_of, path_of};
ghost use Rattle.dc_image.specs.ImageKeys.{items_read, maybe, table_at, table_by};
ghost use Rattle.dc_image.specs.CapsOf.{around_of};
ghost use Rattle.dc_image.specs.DispsOf.{disps_in};
ghost use Rattle.dc_image.specs.BlocksOf.{machine_of, is_on, is_home_of, home_in, data_in, block_in, blocks_in};
ghost use Rattle.dc_image.specs.declared.keys.At.TheVariants as at;
ghost use Rattle.dc_image.specs.declared.keys.Name.TheVariants as name;
ghost use Rattle.dc_image.specs.declared.keys.Place.TheVariants as place;

use crate::around::{Around, Machine};
use crate::arrays::{array_of, table_of, words_of};
use crate::disps::disps_of;
use crate::faults::Fault;
use crate::keys::{At, Name, Place};
use crate::values::{find, natural_of, optional_number, require};
use dc_base::images::{BlockImage, CoreImage, DispImage};
use dc_base::limits::{MEMORY_WORDS, MOST_DISPS, MOST_PORTS, MOST_SIGNALS};
use dc_base::lists::Items;
use dc_base::numbers::CoreNo;
use std::alloc::Global;
use toml::{Table, Value};

/// Whether there is such a core, and it is on.
fn core_is_on(cores: &[CoreImage], core: u64) -> bool
    ensures value { result ≡ is_on (slice_get cores.now core) }
    ensures within { IsTrue result → core < length cores.now }
{
    match cores.get(core as usize) {
        Some(core) => core.version.is_some(),
        None => false,
    }
}

/// Whether a block is home on this core.
fn is_home(block: &BlockImage, core: u32) -> bool
    ensures { result ≡ is_home_of core block.now }
{
    match block.home {
        Some(home) => home.0 == core,
        None => false,
    }
}

/// Whether one of the blocks is home on this core.
fn is_taken(blocks: &[BlockImage], core: u32) -> bool
    ensures { result ≡ list_any (is_home_of core) blocks.now }
{
    blocks.iter().any(|block| is_home(block, core))
}

/// A core that is on and home of no block before this one.
fn home_of(
    found: &Value,
    at: At,
    cores: &[CoreImage],
    before: &[BlockImage],
) -> Result<CoreNo, Fault>
    requires { length cores.now ≤ 8 }
    ensures { Gives result (home_in cores.now before.now (key_of at) (view found.now)) }
{
    let core = natural_of(found, at)?;
    if !core_is_on(cores, core) {
        return Err(Fault::OutOfRange(at));
    }
    let core = core as u32;
    if is_taken(before, core) {
        return Err(Fault::OutOfRange(at));
    }
    Ok(CoreNo(core))
}

/// The home, if any.
fn home_at(
    table: &Table,
    place: Place,
    cores: &[CoreImage],
    before: &[BlockImage],
) -> Result<Option<CoreNo>, Fault>
    requires { length cores.now ≤ 8 }
    ensures { Gives result (maybe (table_at place table.now) (codes "home") (home_in cores.now before.now)) }
{
    let Some(found) = find(table, Name::Home) else {
        return Ok(None);
    };
    let home = home_of(found, At::Key(place, Name::Home), cores, before)?;
    Ok(Some(home))
}

/// The words of memory, if any.
fn data_at(alloc: Global, table: &Table, place: Place) -> Result<Items<u32>, Fault>
    ensures { Gives result (data_in (table_at place table.now)) }
{
    let Some(found) = find(table, Name::Data) else {
        return Ok(Items::new(alloc));
    };
    let items = array_of(found, At::Key(place, Name::Data), 0, MEMORY_WORDS)?;
    words_of(alloc, items, place, Name::Data)
}

/// The dispatchers.
#[tactic(auto, unfolding(crate::specs::DispsOf::disps_in))]
fn disps_at(
    alloc: Global,
    table: &Table,
    block: u8,
    around: &Around,
) -> Result<Items<DispImage>, Fault>
    requires { length around.now.channels.now ≤ 64 }
    ensures { Gives result (disps_in (around_of around.now) (table_at (place.Block block) table.now)) }
{
    let place = Place::Block(block);
    let found = require(table, place, Name::Disp)?;
    let items = array_of(found, At::Key(place, Name::Disp), 1, MOST_DISPS)?;
    disps_of(alloc, items, block, around)
}

/// A block, where these stand before it.
#[tactic(auto, unfolding(crate::specs::BlocksOf::block_in))]
fn block_of(
    alloc: Global,
    found: &Value,
    block: u8,
    machine: &Machine,
    before: &[BlockImage],
) -> Result<BlockImage, Fault>
    requires cores { length machine.now.cores.now ≤ 8 }
    requires channels { length machine.now.channels.now ≤ 64 }
    ensures { Gives result (table_by (block_in (machine_of machine.now) block before.now) (path_of (place.Block block)) (view found.now)) }
{
    let place = Place::Block(block);
    let table = table_of(found, place)?;
    let home = home_at(table, place, machine.cores, before)?;
    let memory = data_at(alloc, table, place)?;
    let ports = optional_number(table, place, Name::Ports, 0, 0, MOST_PORTS as u32)?;
    let signals = optional_number(table, place, Name::Signals, 0, 0, MOST_SIGNALS as u32)?;
    let around = Around {
        block,
        ports,
        signals,
        channels: machine.channels,
        lines: machine.lines,
        before,
    };
    let disps = disps_at(alloc, table, block, &around)?;
    Ok(BlockImage {
        home,
        memory,
        ports,
        signals,
        disps,
    })
}

/// The blocks of an array.
#[tactic(auto, unfolding(crate::specs::BlocksOf::blocks_in))]
pub fn blocks_of(
    alloc: Global,
    items: &[Value],
    machine: &Machine,
) -> Result<Items<BlockImage>, Fault>
    requires few { length items.now ≤ 16 }
    requires cores { length machine.now.cores.now ≤ 8 }
    requires channels { length machine.now.channels.now ≤ 64 }
    ensures { Gives result (blocks_in (machine_of machine.now) (items_view items.now)) }
{
    let mut blocks = Vec::new(alloc);
    for (i, item) in items.iter().enumerate() {
        let block = block_of(alloc, item, i as u8, machine, blocks.as_slice())?;
        blocks.push(block)?;
    }
    Ok(Items::from_vec(blocks))
}
