//! The channels of an image.

ghost use Rattle.std.specs.Prelude.{◌≡◌, ◌≤◌, ◌<◌, ◌==◌, ◌&&◌, nat_lt, not, [], length, codes, IfOk};
ghost use Rattle.toml.specs.View.{view, items_view};
ghost use Rattle.dc_image.specs.Faults.{Gives};
ghost use Rattle.dc_image.specs.KeyText.{key_of, path_of};
ghost use Rattle.dc_image.specs.ImageKeys.{items_read, number_where, number_below, required, table_at, table_by};
ghost use Rattle.dc_image.specs.ImageOf.{channel_in};
ghost use Rattle.dc_image.specs.declared.keys.At.TheVariants as at;
ghost use Rattle.dc_image.specs.declared.keys.Name.TheVariants as name;
ghost use Rattle.dc_image.specs.declared.keys.Place.TheVariants as place;

use crate::arrays::table_of;
use crate::faults::Fault;
use crate::keys::{At, Name, Place};
use crate::values::{number_under, require, required_number};
use dc_base::images::ChanImage;
use dc_base::limits::MOST_CAPACITY;
use dc_base::lists::Items;
use dc_base::numbers::BlockNo;
use std::alloc::Global;
use toml::{Table, Value};

/// The block that sends.
fn from_at(table: &Table, place: Place, blocks: u32) -> Result<u32, Fault>
    ensures { Gives result (required (table_at place table.now) (codes "from") (number_below blocks)) }
{
    let found = require(table, place, Name::From)?;
    number_under(found, At::Key(place, Name::From), blocks)
}

/// The block that receives, another than the one that sends.
fn to_at(table: &Table, place: Place, blocks: u32, from: u32) -> Result<u32, Fault>
    ensures { Gives result (required (table_at place table.now) (codes "to") (number_where (λ n. nat_lt n blocks && not (n == from)))) }
{
    let found = require(table, place, Name::To)?;
    let at = At::Key(place, Name::To);
    let to = number_under(found, at, blocks)?;
    if to == from {
        return Err(Fault::OutOfRange(at));
    }
    Ok(to)
}

/// A channel between two of so many blocks.
#[tactic(auto, unfolding(crate::specs::ImageOf::channel_in))]
fn channel_of(found: &Value, place: Place, blocks: u32) -> Result<ChanImage, Fault>
    ensures { Gives result (table_by (channel_in blocks) (path_of place) (view found.now)) }
{
    let table = table_of(found, place)?;
    let from = from_at(table, place, blocks)?;
    let to = to_at(table, place, blocks, from)?;
    let capacity = required_number(table, place, Name::Capacity, 1, MOST_CAPACITY)?;
    Ok(ChanImage {
        from: BlockNo(from),
        to: BlockNo(to),
        capacity,
    })
}

/// The channels of an array.
pub fn channels_of(alloc: Global, items: &[Value], blocks: u32) -> Result<Items<ChanImage>, Fault>
    requires { length items.now ≤ 64 }
    ensures len { IfOk result (λ channels. length channels ≡ length items.now) }
    ensures read { Gives result (items_read (λ before. table_by (channel_in blocks)) [] (key_of (at.Key place.Image name.Channel)) (items_view items.now)) }
{
    let mut channels = Vec::new(alloc);
    for (i, item) in items.iter().enumerate() {
        channels.push(channel_of(item, Place::Channel(i as u8), blocks)?)?;
    }
    Ok(Items::from_vec(channels))
}
