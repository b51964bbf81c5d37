//! Arrays, and tables in them.

ghost use Rattle.std.specs.Prelude.{◌≡◌, ◌≤◌, ◌<◌, ◌-◌, ◌^◌, [], length, IfOk};
ghost use Rattle.toml.specs.Data.{array};
ghost use Rattle.toml.specs.View.{view, items_view};
ghost use Rattle.dc_image.specs.Faults.{Gives, Shows};
ghost use Rattle.dc_image.specs.KeyText.{spelling, key_of, path_of};
ghost use Rattle.dc_image.specs.ImageKeys.{array_within, items_read, any_number, table_in, table_at, each_within, optional, required};
ghost use Rattle.dc_image.specs.declared.keys.At.TheVariants as at;

use crate::faults::Fault;
use crate::keys::{At, Name, Place};
use crate::values::number_of;
use dc_base::lists::Items;
use std::alloc::Global;
use toml::{Table, Value};

/// The elements, where there are `low` to `high`.
#[tactic(auto, using(crate::proofs::ArrayLaws::item_count_view))]
pub fn sized(items: &[Value], at: At, low: usize, high: usize) -> Result<&[Value], Fault>
    ensures read { Shows (λ s. items_view s.now) result (array_within low high (key_of at) (array (items_view items.now))) }
    ensures within { IfOk result (λ s. (low ≤ length s.now) × (length s.now ≤ high)) }
{
    if low <= items.len() && items.len() <= high {
        Ok(items)
    } else {
        Err(Fault::OutOfRange(at))
    }
}

/// The elements of an array of `low` to `high`.
pub fn array_of(found: &Value, at: At, low: usize, high: usize) -> Result<&[Value], Fault>
    ensures read { Shows (λ s. items_view s.now) result (array_within low high (key_of at) (view found.now)) }
    ensures within { IfOk result (λ s. (low ≤ length s.now) × (length s.now ≤ high)) }
{
    match found {
        Value::Array(items) => sized(items.as_slice(), at, low, high),
        _ => Err(Fault::WrongKind(at)),
    }
}

/// A table at its place.
pub fn table_of(found: &Value, place: Place) -> Result<&Table, Fault>
    ensures { Shows (λ t. table_at place t.now) result (table_in (path_of place) (view found.now)) }
{
    match found {
        Value::Table(table) => Ok(table),
        _ => Err(Fault::WrongKind(At::Table(place))),
    }
}

/// The words of 32 bits of an array.
pub fn words_of(
    alloc: Global,
    items: &[Value],
    place: Place,
    name: Name,
) -> Result<Items<u32>, Fault>
    requires { length items.now ≤ 4096 }
    ensures { Gives result (items_read (λ before. any_number) [] (key_of (at.Key place name)) (items_view items.now)) }
{
    let mut words = Vec::new(alloc);
    for (i, item) in items.iter().enumerate() {
        words.push(number_of(item, At::Item(place, name, i as u32), 0, u32::MAX)?)?;
    }
    Ok(Items::from_vec(words))
}
