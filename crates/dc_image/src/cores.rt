//! The cores of an image.

ghost use Rattle.std.specs.Prelude.{◌≡◌, ◌≤◌, ◌-◌, ◌^◌, [], length, codes, IfOk};
ghost use Rattle.toml.specs.View.{view, items_view};
ghost use Rattle.dc_image.specs.Faults.{Gives};
ghost use Rattle.dc_image.specs.KeyText.{key_of, path_of};
ghost use Rattle.dc_image.specs.ImageKeys.{items_read, number_within, optional, maybe, word_where, version_of, table_at, table_by};
ghost use Rattle.dc_image.specs.ImageOf.{core_in};
ghost use Rattle.dc_image.specs.declared.keys.At.TheVariants as at;
ghost use Rattle.dc_image.specs.declared.keys.Name.TheVariants as name;
ghost use Rattle.dc_image.specs.declared.keys.Place.TheVariants as place;

use crate::arrays::table_of;
use crate::faults::Fault;
use crate::keys::{At, Name, Place};
use crate::values::{find, natural_of, word_of};
use dc_base::images::CoreImage;
use dc_base::kernels::Version;
use dc_base::limits::CLOCK_START_LIMIT;
use dc_base::lists::Items;
use std::alloc::Global;
use toml::{Table, Value};

/// The largest base of a clock.
const LARGEST_BASE: u64 = CLOCK_START_LIMIT - 1;

/// The clock's base, or 0.
fn base_at(table: &Table, place: Place) -> Result<u64, Fault>
    ensures { Gives result (optional (table_at place table.now) (codes "base") 0 (number_within 0 (2 ^ 62 - 1))) }
{
    let Some(found) = find(table, Name::Base) else {
        return Ok(0);
    };
    let at = At::Key(place, Name::Base);
    let base = natural_of(found, at)?;
    if base > LARGEST_BASE {
        return Err(Fault::OutOfRange(at));
    }
    Ok(base)
}

/// The version of a name.
fn version_named(found: &Value, at: At) -> Result<Version, Fault>
    ensures { Gives result (word_where version_of (key_of at) (view found.now)) }
{
    match word_of(found, at)? {
        "rr" => Ok(Version::Rr),
        "edf" => Ok(Version::Edf),
        _ => Err(Fault::OutOfRange(at)),
    }
}

/// The version, or none for a core that is off.
fn version_at(table: &Table, place: Place) -> Result<Option<Version>, Fault>
    ensures { Gives result (maybe (table_at place table.now) (codes "version") (word_where version_of)) }
{
    let Some(found) = find(table, Name::Version) else {
        return Ok(None);
    };
    let version = version_named(found, At::Key(place, Name::Version))?;
    Ok(Some(version))
}

/// A core.
#[tactic(auto, unfolding(crate::specs::ImageOf::core_in))]
fn core_of(found: &Value, place: Place) -> Result<CoreImage, Fault>
    ensures { Gives result (table_by core_in (path_of place) (view found.now)) }
{
    let table = table_of(found, place)?;
    let base = base_at(table, place)?;
    let version = version_at(table, place)?;
    Ok(CoreImage { base, version })
}

/// The cores of an array.
pub fn cores_of(alloc: Global, items: &[Value]) -> Result<Items<CoreImage>, Fault>
    requires { length items.now ≤ 8 }
    ensures len { IfOk result (λ cores. length cores ≡ length items.now) }
    ensures read { Gives result (items_read (λ before. table_by core_in) [] (key_of (at.Key place.Image name.Core)) (items_view items.now)) }
{
    let mut cores = Vec::new(alloc);
    for (i, item) in items.iter().enumerate() {
        cores.push(core_of(item, Place::Core(i as u8))?)?;
    }
    Ok(Items::from_vec(cores))
}
