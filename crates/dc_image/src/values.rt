//! The values at the keys of tables, each by its rule.

ghost use Rattle.std.specs.Prelude.{◌≡◌, ◌≤◌, ◌<◌, ◌^◌, option_map, IfOk};
ghost use Rattle.toml.specs.View.{view, table_view};
ghost use Rattle.toml.specs.Data.{get_member};
ghost use Rattle.dc_image.specs.Faults.{Gives, Shows};
ghost use Rattle.dc_image.specs.KeyText.{spelling, key_of};
ghost use Rattle.dc_image.specs.ImageKeys.{natural, word_in, number_within, number_below, found_at, required, optional, table_at};

use crate::faults::Fault;
use crate::keys::{At, Name, Place};
use toml::{Table, Value};

/// What a table has at a name.
pub fn find<'a>(table: &'a Table, name: Name) -> Option<&'a Value>
    ensures { option_map (λ v. view v.now) result ≡ get_member (spelling name) (table_view table.now) }
{
    table.get(name.as_str())
}

/// What a table must have at a name.
pub fn require<'a>(table: &'a Table, place: Place, name: Name) -> Result<&'a Value, Fault>
    ensures { Shows (λ v. view v.now) result (found_at (table_at place table.now) (spelling name)) }
{
    match find(table, name) {
        Some(found) => Ok(found),
        None => Err(Fault::Missing(At::Key(place, name))),
    }
}

/// A whole number that is not below 0.
pub fn natural_of(found: &Value, at: At) -> Result<u64, Fault>
    ensures { Gives result (natural (key_of at) (view found.now)) }
{
    match found {
        Value::Integer(n) => match u64::try_from(*n) {
            Ok(n) => Ok(n),
            Err(_) => Err(Fault::OutOfRange(at)),
        },
        _ => Err(Fault::WrongKind(at)),
    }
}

/// A number from `low` to `high`.
pub fn number_of(found: &Value, at: At, low: u32, high: u32) -> Result<u32, Fault>
    ensures read { Gives result (number_within low high (key_of at) (view found.now)) }
    ensures within { IfOk result (λ n. (low ≤ n) × (n ≤ high)) }
{
    let n = natural_of(found, at)?;
    if n < u64::from(low) || n > u64::from(high) {
        return Err(Fault::OutOfRange(at));
    }
    Ok(n as u32)
}

/// A number below a limit.
pub fn number_under(found: &Value, at: At, limit: u32) -> Result<u32, Fault>
    ensures read { Gives result (number_below limit (key_of at) (view found.now)) }
    ensures within { IfOk result (λ n. n < limit) }
{
    let n = natural_of(found, at)?;
    if n >= u64::from(limit) {
        return Err(Fault::OutOfRange(at));
    }
    Ok(n as u32)
}

/// A number from `low` to `high` at a key that must be there.
pub fn required_number(
    table: &Table,
    place: Place,
    name: Name,
    low: u32,
    high: u32,
) -> Result<u32, Fault>
    ensures read { Gives result (required (table_at place table.now) (spelling name) (number_within low high)) }
    ensures within { IfOk result (λ n. (low ≤ n) × (n ≤ high)) }
{
    let found = require(table, place, name)?;
    number_of(found, At::Key(place, name), low, high)
}

/// A number from `low` to `high`, or the one that stands for none.
pub fn optional_number(
    table: &Table,
    place: Place,
    name: Name,
    absent: u32,
    low: u32,
    high: u32,
) -> Result<u32, Fault>
    requires low { low ≤ absent }
    requires high { absent ≤ high }
    ensures read { Gives result (optional (table_at place table.now) (spelling name) absent (number_within low high)) }
    ensures within { IfOk result (λ n. (low ≤ n) × (n ≤ high)) }
{
    match find(table, name) {
        Some(found) => number_of(found, At::Key(place, name), low, high),
        None => Ok(absent),
    }
}

/// The word that a string is.
pub fn word_of(found: &Value, at: At) -> Result<&str, Fault>
    ensures { Shows (λ s. s.now) result (word_in (key_of at) (view found.now)) }
{
    match found {
        Value::String(word) => Ok(word.as_str()),
        _ => Err(Fault::WrongKind(at)),
    }
}
