//! The dispatchers of a block of an image.

ghost use Rattle.std.specs.Prelude.{◌≡◌, ◌≤◌, [], length, codes};
ghost use Rattle.toml.specs.View.{view, items_view};
ghost use Rattle.dc_base.specs.ProgramText.{program_of};
ghost use Rattle.dc_image.specs.Faults.{Gives};
ghost use Rattle.dc_image.specs.KeyText.{key_of, path_of};
ghost use Rattle.dc_image.specs.ImageKeys.{items_read, required, table_at, table_by};
ghost use Rattle.dc_image.specs.CapsOf.{around_of};
ghost use Rattle.dc_image.specs.DispsOf.{words_in, code_in, caps_in, disp_in};
ghost use Rattle.dc_image.specs.declared.keys.At.TheVariants as at;
ghost use Rattle.dc_image.specs.declared.keys.Name.TheVariants as name;
ghost use Rattle.dc_image.specs.declared.keys.Place.TheVariants as place;

use crate::around::Around;
use crate::arrays::{array_of, sized, table_of, words_of};
use crate::caps::caps_of;
use crate::faults::Fault;
use crate::keys::{At, Name, Place};
use crate::values::{find, optional_number, require};
use dc_base::faults::AsmFault;
use dc_base::images::{CapImage, DispImage};
use dc_base::limits::{CODE_ROOM, DISP_SLOTS, LONGEST_PERIOD};
use dc_base::lists::Items;
use dc_isa::assemble;
use std::alloc::Global;
use toml::{Table, Value};

/// The assembler numbers the lines of shorter texts.
const LONGEST_CODE: usize = (1 << 32) - 1;

/// The words that a text of code gives.
fn assembled(alloc: Global, text: &str, at: At) -> Result<Items<u32>, Fault>
    ensures { Gives result (words_in (key_of at) (program_of text.now)) }
{
    // No file that is read has room for such a text.
    if text.len() >= LONGEST_CODE {
        return Err(Fault::Memory);
    }
    match assemble(alloc, text) {
        Ok(words) => {
            if words.is_empty() {
                return Err(Fault::OutOfRange(at));
            }
            Ok(Items::from_vec(words))
        }
        Err(AsmFault::Bad { line, kind }) => Err(Fault::Code(at, line, kind)),
        Err(AsmFault::Memory) => Err(Fault::Memory),
    }
}

/// The words of code, from an array or from a text.
fn code_of(alloc: Global, found: &Value, place: Place) -> Result<Items<u32>, Fault>
    ensures { Gives result (code_in (key_of (at.Key place name.Code)) (view found.now)) }
{
    let at = At::Key(place, Name::Code);
    match found {
        Value::String(text) => assembled(alloc, text.as_str(), at),
        Value::Array(items) => {
            let items = sized(items.as_slice(), at, 1, CODE_ROOM)?;
            words_of(alloc, items, place, Name::Code)
        }
        _ => Err(Fault::WrongKind(at)),
    }
}

/// The words of code.
fn code_at(alloc: Global, table: &Table, place: Place) -> Result<Items<u32>, Fault>
    ensures { Gives result (required (table_at place table.now) (codes "code") code_in) }
{
    let found = require(table, place, Name::Code)?;
    code_of(alloc, found, place)
}

/// The capabilities, if any.
#[tactic(auto, unfolding(crate::specs::DispsOf::caps_in))]
fn caps_at(
    alloc: Global,
    table: &Table,
    block: u8,
    disp: u8,
    around: &Around,
) -> Result<Items<CapImage>, Fault>
    requires { length around.now.channels.now ≤ 64 }
    ensures { Gives result (caps_in (around_of around.now) (table_at (place.Disp block disp) table.now)) }
{
    let Some(found) = find(table, Name::Cap) else {
        return Ok(Items::new(alloc));
    };
    let items = array_of(
        found,
        At::Key(Place::Disp(block, disp), Name::Cap),
        0,
        DISP_SLOTS as usize,
    )?;
    caps_of(alloc, items, block, disp, around)
}

/// A dispatcher.
#[tactic(auto, unfolding(crate::specs::DispsOf::disp_in))]
fn disp_of(
    alloc: Global,
    found: &Value,
    block: u8,
    disp: u8,
    around: &Around,
) -> Result<DispImage, Fault>
    requires { length around.now.channels.now ≤ 64 }
    ensures { Gives result (table_by (disp_in (around_of around.now)) (path_of (place.Disp block disp)) (view found.now)) }
{
    let place = Place::Disp(block, disp);
    let table = table_of(found, place)?;
    let code = code_at(alloc, table, place)?;
    let period = optional_number(table, place, Name::Period, 1, 1, LONGEST_PERIOD)?;
    let due = optional_number(table, place, Name::Due, 0, 0, u32::MAX)?;
    let caps = caps_at(alloc, table, block, disp, around)?;
    Ok(DispImage {
        code,
        period,
        due,
        caps,
    })
}

/// The dispatchers of an array.
pub fn disps_of(
    alloc: Global,
    items: &[Value],
    block: u8,
    around: &Around,
) -> Result<Items<DispImage>, Fault>
    requires few { length items.now ≤ 16 }
    requires channels { length around.now.channels.now ≤ 64 }
    ensures { Gives result (items_read (λ before. table_by (disp_in (around_of around.now))) [] (key_of (at.Key (place.Block block) name.Disp))
        (items_view items.now)) }
{
    let mut disps = Vec::new(alloc);
    for (i, item) in items.iter().enumerate() {
        disps.push(disp_of(alloc, item, block, i as u8, around)?)?;
    }
    Ok(Items::from_vec(disps))
}
