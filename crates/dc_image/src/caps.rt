//! The capabilities of a dispatcher of an image.

ghost use Rattle.std.specs.Prelude.{◌≡◌, ◌≤◌, ◌<◌, ◌-◌, ◌==◌, ◌&&◌, nat_lt, not, [], length, codes, IfOk};
ghost use Rattle.std.specs.List.{list_any};
ghost use Rattle.toml.specs.View.{view, items_view};
ghost use Rattle.dc_base.specs.declared.images.CapImage.{CapImage};
ghost use Rattle.dc_image.specs.Faults.{Gives};
ghost use Rattle.dc_image.specs.KeyText.{key_of, path_of};
ghost use Rattle.dc_image.specs.ImageKeys.{items_read, number_where, number_below, required, word_where, table_at, table_by};
ghost use Rattle.dc_image.specs.CapsOf.{around_of, kind_named, range_in, end_in, line_in, kind_in, has_slot, slot_in, cap_in};
ghost use Rattle.dc_base.specs.Capabilities.{is_of_line};
ghost use Rattle.dc_base.specs.Valid.{is_given_line};
ghost use Rattle.dc_image.specs.declared.keys.At.TheVariants as at;
ghost use Rattle.dc_image.specs.declared.keys.Name.TheVariants as name;
ghost use Rattle.dc_image.specs.declared.keys.Place.TheVariants as place;

use crate::around::Around;
use crate::arrays::table_of;
use crate::faults::Fault;
use crate::keys::{At, Name, Place};
use crate::kinds::{KindName, kind_of};
use crate::values::{natural_of, number_under, optional_number, require, required_number};
use dc_base::capabilities::{Cap, CapKind};
use dc_base::images::{BlockImage, CapImage};
use dc_base::limits::{DISP_SLOTS, MEMORY_WORDS};
use dc_base::lists::Items;
use dc_base::numbers::{ChanNo, LineNo, PortNo, SignalNo};
use std::alloc::Global;
use toml::{Table, Value};

/// The words of a block's memory.
const MEMORY: u32 = MEMORY_WORDS as u32;

/// The first word and the length of a part of the memory.
fn range_at(table: &Table, place: Place) -> Result<(u32, u32), Fault>
    ensures { Gives result (range_in (table_at place table.now)) }
{
    let first = required_number(table, place, Name::First, 0, MEMORY - 1)?;
    let length = required_number(table, place, Name::Length, 1, MEMORY - first)?;
    Ok((first, length))
}

/// The number of a port or a signal.
fn number_at(table: &Table, place: Place, limit: u32) -> Result<u32, Fault>
    ensures { Gives result (required (table_at place table.now) (codes "number") (number_below limit)) }
{
    let found = require(table, place, Name::Number)?;
    number_under(found, At::Key(place, Name::Number), limit)
}

/// The number of a channel that the block sends to.
fn send_end_at(table: &Table, place: Place, around: &Around) -> Result<u32, Fault>
    requires { length around.now.channels.now ≤ 64 }
    ensures { Gives result (end_in (around_of around.now) (λ x. x.from) (table_at place table.now)) }
{
    let found = require(table, place, Name::Number)?;
    let at = At::Key(place, Name::Number);
    let n = natural_of(found, at)?;
    match around.channels.get(n as usize) {
        Some(channel) if channel.from.0 == u32::from(around.block) => Ok(n as u32),
        _ => Err(Fault::OutOfRange(at)),
    }
}

/// The number of a channel that the block receives from.
fn recv_end_at(table: &Table, place: Place, around: &Around) -> Result<u32, Fault>
    requires { length around.now.channels.now ≤ 64 }
    ensures { Gives result (end_in (around_of around.now) (λ x. x.to) (table_at place table.now)) }
{
    let found = require(table, place, Name::Number)?;
    let at = At::Key(place, Name::Number);
    let n = natural_of(found, at)?;
    match around.channels.get(n as usize) {
        Some(channel) if channel.to.0 == u32::from(around.block) => Ok(n as u32),
        _ => Err(Fault::OutOfRange(at)),
    }
}

/// Whether a capability is for this line.
fn is_for_line(cap: &CapImage, line: u32) -> bool
    ensures { result ≡ is_of_line line cap.now.cap.kind }
{
    match cap.cap.kind {
        CapKind::Line(l) => l.0 == line,
        _ => false,
    }
}

/// Whether one of the capabilities is for this line.
fn names_any(caps: &[CapImage], line: u32) -> bool
    ensures { result ≡ list_any (λ c. is_of_line line c.cap.kind) caps.now }
{
    caps.iter().any(|cap| is_for_line(cap, line))
}

/// Whether a block was given this line.
fn has_line(block: &BlockImage, line: u32) -> bool
    ensures { result ≡ is_given_line line block.now }
{
    let disps = block.disps.as_slice();
    disps
        .iter()
        .any(|disp| names_any(disp.caps.as_slice(), line))
}

/// Whether one of the blocks was given this line.
fn is_taken(blocks: &[BlockImage], line: u32) -> bool
    ensures { result ≡ list_any (is_given_line line) blocks.now }
{
    blocks.iter().any(|block| has_line(block, line))
}

/// The number of a line that no block before this one was given.
fn line_at(table: &Table, place: Place, around: &Around) -> Result<u32, Fault>
    ensures { Gives result (line_in (around_of around.now) (table_at place table.now)) }
{
    let found = require(table, place, Name::Number)?;
    let at = At::Key(place, Name::Number);
    let line = number_under(found, at, around.lines)?;
    if is_taken(around.before, line) {
        return Err(Fault::OutOfRange(at));
    }
    Ok(line)
}

/// What a capability of this name is for.
fn kind_at(table: &Table, place: Place, around: &Around, name: KindName) -> Result<CapKind, Fault>
    requires { length around.now.channels.now ≤ 64 }
    ensures { Gives result (kind_in (around_of around.now) (table_at place table.now) name) }
{
    match name {
        KindName::Ram => {
            let (first, length) = range_at(table, place)?;
            Ok(CapKind::Ram { first, length })
        }
        KindName::Frame => {
            let (first, length) = range_at(table, place)?;
            Ok(CapKind::Frame { first, length })
        }
        KindName::Port => {
            let n = number_at(table, place, around.ports)?;
            Ok(CapKind::Port(PortNo(n)))
        }
        KindName::Signal => {
            let n = number_at(table, place, around.signals)?;
            Ok(CapKind::Signal(SignalNo(n)))
        }
        KindName::SendEnd => {
            let n = send_end_at(table, place, around)?;
            Ok(CapKind::SendEnd(ChanNo(n)))
        }
        KindName::RecvEnd => {
            let n = recv_end_at(table, place, around)?;
            Ok(CapKind::RecvEnd(ChanNo(n)))
        }
        KindName::Line => {
            let n = line_at(table, place, around)?;
            Ok(CapKind::Line(LineNo(n)))
        }
    }
}

/// Whether one of the capabilities is in this slot.
fn is_used(caps: &[CapImage], slot: u32) -> bool
    ensures { result ≡ list_any (has_slot slot) caps.now }
{
    caps.iter().any(|cap| cap.slot == slot)
}

/// A slot that no capability before this one has.
fn slot_at(table: &Table, place: Place, before: &[CapImage]) -> Result<u32, Fault>
    ensures { Gives result (slot_in before.now (table_at place table.now)) }
{
    let found = require(table, place, Name::Slot)?;
    let at = At::Key(place, Name::Slot);
    let slot = number_under(found, at, DISP_SLOTS)?;
    if is_used(before, slot) {
        return Err(Fault::OutOfRange(at));
    }
    Ok(slot)
}

/// The kind by its name.
fn kind_name_at(table: &Table, place: Place) -> Result<KindName, Fault>
    ensures { Gives result (required (table_at place table.now) (codes "kind") (word_where kind_named)) }
{
    let found = require(table, place, Name::Kind)?;
    kind_of(found, At::Key(place, Name::Kind))
}

/// A capability, where these stand before it.
#[tactic(auto, unfolding(crate::specs::CapsOf::cap_in))]
fn cap_of(
    found: &Value,
    place: Place,
    around: &Around,
    before: &[CapImage],
) -> Result<CapImage, Fault>
    requires { length around.now.channels.now ≤ 64 }
    ensures { Gives result (table_by (cap_in (around_of around.now) before.now) (path_of place) (view found.now)) }
{
    let table = table_of(found, place)?;
    let slot = slot_at(table, place, before)?;
    let name = kind_name_at(table, place)?;
    let kind = kind_at(table, place, around, name)?;
    let rights = optional_number(table, place, Name::Rights, 7, 0, 7)?;
    Ok(CapImage {
        slot,
        cap: Cap {
            kind,
            rights: rights as u8,
        },
    })
}

/// The capabilities of an array.
pub fn caps_of(
    alloc: Global,
    items: &[Value],
    block: u8,
    disp: u8,
    around: &Around,
) -> Result<Items<CapImage>, Fault>
    requires few { length items.now ≤ 16 }
    requires channels { length around.now.channels.now ≤ 64 }
    ensures { Gives result (items_read (λ before. table_by (cap_in (around_of around.now) before)) [] (key_of (at.Key (place.Disp block disp) name.Cap))
        (items_view items.now)) }
{
    let mut caps = Vec::new(alloc);
    for (i, item) in items.iter().enumerate() {
        let cap = cap_of(
            item,
            Place::Cap(block, disp, i as u8),
            around,
            caps.as_slice(),
        )?;
        caps.push(cap)?;
    }
    Ok(Items::from_vec(caps))
}
