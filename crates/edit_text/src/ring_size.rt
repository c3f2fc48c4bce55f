//! How much a bot line says is kept of what a session was sent, for a resume.

ghost use Rattle.std.specs.Prelude.{◌≡◌, OnOk};
ghost use Rattle.json_view.specs.Nodes.{view};
ghost use Rattle.edit_fields.specs.Members.{HasPut};
ghost use Rattle.edit_text.specs.RingSizes.{is_version, version_from, version_at, is_between, number_between, dispatches_at, bytes_at, ring_size_from, sizes_fields, ring_size_fields};

use crate::LineFault;
use edit_fields::members::put_number;
use json_view::{JsonValue, Node, number_of};
use serde_json::{Map, Value};
use std::alloc::{AllocError, Global};

/// How many dispatches are kept by version 1 of a bot line.
pub const RING_ITEMS: u32 = 1_024;

/// How many bytes of text are kept by version 1 of a bot line.
pub const RING_BYTES: u32 = 4_194_304;

/// The most dispatches that version 2 may ask for; the least is 1.
pub const MAX_RING_ITEMS: u32 = 16_384;

/// The fewest bytes of text that version 2 may ask for.
pub const MIN_RING_BYTES: u32 = 1_024;

/// The most bytes of text that version 2 may ask for.
pub const MAX_RING_BYTES: u32 = 16_777_216;

/// The version of a bot line, and how much it says is kept.
#[derive(Clone, Copy)]
pub struct RingSize {
    pub v: u8,
    pub ring_items: u32,
    pub ring_bytes: u32,
}

fn is_version(number: u64) -> bool
    ensures { result ≡ is_version number }
{
    number == 1 || number == 2
}

fn version_from(value: &Node<'_>) -> Result<u8, LineFault>
    ensures { result ≡ version_from (view value.now) }
{
    let number = value.whole().ok_or(LineFault::WrongType)?;
    if !is_version(number) {
        return Err(LineFault::WrongType);
    }
    Ok(number as u8)
}

fn version_at(object: &Node<'_>, name: &str) -> Result<u8, LineFault>
    ensures { result ≡ version_at name.now (view object.now) }
{
    match object.member(name) {
        None => Ok(1),
        Some(value) => version_from(value),
    }
}

fn is_between(least: u32, most: u32, number: u64) -> bool
    ensures { result ≡ is_between least most number }
{
    u64::from(least) <= number && number <= u64::from(most)
}

fn number_between(object: &Node<'_>, name: &str, least: u32, most: u32) -> Result<u32, LineFault>
    ensures { result ≡ number_between least most name.now (view object.now) }
{
    let number = number_of(object, name)?;
    if !is_between(least, most, number) {
        return Err(LineFault::WrongType);
    }
    Ok(number as u32)
}

fn dispatches_at(object: &Node<'_>, name: &str) -> Result<u32, LineFault>
    ensures { result ≡ dispatches_at name.now (view object.now) }
{
    number_between(object, name, 1, MAX_RING_ITEMS)
}

fn bytes_at(object: &Node<'_>, name: &str) -> Result<u32, LineFault>
    ensures { result ≡ bytes_at name.now (view object.now) }
{
    number_between(object, name, MIN_RING_BYTES, MAX_RING_BYTES)
}

/// Reads the version, and of version 2 also how much is kept.
pub fn ring_size_from(object: &Node<'_>) -> Result<RingSize, LineFault>
    ensures { result ≡ ring_size_from (view object.now) }
{
    let v = version_at(object, "v")?;
    if v == 1 {
        return Ok(RingSize {
            v,
            ring_items: RING_ITEMS,
            ring_bytes: RING_BYTES,
        });
    }
    let ring_items = dispatches_at(object, "ring_items")?;
    let ring_bytes = bytes_at(object, "ring_bytes")?;
    Ok(RingSize {
        v,
        ring_items,
        ring_bytes,
    })
}

fn put_sizes(
    alloc: Global,
    members: &mut Map<String, Value>,
    size: RingSize,
) -> Result<(), AllocError>
    ensures { OnOk result
        (HasPut members.old.entries members.new.entries (sizes_fields size)) }
{
    put_number(alloc, members, "v", u64::from(size.v))?;
    put_number(alloc, members, "ring_items", u64::from(size.ring_items))?;
    put_number(alloc, members, "ring_bytes", u64::from(size.ring_bytes))?;
    Ok(())
}

/// Puts the version and how much is kept, unless the version is 1.
pub fn put_ring_size(
    alloc: Global,
    members: &mut Map<String, Value>,
    size: RingSize,
) -> Result<(), AllocError>
    ensures { OnOk result
        (HasPut members.old.entries members.new.entries (ring_size_fields size)) }
{
    if size.v == 1 {
        return Ok(());
    }
    put_sizes(alloc, members, size)
}
