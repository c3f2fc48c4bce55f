//! Calls on lists by id, shared texts and the buffer for a resume.

use crate::words::{id, number, word};
use collections::{ById, Seq, Text};
use payload_text::{Envelope, Payload};
use replay_ring::Ring;
use snowflake_id::Snowflake;
use std::alloc::{AllocError, Global};
use std::str::SplitWhitespace;

/// The most texts of a buffer, and the most bytes of them, that a line may ask for.
const MOST_TEXTS: u64 = 65535;

const MOST_BYTES: u64 = 16_777_215;

// Ids with a blank after each.
fn listed(alloc: Global, ids: &[Snowflake]) -> Result<String, AllocError> {
    let mut text = String::new(alloc);
    for id in ids {
        text.push_str(id.text(alloc)?.as_str())?;
        text.push(' ')?;
    }
    Ok(text)
}

// Puts ids into a list by id and copies it, removes those below 4 from the list, and counts the copy.
fn ids(alloc: Global, given: &str) -> anyhow::Result<String> {
    let mut list: ById<Snowflake> = ById::new(alloc);
    let mut words = given.split_whitespace();
    for _ in 0..given.len() {
        let Ok(next) = id(&mut words) else {
            break;
        };
        list.put(next)?;
    }
    let copy = list.copy(alloc)?;
    list.retain(|id| id.0 > 3);
    let before = listed(alloc, copy.as_slice())?;
    let after = listed(alloc, list.as_slice())?;
    let has = list.contains(4);
    let count = copy.len();
    Ok(format!(in alloc; "{before}by id, {after}left, has 4: {has}, the copy has {count}")?)
}

// Copies a text, and a list that has it twice.
fn text(alloc: Global, given: &str) -> Result<String, AllocError> {
    let name = Text::new(alloc, given)?;
    let is_same = name.is(given);
    let bytes = name.len();
    let copy = name.copy(alloc)?;
    let mut lengths: Seq<usize> = Seq::new(alloc);
    lengths.push(bytes)?;
    lengths.push(bytes)?;
    let count = lengths.copy(alloc)?.into_vec().len();
    format!(in alloc;
        "{}, {bytes} bytes, the same: {is_same}, a list of {count}",
        copy.as_str()
    )
}

// A head and a tail, with two numbers between them.
fn envelope(alloc: Global, given: &str) -> anyhow::Result<String> {
    let mut words = given.split_whitespace();
    let head = Text::new(alloc, word(&mut words)?)?;
    let tail = Text::new(alloc, word(&mut words)?)?;
    let envelope = Envelope::new(alloc, head, tail)?;
    let first = Payload::numbered(&envelope, number(&mut words)?)?;
    let second = Payload::numbered(&envelope, number(&mut words)?)?;
    drop(envelope);
    let mut out = Vec::new(alloc);
    first.append(&mut out)?;
    second.share()?.append(&mut out)?;
    let both = String::from_utf8(out)?;
    let (one, other) = (first.len(), second.len());
    Ok(format!(in alloc; "{both}, {one} and {other} bytes")?)
}

// So many bytes of text.
fn payload(alloc: Global, bytes: u64) -> Result<Payload, AllocError> {
    let mut text = String::new(alloc);
    for _ in 0..bytes {
        text.push('a')?;
    }
    Payload::plain(alloc, Text::from_string(text))
}

fn push_all(
    alloc: Global,
    ring: &mut Ring,
    words: &mut SplitWhitespace<'_>,
    most: usize,
) -> Result<(), AllocError> {
    for _ in 0..most {
        let Ok(bytes) = number(words) else {
            break;
        };
        if ring.last() < u64::MAX {
            ring.push(payload(alloc, bytes)?);
        }
    }
    Ok(())
}

// The lengths of the texts after a number.
fn lengths(alloc: Global, ring: &Ring, from: u64) -> Result<String, AllocError> {
    let mut lengths = String::new(alloc);
    if !ring.covers(from) {
        return String::from_str(alloc, "not covered");
    }
    for text in ring.after(from) {
        let length = text.len();
        lengths.push_str(format!(in alloc; "{length} bytes ")?.as_str())?;
    }
    Ok(lengths)
}

// A buffer for so many texts and bytes is given texts of these lengths, and asked for those after a
// number: `ring TEXTS BYTES NUMBER LENGTH..`.
fn ring(alloc: Global, given: &str) -> anyhow::Result<String> {
    let mut words = given.split_whitespace();
    let (items, bytes) = (number(&mut words)?, number(&mut words)?);
    let from = number(&mut words)?;
    if items == 0 || items > MOST_TEXTS || bytes > MOST_BYTES {
        return Ok(String::from_str(alloc, "no such buffer")?);
    }
    let mut ring = Ring::new(alloc, items as usize, bytes as usize)?;
    push_all(alloc, &mut ring, &mut words, given.len())?;
    let last = ring.last();
    let lengths = lengths(alloc, &ring, from)?;
    Ok(format!(in alloc; "last {last}, after {from}: {lengths}")?)
}

/// What a call of this file answers, where one has that name.
pub fn answer(alloc: Global, name: &str, given: &str) -> anyhow::Result<Option<String>> {
    let answer = match name {
        "ids" => ids(alloc, given)?,
        "text" => text(alloc, given)?,
        "envelope" => envelope(alloc, given)?,
        "ring" => ring(alloc, given)?,
        _ => return Ok(None),
    };
    Ok(Some(answer))
}
