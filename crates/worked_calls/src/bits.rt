//! Calls on ids, sets of bits, names of dispatches and moments.

use crate::words::{number, word};
use intent_set::{Intents, Kind};
use moment_text::{moment_of, moment_text};
use perm_bits::Perms;
use snowflake_id::Snowflake;
use std::alloc::{AllocError, Global};

fn id(alloc: Global, text: &str) -> Result<String, AllocError> {
    match Snowflake::parse(text) {
        Ok(id) => {
            let digits = id.text(alloc)?;
            let millis = id.millis();
            let shard = id.shard_of(2);
            format!(in alloc; "{digits} of millisecond {millis}, shard {shard} of 2")
        }
        Err(fault) => format!(in alloc; "{fault:?}"),
    }
}

fn permissions(alloc: Global, given: &str) -> anyhow::Result<String> {
    let mask = number(&mut given.split_whitespace())?;
    let Ok(perms) = Perms::of_mask(mask) else {
        return Ok(String::from_str(alloc, "BadMask")?);
    };
    let more = perms.union(Perms::VIEW_CHANNEL).mask();
    let less = perms.without(Perms::VIEW_CHANNEL).mask();
    let has = perms.has(Perms::VIEW_CHANNEL);
    Ok(format!(in alloc; "{perms}, {more} with and {less} without VIEW_CHANNEL, has it: {has}")?)
}

fn intents(alloc: Global, given: &str) -> anyhow::Result<String> {
    let bits = number(&mut given.split_whitespace())?;
    let Ok(intents) = Intents::of_bits(bits) else {
        return Ok(String::from_str(alloc, "UnknownIntent")?);
    };
    let bits = intents.bits();
    let privileged = intents.privileged().bits();
    Ok(format!(in alloc; "{bits}, privileged {privileged}")?)
}

// Whether intents ask for a dispatch by its name, about the bot itself or another.
fn asks(alloc: Global, given: &str) -> anyhow::Result<String> {
    let mut words = given.split_whitespace();
    let Ok(intents) = Intents::of_bits(number(&mut words)?) else {
        return Ok(String::from_str(alloc, "UnknownIntent")?);
    };
    let Some(kind) = Kind::of_name(word(&mut words)?) else {
        return Ok(String::from_str(alloc, "no dispatch")?);
    };
    let other = intents.asks(kind, false);
    let own = intents.asks(kind, true);
    Ok(format!(in alloc; "{kind} {other}, of the bot itself {own}")?)
}

fn moment(alloc: Global, text: &str) -> Result<String, AllocError> {
    let Some(moment) = moment_of(alloc, text)? else {
        return String::from_str(alloc, "no moment");
    };
    let written = moment_text(alloc, moment)?;
    let millis = moment.millis();
    format!(in alloc; "{millis} is {written}")
}

/// What a call of this file answers, where one has that name.
pub fn answer(alloc: Global, name: &str, given: &str) -> anyhow::Result<Option<String>> {
    let answer = match name {
        "id" => id(alloc, given)?,
        "permissions" => permissions(alloc, given)?,
        "intents" => intents(alloc, given)?,
        "asks" => asks(alloc, given)?,
        "moment" => moment(alloc, given)?,
        _ => return Ok(None),
    };
    Ok(Some(answer))
}
