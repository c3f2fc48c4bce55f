//! The words of a line.

use anyhow::{Context, bail};
use snowflake_id::Snowflake;
use std::str::SplitWhitespace;

/// The next word.
pub fn word<'a>(words: &mut SplitWhitespace<'a>) -> anyhow::Result<&'a str> {
    words.next().context("a word is missing")
}

/// The next word as a number.
pub fn number(words: &mut SplitWhitespace<'_>) -> anyhow::Result<u64> {
    let number = word(words)?.parse::<u64>()?;
    Ok(number)
}

/// The next word as an id.
pub fn id(words: &mut SplitWhitespace<'_>) -> anyhow::Result<Snowflake> {
    match Snowflake::parse(word(words)?) {
        Ok(id) => Ok(id),
        Err(_) => bail!("a word is no id"),
    }
}
