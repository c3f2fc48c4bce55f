//! The summary of a load.

ghost use Rattle.std.specs.Prelude.{◌≡◌, ◌++◌, string_bytes, OnOk, IfOk, flat_map};
ghost use Rattle.log_summary.specs.Summary.{guild_text, sessions_text, entries_of, summary_text};

use crate::lines::{add_done_line, add_guild_line, add_head_line, add_session_line};
use guild_hub::SealedLog;
use snowflake_id::Snowflake;
use std::alloc::{AllocError, Global};
use std::sync::Wait;

// Adds a line for each log.
fn add_guilds<R: Wait + Drop>(
    text: &mut String,
    logs: &[(Snowflake, SealedLog<R>)],
) -> Result<(), AllocError>
    ensures { OnOk result (string_bytes text.new ≡ string_bytes text.old ++ flat_map guild_text logs.now) }
{
    for log in logs {
        add_guild_line(text, log.0, &log.1)?;
    }
    Ok(())
}

// Adds a line for each client, from 0 on.
fn add_sessions(text: &mut String, agrees: &[usize]) -> Result<(), AllocError>
    ensures { OnOk result (string_bytes text.new ≡ string_bytes text.old ++ sessions_text 0 agrees.now) }
{
    for number in 0..agrees.len() {
        add_session_line(text, number, agrees[number])?;
    }
    Ok(())
}

// How many entries there are in all.
fn entries_of<R: Wait + Drop>(logs: &[(Snowflake, SealedLog<R>)]) -> u128
    ensures { result ≡ entries_of logs.now }
{
    let mut entries = 0;
    for log in logs {
        entries += u128::from(log.1.len());
    }
    entries
}

/// The summary of a load of that seed: a line with the seed, one for each log, one for each client from
/// 0 on, for how many guilds what it holds agrees with the logs, and a last one with the entries of all
/// logs.
pub fn summary<R: Wait + Drop>(
    alloc: Global,
    seed: u64,
    logs: &[(Snowflake, SealedLog<R>)],
    agrees: &[usize],
) -> Result<String, AllocError>
    ensures { IfOk result (λ text. string_bytes text ≡ summary_text seed logs.now agrees.now) }
{
    let mut text = String::new(alloc);
    add_head_line(&mut text, seed)?;
    add_guilds(&mut text, logs)?;
    add_sessions(&mut text, agrees)?;
    add_done_line(&mut text, entries_of(logs))?;
    Ok(text)
}
