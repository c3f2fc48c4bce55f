//! The lines of the summary.

ghost use Rattle.std.specs.Prelude.{◌≡◌, ◌++◌, string_bytes, OnOk};
ghost use Rattle.log_summary.specs.Summary.{head_line, guild_line, guild_text, session_line, done_line};

use crate::counts::{Counts, counts_of};
use guild_hub::SealedLog;
use snowflake_id::Snowflake;
use std::alloc::AllocError;
use std::sync::Wait;

/// Adds the first line, which tells the seed.
pub fn add_head_line(text: &mut String, seed: u64) -> Result<(), AllocError>
    ensures { OnOk result (string_bytes text.new ≡ string_bytes text.old ++ head_line seed) }
{
    writeln!(text, "load {seed}")
}

// Adds the line of a guild with these numbers.
fn add_counts(text: &mut String, guild: u64, counts: Counts) -> Result<(), AllocError>
    ensures { OnOk result (string_bytes text.new ≡ string_bytes text.old ++ guild_line guild counts) }
{
    writeln!(
        text,
        "guild {} entries {} accepted {} members {} roles {} channels {} active {} archived {}",
        guild,
        counts.entries,
        counts.accepted,
        counts.members,
        counts.roles,
        counts.channels,
        counts.active,
        counts.archived,
    )
}

/// Adds the line of a guild's sealed log.
///
/// # Errors
/// Out of memory. A front of the line may have been added then.
pub fn add_guild_line<R: Wait + Drop>(
    text: &mut String,
    guild: Snowflake,
    log: &SealedLog<R>,
) -> Result<(), AllocError>
    ensures { OnOk result (string_bytes text.new ≡ string_bytes text.old ++ guild_text (guild, log.now)) }
{
    add_counts(text, guild.0, counts_of(log))
}

/// Adds the line of a client: for how many guilds what it holds agrees with the logs.
pub fn add_session_line(text: &mut String, number: usize, agree: usize) -> Result<(), AllocError>
    ensures { OnOk result (string_bytes text.new ≡ string_bytes text.old ++ session_line number agree) }
{
    writeln!(text, "session {number} agree {agree}")
}

/// Adds the last line, which tells the entries of all logs.
pub fn add_done_line(text: &mut String, entries: u128) -> Result<(), AllocError>
    ensures { OnOk result (string_bytes text.new ≡ string_bytes text.old ++ done_line entries) }
{
    writeln!(text, "done {entries}")
}
