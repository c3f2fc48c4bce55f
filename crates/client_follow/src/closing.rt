//! What is written at the end.

ghost use Rattle.std.specs.Prelude.{◌≡◌, ◌++◌, ◌∷◌, List, ℕ, OnOk, is_ok, if◌then◌else◌, option_to_list, option_map};
ghost use Rattle.std.specs.Option.{option_copied};
ghost use Rattle.client_cache.specs.Cached.{Cached as ACached};
ghost use Rattle.client_follow.specs.Lines.{AreGuildLines, guild_line, count_line};
ghost use Rattle.client_follow.specs.Follows.{Says, fault_line};

use client_cache::Cache;
use client_run::{DriveFault, Driven};
use dispatch_types::GuildView;
use itoa::Buffer;
use payload_text::append_all;
use snowflake_id::Snowflake;
use std::alloc::AllocError;

// Adds the line of a guild with these numbers.
fn add_counts(
    text: &mut Vec<u8>,
    guild: Snowflake,
    channels: usize,
    threads: usize,
    members: usize,
) -> Result<(), AllocError>
    ensures { text.new.items ≡ (if is_ok result then text.old.items ++ count_line guild channels threads members else text.old.items) }
{
    let mut guild_buffer = Buffer::new();
    let mut channels_buffer = Buffer::new();
    let mut threads_buffer = Buffer::new();
    let mut members_buffer = Buffer::new();
    let guild = guild_buffer.format(guild.0);
    let channels = channels_buffer.format(channels);
    let threads = threads_buffer.format(threads);
    let members = members_buffer.format(members);
    append_all(
        text,
        &[
            "guild ",
            guild,
            " channels ",
            channels,
            " threads ",
            threads,
            " members ",
            members,
            "\n",
        ],
    )
}

// Adds the line of a guild by its view.
fn add_guild_line(
    text: &mut Vec<u8>,
    guild: Snowflake,
    view: Option<&GuildView>,
) -> Result<(), AllocError>
    ensures { text.new.items ≡ (if is_ok result then text.old.items ++ guild_line guild (option_copied view.entry) else text.old.items) }
{
    match view {
        None => Ok(()),
        Some(GuildView::Unavailable) => add_counts(text, guild, 0, 0, 0),
        Some(GuildView::Open(view)) => add_counts(
            text,
            guild,
            view.channels.len(),
            view.threads.len(),
            view.members.len(),
        ),
    }
}

// Adds a line for each guild of which the client holds a view.
fn add_guild_lines(text: &mut Vec<u8>, cache: &Cache) -> Result<(), AllocError>
    ensures { (said : List ℕ) × AreGuildLines cache.now said × OnOk result (text.new.items ≡ text.old.items ++ said) }
{
    for guild in cache.guilds() {
        if let Err(error) = add_guild_line(text, *guild, cache.view(*guild)) {
            return Err(error);
        }
    }
    Ok(())
}

// Adds what is said of a fault.
fn add_fault(text: &mut Vec<u8>, fault: DriveFault) -> Result<(), AllocError>
    ensures { text.new.items ≡ (if is_ok result then text.old.items ++ fault_line fault else text.old.items) }
{
    let mut buffer = Buffer::new();
    match fault {
        DriveFault::Out(code) => append_all(text, &["closed ", buffer.format(code), "\n"]),
        DriveFault::BadText => append_all(text, &["bad text", "\n"]),
        DriveFault::Dials | DriveFault::Memory => Ok(()),
    }
}

/// Adds what is said at the end of a client that has ended so, and holds this.
///
/// # Errors
/// Out of memory. A front may have been added then.
pub fn add_end(
    text: &mut Vec<u8>,
    ended: Result<Driven, DriveFault>,
    cache: &Cache,
) -> Result<(), AllocError>
    ensures { (said : List ℕ) × Says cache.now ended said × OnOk result (text.new.items ≡ text.old.items ++ said) }
{
    match ended {
        Ok(Driven::Finished) => add_guild_lines(text, cache),
        Ok(Driven::Stopped) => Ok(()),
        Err(fault) => add_fault(text, fault),
    }
}
