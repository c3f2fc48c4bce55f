//! How many of a client's views are what the client may hold of sealed records.

ghost use Rattle.std.specs.Prelude.{◌≡◌, ◌↔◌, None, map, IfOk, IsTrue};
ghost use Rattle.load_client.specs.Agreement.{Agrees, AgreeSo};

use client_cache::Cache;
use dispatch_equality::same_or_none;
use dispatch_types::Viewer;
use guild_model::Guild;
use intent_set::Intents;
use projection::project;
use snowflake_id::Snowflake;
use std::alloc::{AllocError, Global};

/// The member count above which a guild is large to a bot that gives none (Gateway Events, Identify).
const LARGE_THRESHOLD: u16 = 50;

/// For whom the dispatches of a client are: the bot's user, with what it asks for.
pub fn viewer(user: Snowflake, intents: Intents) -> Viewer
    ensures { result ≡ record { user = user; intents = intents; shard = None; threshold = 50 } }
{
    Viewer {
        user,
        intents,
        shard: None,
        threshold: LARGE_THRESHOLD,
    }
}

/// Whether a client holds of a guild exactly what it may hold of the record: the record's projection to
/// its viewer and to the users that it knows there.
///
/// # Errors
/// Out of memory.
pub fn agrees(
    alloc: Global,
    cache: &Cache,
    viewer: &Viewer,
    record: &Guild,
) -> Result<bool, AllocError>
    ensures { IfOk result (λ agrees. IsTrue agrees ↔ Agrees viewer.now cache.now record.now) }
{
    let projected = project(alloc, record, viewer, cache.known(record.id))?;
    let is_same = same_or_none(cache.view(record.id), projected.as_ref());
    drop(projected);
    Ok(is_same)
}

/// How many of the guilds whose sealed records these are a client holds so.
///
/// # Errors
/// Out of memory.
pub fn agree(
    alloc: Global,
    cache: &Cache,
    viewer: &Viewer,
    records: &[&Guild],
) -> Result<usize, AllocError>
    ensures { IfOk result (λ count. AgreeSo viewer.now cache.now (map (λ guild. guild.now) records.now) count) }
{
    let mut count = 0;
    for record in records {
        if agrees(alloc, cache, viewer, record)? {
            count += 1;
        }
    }
    Ok(count)
}
