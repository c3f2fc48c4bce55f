//! What a change of owner, roles or members uncovers, by the sights of the channels before it.

ghost use Rattle.std.specs.Prelude.{◌≡◌, IfOk, filter};
ghost use Rattle.collections.specs.ById.{IsById};
ghost use Rattle.guild_model.specs.Sight.{standing};
ghost use Rattle.thread_sync.specs.ChannelSights.{sight_id, sights, by_sights, is_grown};
ghost use Rattle.thread_sync.specs.Sync.{uncovered_to};

use crate::channel_sight::{ChannelSight, sights};
use crate::list_sync::list_sync;
use collections::ById;
use dispatch_types::Dispatch;
use guild_model::{Guild, Member};
use overwrite_eval::StandingRef;
use std::alloc::{AllocError, Global};

/// What a member is granted in those channels that it sees, as far as sight goes, ascending
/// (Permissions, VIEW_CHANNEL, MANAGE_THREADS).
///
/// # Errors
/// Out of memory.
pub fn sights_of(
    alloc: Global,
    guild: &Guild,
    me: &Member,
) -> Result<ById<ChannelSight>, AllocError>
    ensures { IfOk result (λ found. found ≡ sights (standing guild.now me.now)) }
{
    let standing = StandingRef::in_guild(guild, me);
    sights(alloc, &standing, me.user.id, guild.channels.as_slice())
}

// Whether a sight may show what was not shown before.
fn is_grown(before: &ById<ChannelSight>, sight: &ChannelSight) -> bool
    ensures { result ≡ is_grown before.now sight.now }
{
    match before.get(sight.channel.0) {
        Some(was) => !was.covers(sight),
        None => true,
    }
}

fn grown_in(
    alloc: Global,
    before: &ById<ChannelSight>,
    sights: &[ChannelSight],
) -> Result<Vec<ChannelSight>, AllocError>
    ensures { IfOk result (λ grown. grown.items ≡ filter (is_grown before.now) sights.now) }
{
    sights
        .iter()
        .filter(|sight| is_grown(before, sight))
        .copied()
        .collect(alloc)
}

// Of sights, those of channels in which the member may see what it did not see before.
fn grown(
    alloc: Global,
    before: &ById<ChannelSight>,
    sights: &[ChannelSight],
) -> Result<ById<ChannelSight>, AllocError>
    requires { IsById sight_id sights.now }
    ensures { IfOk result (λ grown. grown ≡ filter (is_grown before.now) sights.now) }
{
    let grown = grown_in(alloc, before, sights)?;
    Ok(ById::from_ascending(grown))
}

/// The sync of what a member sees now and did not see before, by the sights of the channels before and now (Gateway
/// Events, Thread List Sync; Threads, Syncing for Channel Gain). It looks at threads only if the sight of a channel
/// grew.
///
/// # Errors
/// Out of memory.
pub fn uncovered_between(
    alloc: Global,
    before: &ById<ChannelSight>,
    now: &ById<ChannelSight>,
    guild: &Guild,
    me: &Member,
) -> Result<Option<Dispatch>, AllocError>
    requires { now.now ≡ sights (standing guild.now me.now) }
    ensures { IfOk result (λ told. told ≡ uncovered_to (by_sights before.now) guild.now me.now) }
{
    let grown = grown(alloc, before, now.as_slice())?;
    if grown.len() == 0 {
        return Ok(None);
    }
    list_sync(alloc, before, &grown, guild, me.user.id)
}

/// The sync of what a member sees now and did not see before, `before` being the sights of the channels
/// then (Gateway Events, Thread List Sync; Threads, Syncing for Channel Gain).
///
/// # Errors
/// Out of memory.
pub fn uncovered_by_sights(
    alloc: Global,
    before: &ById<ChannelSight>,
    guild: &Guild,
    me: &Member,
) -> Result<Option<Dispatch>, AllocError>
    ensures { IfOk result (λ told. told ≡ uncovered_to (by_sights before.now) guild.now me.now) }
{
    let now = sights_of(alloc, guild, me)?;
    uncovered_between(alloc, before, &now, guild, me)
}
