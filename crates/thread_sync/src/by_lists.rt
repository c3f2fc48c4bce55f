//! What a change of permissions uncovers to a viewer, by the lists of what it saw before.

ghost use Rattle.std.specs.Prelude.{◌≡◌, ◌&&◌, ◌==◌, is_some, IfOk};
ghost use Rattle.std.specs.List.{list_any};
ghost use Rattle.thread_sync.specs.Shown.{shows, by_standing};
ghost use Rattle.thread_sync.specs.Seen.{by_lists};
ghost use Rattle.thread_sync.specs.Sync.{is_new, uncovers, is_gained, uncovered_to, uncovered};

use crate::channel_sight::sights;
use crate::list_sync::{is_uncovered, list_sync};
use crate::seen::Seen;
use crate::shown::Shows;
use dispatch_types::{Dispatch, Viewer};
use guild_model::{Channel, Guild, Member, Thread};
use overwrite_eval::StandingRef;
use snowflake_id::Snowflake;
use std::alloc::{AllocError, Global};

/// The sync of what a member sees now and did not see before, `was` being what it saw (Gateway Events,
/// Thread List Sync; Threads, Syncing for Channel Gain).
pub fn uncovered_to(
    alloc: Global,
    was: &Seen,
    guild: &Guild,
    me: &Member,
) -> Result<Option<Dispatch>, AllocError>
    ensures { IfOk result (λ told. told ≡ uncovered_to (by_lists was.now) guild.now me.now) }
{
    let standing = StandingRef::in_guild(guild, me);
    let now = sights(alloc, &standing, me.user.id, guild.channels.as_slice())?;
    list_sync(alloc, was, &now, guild, me.user.id)
}

/// The sync of what a viewer's user sees now and did not see before, `was` being what it saw: each
/// parent that it sees, and either did not see before or sees a private thread in that it did not see
/// before, with all active threads in these that it sees and its memberships in them. `None` exactly if
/// no parent is gained, as to a user that is no member (Gateway Events, Thread List Sync; Threads,
/// Syncing for Channel Gain).
pub fn uncovered(
    alloc: Global,
    was: &Seen,
    guild: &Guild,
    viewer: &Viewer,
) -> Result<Option<Dispatch>, AllocError>
    ensures { IfOk result (λ told. told ≡ uncovered (by_lists was.now) guild.now viewer.now.user) }
{
    match guild.member(viewer.user) {
        Some(me) => uncovered_to(alloc, was, guild, me),
        None => Ok(None),
    }
}

// Whether a thread of a channel is uncovered.
fn is_uncovered_in(was: &Seen, standing: &StandingRef, channel: Snowflake, thread: &Thread) -> bool
    ensures { result ≡ (thread.now.parent == channel
        && (shows standing.now thread.now && is_new (by_lists was.now) thread.now)) }
{
    thread.parent == channel && is_uncovered(was, standing, thread)
}

fn is_any_uncovered(
    was: &Seen,
    standing: &StandingRef,
    threads: &[Thread],
    channel: Snowflake,
) -> bool
    ensures { result ≡ uncovers (by_lists was.now) (by_standing standing.now) threads.now channel }
{
    threads
        .iter()
        .any(|thread| is_uncovered_in(was, standing, channel, thread))
}

// Whether a channel is a parent that is gained, as `list_sync` has it.
fn is_gained(was: &Seen, standing: &StandingRef, threads: &[Thread], channel: &Channel) -> bool
    ensures { result ≡ is_gained (by_lists was.now) (by_standing standing.now)
        (uncovers (by_lists was.now) (by_standing standing.now) threads.now) channel.now }
{
    channel.kind.has_threads()
        && standing.shows_channel(channel.id)
        && (!was.shows_channel(channel.id) || is_any_uncovered(was, standing, threads, channel.id))
}

fn is_any_gained(
    was: &Seen,
    standing: &StandingRef,
    threads: &[Thread],
    channels: &[Channel],
) -> bool
    ensures { result ≡ list_any (is_gained (by_lists was.now) (by_standing standing.now)
        (uncovers (by_lists was.now) (by_standing standing.now) threads.now)) channels.now }
{
    channels
        .iter()
        .any(|channel| is_gained(was, standing, threads, channel))
}

// Whether a member gains a parent.
fn gains(was: &Seen, guild: &Guild, me: &Member) -> bool
    ensures { result ≡ is_some (uncovered_to (by_lists was.now) guild.now me.now) }
{
    let standing = StandingRef::in_guild(guild, me);
    let threads = guild.threads.as_slice();
    is_any_gained(was, &standing, threads, guild.channels.as_slice())
}

/// Whether [`uncovered`] gives a sync. Does not allocate.
pub fn gained(was: &Seen, guild: &Guild, viewer: &Viewer) -> bool
    ensures { result ≡ is_some (uncovered (by_lists was.now) guild.now viewer.now.user) }
{
    match guild.member(viewer.user) {
        Some(me) => gains(was, guild, me),
        None => false,
    }
}
