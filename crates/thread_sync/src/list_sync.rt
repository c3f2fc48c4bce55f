//! THREAD_LIST_SYNC of what is shown now and was not shown before, whatever either is known by (Gateway
//! Events, Thread List Sync; Threads, Syncing for Channel Gain).

ghost use Rattle.std.specs.Prelude.{◌≡◌, ℕ, ◌&&◌, IfOk, map, filter};
ghost use Rattle.std.specs.List.{list_any, filter_map};
ghost use Rattle.guild_model.specs.Record.{channel_id};
ghost use Rattle.dispatch_types.specs.Objects.{thread_object};
ghost use Rattle.thread_sync.specs.Seen.{is_among};
ghost use Rattle.thread_sync.specs.Sync.{is_new, uncovers, is_gained, threads_in, own_membership, listing, list_sync};

use crate::shown::Shows;
use collections::{ById, Seq};
use dispatch_types::{Dispatch, ThreadListSync, ThreadMemberObject, ThreadObject};
use guild_model::{Channel, Guild, Thread};
use snowflake_id::Snowflake;
use std::alloc::{AllocError, Global};

// Whether a thread is an active private one that is shown now, and was not shown before.
pub(crate) fn is_uncovered<B: Shows, N: Shows>(before: &B, now: &N, thread: &Thread) -> bool
    ensures { result
        ≡ ((N.shown now.now).thread thread.now && is_new (B.shown before.now) thread.now) }
{
    thread.kind.is_private() && now.shows_thread(thread) && !before.shows_thread(thread)
}

// The parents of such threads.
fn uncovered_parents<B: Shows, N: Shows>(
    alloc: Global,
    before: &B,
    now: &N,
    threads: &[Thread],
) -> Result<ById<Snowflake>, AllocError>
    ensures { IfOk result (λ parents. (id : ℕ) → is_among parents id
        ≡ uncovers (B.shown before.now) (N.shown now.now) threads.now id) }
{
    let mut parents = ById::new(alloc);
    for thread in threads {
        if is_uncovered(before, now, thread) {
            parents.put(thread.parent)?;
        }
    }
    Ok(parents)
}

// Whether a channel is a parent that is gained.
fn is_gained<B: Shows, N: Shows>(
    before: &B,
    now: &N,
    uncovered: &ById<Snowflake>,
    channel: &Channel,
) -> bool
    ensures { result ≡ is_gained (B.shown before.now) (N.shown now.now) (is_among uncovered.now) channel.now }
{
    channel.kind.has_threads()
        && now.shows_channel(channel.id)
        && (!before.shows_channel(channel.id) || uncovered.contains(channel.id.0))
}

fn gained_parents<B: Shows, N: Shows>(
    alloc: Global,
    before: &B,
    now: &N,
    uncovered: &ById<Snowflake>,
    channels: &[Channel],
) -> Result<Vec<Snowflake>, AllocError>
    ensures { IfOk result (λ ids. ids.items ≡ map channel_id
        (filter (is_gained (B.shown before.now) (N.shown now.now) (is_among uncovered.now)) channels.now)) }
{
    channels
        .iter()
        .filter(|channel| is_gained(before, now, uncovered, channel))
        .map(|channel| channel.id)
        .collect(alloc)
}

// Whether a thread is listed: it is in one of these parents, active and shown.
fn is_listed<N: Shows>(now: &N, parents: &ById<Snowflake>, thread: &Thread) -> bool
    ensures { result
        ≡ (is_among parents.now thread.now.parent && (N.shown now.now).thread thread.now) }
{
    parents.contains(thread.parent.0) && now.shows_thread(thread)
}

// The threads that are listed.
fn listed<'a, N: Shows>(
    alloc: Global,
    now: &N,
    parents: &ById<Snowflake>,
    threads: &'a [Thread],
) -> Result<Vec<&'a Thread>, AllocError>
    ensures { IfOk result (λ listed. map (λ thread. thread.now) listed.items
        ≡ threads_in (N.shown now.now) parents.now threads.now) }
{
    threads
        .iter()
        .filter(|thread| is_listed(now, parents, thread))
        .collect(alloc)
}

fn objects(
    alloc: Global,
    guild: Snowflake,
    threads: &[&Thread],
) -> Result<Seq<ThreadObject>, AllocError>
    ensures { IfOk result (λ objects. objects ≡ map (thread_object guild) (map (λ thread. thread.now) threads.now)) }
{
    let mut objects = Seq::new(alloc);
    for thread in threads {
        objects.push(ThreadObject::of(alloc, guild, thread)?)?;
    }
    Ok(objects)
}

/// A user's membership in a thread in wire form, `None` exactly if the user is not in it (Channels
/// Resource, Thread Member Object).
pub fn own_membership(user: Snowflake, thread: &Thread) -> Option<ThreadMemberObject>
    ensures { result ≡ own_membership user thread.now }
{
    match thread.members.get(user.0) {
        Some(member) => Some(ThreadMemberObject::of(thread.id, member)),
        None => None,
    }
}

fn own_memberships(
    alloc: Global,
    user: Snowflake,
    threads: &[&Thread],
) -> Result<Seq<ThreadMemberObject>, AllocError>
    ensures { IfOk result (λ members. members ≡ filter_map (own_membership user) (map (λ thread. thread.now) threads.now)) }
{
    let mut members = Seq::new(alloc);
    for thread in threads {
        if let Some(member) = own_membership(user, thread) {
            members.push(member)?;
        }
    }
    Ok(members)
}

// The sync of some parents, with these threads in them.
fn listing(
    alloc: Global,
    guild: Snowflake,
    user: Snowflake,
    parents: Seq<Snowflake>,
    threads: &[&Thread],
) -> Result<Dispatch, AllocError>
    ensures { IfOk result (λ told. told ≡ listing guild user parents (map (λ thread. thread.now) threads.now)) }
{
    let members = own_memberships(alloc, user, threads)?;
    Ok(Dispatch::ThreadListSync(ThreadListSync {
        guild,
        channels: parents,
        threads: objects(alloc, guild, threads)?,
        members,
    }))
}

// The sync to a user of what is shown now of a guild and was not shown before: each parent that was
// gained, with all active threads in it that are shown and the user's memberships in them. `None`
// exactly if no parent was gained.
pub(crate) fn list_sync<B: Shows, N: Shows>(
    alloc: Global,
    before: &B,
    now: &N,
    guild: &Guild,
    user: Snowflake,
) -> Result<Option<Dispatch>, AllocError>
    ensures { IfOk result (λ told. told
        ≡ list_sync (B.shown before.now) (N.shown now.now) guild.now user) }
{
    let threads = guild.threads.as_slice();
    let uncovered = uncovered_parents(alloc, before, now, threads)?;
    let channels = guild.channels.as_slice();
    let gained = gained_parents(alloc, before, now, &uncovered, channels)?;
    if gained.is_empty() {
        return Ok(None);
    }
    let parents = ById::from_ascending(Vec::from_slice(alloc, gained.as_slice())?);
    let listed = listed(alloc, now, &parents, threads)?;
    let told = Seq::from_vec(gained);
    let sync = listing(alloc, guild.id, user, told, listed.as_slice())?;
    Ok(Some(sync))
}
