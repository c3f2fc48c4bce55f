//! What is told of one thread (Gateway Events, Thread Create to Thread Members Update).

ghost use Rattle.std.specs.Prelude.{◌≡◌, ◌++◌, OnOk, Some};
ghost use Rattle.event_views.specs.Threads.{members_update, member_comes, thread_creates, thread_updates, thread_joins, thread_leaves};

use crate::recipient::Recipient;
use collections::Seq;
use dispatch_types::{
    Dispatch, ThreadCount, ThreadCreate, ThreadMemberObject, ThreadMembersUpdate, ThreadObject,
};
use guild_model::{Thread, ThreadMember};
use intent_set::Kind;
use snowflake_id::Snowflake;
use std::alloc::{AllocError, Global};
use thread_sync::own_membership;

/// Adds THREAD_CREATE of a thread that the viewer begins to see, with the viewer's own membership if
/// it is in the thread. `newly` if the thread itself is new.
pub fn add_created(
    alloc: Global,
    to: &Recipient<'_>,
    newly: bool,
    thread: &Thread,
    list: &mut Vec<Dispatch>,
) -> Result<(), AllocError>
    ensures { OnOk result (list.new.items
        ≡ list.old.items ++ thread_creates to.now.after.id to.now.viewer newly (Some thread.now)) }
{
    if !to.asks(Kind::ThreadCreate, false) {
        return Ok(());
    }
    list.push(Dispatch::ThreadCreate(ThreadCreate {
        thread: ThreadObject::of(alloc, to.guild(), thread)?,
        newly_created: newly,
        member: own_membership(to.user(), thread),
    }))?;
    Ok(())
}

/// Adds THREAD_UPDATE of a thread.
pub fn add_updated(
    alloc: Global,
    to: &Recipient<'_>,
    thread: &Thread,
    list: &mut Vec<Dispatch>,
) -> Result<(), AllocError>
    ensures { OnOk result (list.new.items
        ≡ list.old.items ++ thread_updates to.now.after.id to.now.viewer (Some thread.now)) }
{
    if !to.asks(Kind::ThreadUpdate, false) {
        return Ok(());
    }
    let object = ThreadObject::of(alloc, to.guild(), thread)?;
    list.push(Dispatch::ThreadUpdate(object))?;
    Ok(())
}

// THREAD_MEMBERS_UPDATE of a thread, with how many are in it now.
fn members_update(
    guild: Snowflake,
    thread: &Thread,
    added: Seq<ThreadMemberObject>,
    removed: Seq<Snowflake>,
) -> Dispatch
    ensures { result ≡ Dispatch.ThreadMembersUpdate (members_update guild thread.now added removed) }
{
    Dispatch::ThreadMembersUpdate(ThreadMembersUpdate {
        guild,
        id: thread.id,
        count: ThreadCount::of(thread.members.len()),
        added,
        removed,
    })
}

fn add_member(
    alloc: Global,
    to: &Recipient<'_>,
    thread: &Thread,
    member: &ThreadMember,
    list: &mut Vec<Dispatch>,
) -> Result<(), AllocError>
    ensures { OnOk result (list.new.items
        ≡ list.old.items ++ member_comes to.now.after.id to.now.viewer thread.now (Some member.now)) }
{
    if !to.asks(Kind::ThreadMembersUpdate, member.user == to.user()) {
        return Ok(());
    }
    let mut added = Seq::new(alloc);
    added.push(ThreadMemberObject::of(thread.id, member))?;
    let update = members_update(to.guild(), thread, added, Seq::new(alloc));
    list.push(update)?;
    Ok(())
}

/// Adds THREAD_MEMBERS_UPDATE of a user that is in a thread now; nothing if the user is not in it.
pub fn add_joined(
    alloc: Global,
    to: &Recipient<'_>,
    user: Snowflake,
    thread: &Thread,
    list: &mut Vec<Dispatch>,
) -> Result<(), AllocError>
    ensures { OnOk result (list.new.items
        ≡ list.old.items ++ thread_joins to.now.after.id to.now.viewer user (Some thread.now)) }
{
    match thread.members.get(user.0) {
        Some(member) => add_member(alloc, to, thread, member, list),
        None => Ok(()),
    }
}

/// Adds THREAD_MEMBERS_UPDATE of a user that is no longer in a thread.
pub fn add_left(
    alloc: Global,
    to: &Recipient<'_>,
    user: Snowflake,
    thread: &Thread,
    list: &mut Vec<Dispatch>,
) -> Result<(), AllocError>
    ensures { OnOk result (list.new.items
        ≡ list.old.items ++ thread_leaves to.now.after.id to.now.viewer user (Some thread.now)) }
{
    if !to.asks(Kind::ThreadMembersUpdate, user == to.user()) {
        return Ok(());
    }
    let mut removed = Seq::new(alloc);
    removed.push(user)?;
    let update = members_update(to.guild(), thread, Seq::new(alloc), removed);
    list.push(update)?;
    Ok(())
}
