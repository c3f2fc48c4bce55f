//! THREAD_LIST_SYNC.

ghost use Rattle.std.specs.Prelude.{◌≡◌, ◌==◌, ◌||◌, [], not, filter, map, option_map, OnOk, OnErr, IfOk};
ghost use Rattle.std.specs.List.{find};
ghost use Rattle.collections.specs.ById.{has_id, put_all};
ghost use Rattle.guild_model.specs.Record.{own_id};
ghost use Rattle.dispatch_types.specs.declared.view.ThreadView.{ThreadView};
ghost use Rattle.dispatch_types.specs.declared.threads.ThreadMemberObject.{ThreadMemberObject};
ghost use Rattle.dispatch_types.specs.Objects.{thread_member_of};
ghost use Rattle.dispatch_types.specs.Fold.{thread_view_id, synced_thread, sync_threads};
ghost use Rattle.client_cache.specs.Sent.{object_id};

use crate::fold::Fold;
use crate::objects::thread_member_of;
use crate::threads::thread_of;
use collections::{ById, Seq};
use dispatch_types::{OpenView, ThreadListSync, ThreadMemberObject, ThreadObject, ThreadView};
use guild_model::ThreadMember;
use snowflake_id::Snowflake;
use std::alloc::{AllocError, Global};

// The own membership in a thread, the first among some.
fn listed_membership(members: &[ThreadMemberObject], thread: Snowflake) -> Option<ThreadMember>
    ensures { result ≡ option_map thread_member_of
        (find (λ (m : ThreadMemberObject). m.thread == thread) members.now) }
{
    let listed = members.iter().find(|member| member.thread == thread);
    listed.map(thread_member_of)
}

fn synced_thread(fold: &Fold, members: &[ThreadMemberObject], object: ThreadObject) -> ThreadView
    ensures { result ≡ synced_thread fold.now.intents members.now object }
{
    let mine = listed_membership(members, object.id);
    thread_of(fold, mine, object)
}

fn synced_threads(
    fold: &Fold,
    members: &[ThreadMemberObject],
    objects: Seq<ThreadObject>,
) -> Result<Vec<ThreadView>, AllocError>
    ensures { IfOk result (λ views. views.items
        ≡ map (synced_thread fold.now.intents members.now) objects) }
{
    let mut views = Vec::with_capacity(fold.alloc, objects.len())?;
    for object in objects.into_vec() {
        views.push(synced_thread(fold, members, object))?;
    }
    Ok(views)
}

fn thread_id(object: &ThreadObject) -> Snowflake
    ensures { result ≡ object_id object.now }
{
    object.id
}

fn thread_ids(alloc: Global, objects: &[ThreadObject]) -> Result<Vec<Snowflake>, AllocError>
    ensures { IfOk result (λ ids. ids.items ≡ map object_id objects.now) }
{
    objects.iter().map(thread_id).collect(alloc)
}

// The ids of the listed threads.
fn listed_ids(alloc: Global, objects: &Seq<ThreadObject>) -> Result<ById<Snowflake>, AllocError>
    ensures { IfOk result (λ ids. ids ≡ put_all own_id [] (map object_id objects.now)) }
{
    ById::of(alloc, thread_ids(alloc, objects.as_slice())?)
}

// The parents, in order.
fn listed_parents(alloc: Global, parents: Seq<Snowflake>) -> Result<ById<Snowflake>, AllocError>
    ensures { IfOk result (λ ids. ids ≡ put_all own_id [] parents) }
{
    ById::of(alloc, parents.into_vec())
}

// Keeps the threads under other parents, and those that are listed.
fn keep_synced(threads: &mut ById<ThreadView>, parents: &ById<Snowflake>, listed: &ById<Snowflake>)
    ensures { threads.new ≡ filter (λ (t : ThreadView). not (has_id own_id t.parent parents.now)
        || has_id own_id t.id listed.now) threads.old }
{
    threads.retain(|thread| { !parents.contains(thread.parent.0) || listed.contains(thread.id.0) });
}

// Sets the listed threads first, so that out of memory changes nothing, and then removes the others
// under the listed parents.
fn sync_under(
    fold: &Fold,
    threads: &mut ById<ThreadView>,
    parents: &ById<Snowflake>,
    objects: Seq<ThreadObject>,
    members: &[ThreadMemberObject],
) -> Result<(), AllocError>
    ensures ok { OnOk result (threads.new ≡ put_all thread_view_id
        (filter (λ (t : ThreadView). not (has_id own_id t.parent parents.now)) threads.old)
        (map (synced_thread fold.now.intents members.now) objects)) }
    ensures err { OnErr result (threads.new ≡ threads.old) }
{
    let listed = listed_ids(fold.alloc, &objects)?;
    let synced = synced_threads(fold, members, objects)?;
    // Brings the list's invariant into the proof.
    let _threads = threads.as_slice();
    threads.put_all(synced)?;
    keep_synced(threads, parents, &listed);
    Ok(())
}

/// Replaces all threads of the listed parents by those that are listed, with the own memberships
/// that are listed (Gateway Events, Thread List Sync).
pub(crate) fn sync_threads(
    fold: &Fold,
    view: &mut OpenView,
    sync: ThreadListSync,
) -> Result<(), AllocError>
    ensures ok { OnOk result (view.new ≡ sync_threads fold.now.intents sync view.old) }
    ensures err { OnErr result (view.new ≡ view.old) }
{
    let (channels, threads, members) = sync.into_lists();
    let parents = listed_parents(fold.alloc, channels)?;
    let members = members.as_slice();
    sync_under(fold, &mut view.threads, &parents, threads, members)
}
