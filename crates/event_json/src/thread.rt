//! The bodies of THREAD_CREATE, THREAD_DELETE, THREAD_LIST_SYNC and THREAD_MEMBERS_UPDATE.

ghost use Rattle.std.specs.Prelude.{◌≡◌, OnOk};
ghost use Rattle.json_view.specs.Nodes.{view};
ghost use Rattle.object_json.specs.Reading.{UnlessMemory};
ghost use Rattle.object_json.specs.Added.{Adds};
ghost use Rattle.event_json.specs.Thread.{thread_create_data, thread_delete_data, thread_list_sync_data, thread_members_update_data, thread_create_from, thread_delete_from, thread_list_sync_from, thread_members_update_from, ThreadCreateFits, ThreadDeleteFits, ThreadListSyncFits, ThreadMembersUpdateFits};

use dispatch_types::{
    ThreadCreate, ThreadDelete, ThreadListSync, ThreadMembersUpdate, ThreadObject,
};
use json::Writer;
use json_view::Node;
use object_json::fault::ReadFault;
use object_json::field::{close, id_field, open};
use object_json::readable::{Readable, list_at, list_if_at, optional_at};
use object_json::reading::{id_at, is_there, thread_kind_at};
use object_json::thread::{thread_count_at, thread_count_field, thread_kind_field, write_thread};
use object_json::written::{list_field, list_field_if};
use std::alloc::{AllocError, Global};

/// Writes the body of Thread Create.
pub fn write_thread_create(
    alloc: Global,
    out: &mut Writer,
    create: &ThreadCreate,
) -> Result<(), AllocError>
    ensures adds { Adds result out.old out.new (thread_create_data create.now) }
    ensures fits { OnOk result (ThreadCreateFits create.now) }
{
    write_thread(
        alloc,
        out,
        &create.member,
        create.newly_created,
        &create.thread,
    )
}

/// Writes the body of Thread Delete.
pub fn write_thread_delete(out: &mut Writer, delete: &ThreadDelete) -> Result<(), AllocError>
    ensures adds { Adds result out.old out.new (thread_delete_data delete.now) }
    ensures fits { OnOk result (ThreadDeleteFits delete.now) }
{
    open(out)?;
    id_field(out, "guild_id", delete.guild)?;
    id_field(out, "id", delete.id)?;
    id_field(out, "parent_id", delete.parent)?;
    thread_kind_field(out, delete.kind)?;
    close(out)?;
    Ok(())
}

/// Writes the body of Thread List Sync.
pub fn write_thread_list_sync(
    alloc: Global,
    out: &mut Writer,
    sync: &ThreadListSync,
) -> Result<(), AllocError>
    ensures adds { Adds result out.old out.new (thread_list_sync_data sync.now) }
    ensures fits { OnOk result (ThreadListSyncFits sync.now) }
{
    open(out)?;
    list_field(alloc, out, "channel_ids", &sync.channels)?;
    id_field(out, "guild_id", sync.guild)?;
    list_field(alloc, out, "members", &sync.members)?;
    list_field(alloc, out, "threads", &sync.threads)?;
    close(out)?;
    Ok(())
}

/// Writes the body of Thread Members Update.
pub fn write_thread_members_update(
    alloc: Global,
    out: &mut Writer,
    update: &ThreadMembersUpdate,
) -> Result<(), AllocError>
    ensures adds { Adds result out.old out.new (thread_members_update_data update.now) }
    ensures fits { OnOk result (ThreadMembersUpdateFits update.now) }
{
    open(out)?;
    list_field_if(alloc, out, "added_members", &update.added)?;
    id_field(out, "guild_id", update.guild)?;
    id_field(out, "id", update.id)?;
    thread_count_field(out, update.count)?;
    list_field_if(alloc, out, "removed_member_ids", &update.removed)?;
    close(out)?;
    Ok(())
}

/// Reads the body of Thread Create.
pub fn read_thread_create(alloc: Global, body: &Node<'_>) -> Result<ThreadCreate, ReadFault>
    ensures { UnlessMemory result (thread_create_from (view body.now)) }
{
    let thread = ThreadObject::read(alloc, body)?;
    let member = optional_at(alloc, body, "member")?;
    let newly_created = is_there(body, "newly_created");
    Ok(ThreadCreate {
        thread,
        newly_created,
        member,
    })
}

/// Reads the body of Thread Delete.
pub fn read_thread_delete(body: &Node<'_>) -> Result<ThreadDelete, ReadFault>
    ensures { result ≡ thread_delete_from (view body.now) }
{
    let guild = id_at(body, "guild_id")?;
    let id = id_at(body, "id")?;
    let parent = id_at(body, "parent_id")?;
    let kind = thread_kind_at(body, "type")?;
    Ok(ThreadDelete {
        guild,
        id,
        parent,
        kind,
    })
}

/// Reads the body of Thread List Sync.
pub fn read_thread_list_sync(alloc: Global, body: &Node<'_>) -> Result<ThreadListSync, ReadFault>
    ensures { UnlessMemory result (thread_list_sync_from (view body.now)) }
{
    let channels = list_at(alloc, body, "channel_ids")?;
    let guild = id_at(body, "guild_id")?;
    let members = list_at(alloc, body, "members")?;
    let threads = list_at(alloc, body, "threads")?;
    Ok(ThreadListSync {
        guild,
        channels,
        threads,
        members,
    })
}

/// Reads the body of Thread Members Update.
pub fn read_thread_members_update(
    alloc: Global,
    body: &Node<'_>,
) -> Result<ThreadMembersUpdate, ReadFault>
    ensures { UnlessMemory result (thread_members_update_from (view body.now)) }
{
    let added = list_if_at(alloc, body, "added_members")?;
    let guild = id_at(body, "guild_id")?;
    let id = id_at(body, "id")?;
    let count = thread_count_at(body)?;
    let removed = list_if_at(alloc, body, "removed_member_ids")?;
    Ok(ThreadMembersUpdate {
        guild,
        id,
        count,
        added,
        removed,
    })
}
