//! Threads and the users in them.

ghost use Rattle.std.specs.Prelude.{◌≡◌, ◌≤◌, ◌++◌, ◌∷◌, OnOk, IfSome, [], codes, option_map};
ghost use Rattle.json.specs.Token.{begin_object};
ghost use Rattle.object_json.specs.Added.{Adds, AddsTokens, Ends, member_tokens, member_tokens_if};
ghost use Rattle.object_json.specs.Kinds.{digits, count};
ghost use Rattle.guild_model.specs.Numbers.{thread_kind_number};
ghost use Rattle.json_view.specs.Nodes.{view};
ghost use Rattle.object_json.specs.Reading.{UnlessMemory, optional_at};
ghost use Rattle.object_json.specs.Fits.{IsId, IsMoment};
ghost use Rattle.object_json.specs.Thread.{ThreadMemberFits, ThreadRestFits, ThreadFits, thread_count_at, archived_at, joined_from, thread_data, thread_rest, thread_member_data, joined_data, metadata_data};

use crate::fault::ReadFault;
use crate::field::{
    close, flag_field, id_field, key, number_field, open, small_field, text_field, time_field,
    true_field_if,
};
use crate::readable::{Readable, value_at};
use crate::reading::{field_at, flag_at, id_at, number_at, text_at, thread_kind_at};
use crate::written::{Written, value_field};
use dispatch_types::{JoinedThread, ThreadCount, ThreadMemberObject, ThreadObject};
use guild_model::{Moment, ThreadKind};
use json::Writer;
use json_view::{JsonValue, Node};
use std::alloc::{AllocError, Global};

/// Writes a thread's type under its key.
pub fn thread_kind_field(out: &mut Writer, kind: ThreadKind) -> Result<(), AllocError>
    ensures { AddsTokens result out.old out.new (member_tokens (codes "type") (count (thread_kind_number kind))) }
{
    number_field(out, "type", kind.number())?;
    Ok(())
}

impl Written for ThreadMemberObject {
    ghost use Rattle.object_json.specs.Thread.{thread_member_data};
    ghost use Rattle.object_json.specs.Thread.{ThreadMemberFits};

    ghost json = { thread_member_data };

    ghost Fits = { ThreadMemberFits };

    fn write(&self, alloc: Global, out: &mut Writer) -> Result<(), AllocError> {
        open(out)?;
        number_field(out, "flags", 0)?;
        id_field(out, "id", self.thread)?;
        time_field(alloc, out, "join_timestamp", self.joined)?;
        id_field(out, "user_id", self.user)?;
        close(out)?;
        Ok(())
    }
}

fn write_joined(alloc: Global, out: &mut Writer, joined: Moment) -> Result<(), AllocError>
    ensures adds { Adds result out.old out.new (joined_data joined) }
    ensures fits { OnOk result (IsMoment joined) }
{
    open(out)?;
    number_field(out, "flags", 0)?;
    time_field(alloc, out, "join_timestamp", joined)?;
    close(out)?;
    Ok(())
}

fn joined_field_if(
    alloc: Global,
    out: &mut Writer,
    joined: Option<Moment>,
) -> Result<(), AllocError>
    ensures adds { AddsTokens result out.old out.new (member_tokens_if (codes "member") (option_map joined_data joined)) }
    ensures fits { OnOk result (IfSome joined IsMoment) }
{
    let Some(joined) = joined else {
        return Ok(());
    };
    key(out, "member")?;
    write_joined(alloc, out, joined)?;
    Ok(())
}

fn member_field_if(
    alloc: Global,
    out: &mut Writer,
    member: &Option<ThreadMemberObject>,
) -> Result<(), AllocError>
    ensures adds { AddsTokens result out.old out.new (member_tokens_if (codes "member") (option_map thread_member_data member.now)) }
    ensures fits { OnOk result (IfSome member.now ThreadMemberFits) }
{
    match member {
        Some(member) => {
            value_field(alloc, out, "member", member)?;
            Ok(())
        }
        None => Ok(()),
    }
}

/// Writes how many users are in a thread under its key.
pub fn thread_count_field(out: &mut Writer, users: ThreadCount) -> Result<(), AllocError>
    ensures adds { AddsTokens result out.old out.new (member_tokens (codes "member_count") (count users)) }
    ensures fits { OnOk result (users ≤ 50) }
{
    small_field(out, "member_count", users.get())?;
    Ok(())
}

fn metadata_field(out: &mut Writer, archived: bool) -> Result<(), AllocError>
    ensures { AddsTokens result out.old out.new (member_tokens (codes "thread_metadata") (metadata_data archived)) }
{
    key(out, "thread_metadata")?;
    open(out)?;
    flag_field(out, "archived", archived)?;
    flag_field(out, "locked", false)?;
    close(out)?;
    Ok(())
}

fn begin_thread(out: &mut Writer, thread: &ThreadObject) -> Result<(), AllocError>
    ensures adds { AddsTokens result out.old out.new (begin_object ∷ (member_tokens (codes "guild_id") (digits thread.now.guild) ++ member_tokens (codes "id") (digits thread.now.id))) }
    ensures fits { OnOk result (IsId thread.now.guild × IsId thread.now.id) }
{
    open(out)?;
    id_field(out, "guild_id", thread.guild)?;
    id_field(out, "id", thread.id)?;
    Ok(())
}

fn end_thread(
    out: &mut Writer,
    newly_created: bool,
    thread: &ThreadObject,
) -> Result<(), AllocError>
    ensures adds { Ends result out.old out.new (thread_rest newly_created thread.now) }
    ensures fits { OnOk result (ThreadRestFits thread.now) }
{
    thread_count_field(out, thread.count)?;
    text_field(out, "name", &thread.name)?;
    true_field_if(out, "newly_created", newly_created)?;
    id_field(out, "owner_id", thread.owner)?;
    id_field(out, "parent_id", thread.parent)?;
    metadata_field(out, thread.archived)?;
    thread_kind_field(out, thread.kind)?;
    close(out)?;
    Ok(())
}

/// Writes a thread of a dispatch of its own: whether it is new, and the bot's own membership.
pub fn write_thread(
    alloc: Global,
    out: &mut Writer,
    member: &Option<ThreadMemberObject>,
    newly_created: bool,
    thread: &ThreadObject,
) -> Result<(), AllocError>
    ensures adds { Adds result out.old out.new (thread_data (option_map thread_member_data member.now) newly_created thread.now) }
    ensures fits { OnOk result (IfSome member.now ThreadMemberFits × ThreadFits thread.now) }
{
    begin_thread(out, thread)?;
    member_field_if(alloc, out, member)?;
    end_thread(out, newly_created, thread)?;
    Ok(())
}

/// A thread without the bot's membership.
impl Written for ThreadObject {
    ghost use Rattle.std.specs.Prelude.{None, false};
    ghost use Rattle.object_json.specs.Thread.{thread_data};
    ghost use Rattle.object_json.specs.Thread.{ThreadFits};

    ghost json = { thread_data None false };

    ghost Fits = { ThreadFits };

    fn write(&self, alloc: Global, out: &mut Writer) -> Result<(), AllocError> {
        write_thread(alloc, out, &None, false, self)
    }
}

/// A thread of Guild Create.
impl Written for JoinedThread {
    ghost use Rattle.object_json.specs.Thread.{joined_thread_data};
    ghost use Rattle.object_json.specs.Thread.{JoinedThreadFits};

    ghost json = { joined_thread_data };

    ghost Fits = { JoinedThreadFits };

    fn write(&self, alloc: Global, out: &mut Writer) -> Result<(), AllocError> {
        begin_thread(out, &self.thread)?;
        joined_field_if(alloc, out, self.joined)?;
        end_thread(out, false, &self.thread)?;
        Ok(())
    }
}

impl Readable for ThreadMemberObject {
    ghost use Rattle.object_json.specs.Thread.{thread_member_from};

    ghost from = { thread_member_from };

    fn read(alloc: Global, object: &Node<'_>) -> Result<ThreadMemberObject, ReadFault> {
        let thread = id_at(object, "id")?;
        let joined = value_at(alloc, object, "join_timestamp")?;
        let user = id_at(object, "user_id")?;
        Ok(ThreadMemberObject {
            thread,
            user,
            joined,
        })
    }
}

/// How many users are in a thread, at most 50.
pub fn thread_count_at(object: &Node<'_>) -> Result<ThreadCount, ReadFault>
    ensures { result ≡ thread_count_at (view object.now) }
{
    ThreadCount::new(number_at(object, "member_count")?).map_err(|_| ReadFault::BadField)
}

fn archived_at(object: &Node<'_>) -> Result<bool, ReadFault>
    ensures { result ≡ archived_at (view object.now) }
{
    let metadata = field_at(object, "thread_metadata")?;
    flag_at(metadata, "archived")
}

impl Readable for ThreadObject {
    ghost use Rattle.object_json.specs.Thread.{thread_from};

    ghost from = { thread_from };

    fn read(alloc: Global, object: &Node<'_>) -> Result<ThreadObject, ReadFault> {
        let guild = id_at(object, "guild_id")?;
        let id = id_at(object, "id")?;
        let count = thread_count_at(object)?;
        let name = text_at(alloc, object, "name")?;
        let owner = id_at(object, "owner_id")?;
        let parent = id_at(object, "parent_id")?;
        let archived = archived_at(object)?;
        let kind = thread_kind_at(object, "type")?;
        Ok(ThreadObject {
            guild,
            id,
            kind,
            name,
            owner,
            parent,
            archived,
            count,
        })
    }
}

fn joined_at(alloc: Global, object: &Node<'_>) -> Result<Option<Moment>, ReadFault>
    ensures { UnlessMemory result (optional_at joined_from (codes "member") (view object.now)) }
{
    match object.member("member") {
        None => Ok(None),
        Some(member) => Ok(Some(value_at(alloc, member, "join_timestamp")?)),
    }
}

impl Readable for JoinedThread {
    ghost use Rattle.object_json.specs.Thread.{joined_thread_from};

    ghost from = { joined_thread_from };

    fn read(alloc: Global, object: &Node<'_>) -> Result<JoinedThread, ReadFault> {
        let thread = ThreadObject::read(alloc, object)?;
        let joined = joined_at(alloc, object)?;
        Ok(JoinedThread { thread, joined })
    }
}
