//! `thread_create`: creates an active thread with its owner in it (Gateway Events, Thread Create).

ghost use Rattle.std.specs.Prelude.{◌≡◌, ◌∷◌, [], None, true, OnOk, OnErr, IfOk};
ghost use Rattle.guild_model.specs.Tests.{outcome};
ghost use Rattle.guild_model.specs.Record.{channel_id};
ghost use Rattle.collections.specs.ById.{find_id};
ghost use Rattle.thread_edit.specs.Threads.{thread_create_verdict, thread_created, takes_thread, takes_there, wrong_kind, new_thread_member};

use crate::rules::has_room_for_active;
use collections::{ById, Text};
use guild_model::{
    ChannelKind, Guild, Moment, Thread, ThreadKind, ThreadMember, Verdict, limits, rules,
};
use snowflake_id::Snowflake;
use std::alloc::{AllocError, Global};

/// The new thread, and the moment at which its owner joins it.
#[derive(Drop)]
pub struct ThreadCreate {
    pub thread: Snowflake,
    /// The channel that the thread is created in.
    pub parent: Snowflake,
    pub kind: ThreadKind,
    pub name: Text,
    pub owner: Snowflake,
    pub at: Moment,
}

impl ThreadCreate {
    /// An edit that is equal to this.
    pub fn copy(&self, alloc: Global) -> Result<ThreadCreate, AllocError>
        ensures { IfOk result (λ copy. copy ≡ self.now) }
    {
        Ok(ThreadCreate {
            thread: self.thread,
            parent: self.parent,
            kind: self.kind,
            name: self.name.copy(alloc)?,
            owner: self.owner,
            at: self.at,
        })
    }
}

/// Whether a channel of this type may have threads of that type (Threads, Thread Types).
pub fn takes(parent: ChannelKind, kind: ThreadKind) -> bool
    ensures { result ≡ takes_thread parent kind }
{
    match parent {
        ChannelKind::Text => matches!(kind, ThreadKind::Public | ThreadKind::Private),
        ChannelKind::Announcement => matches!(kind, ThreadKind::Announcement),
        ChannelKind::Forum => matches!(kind, ThreadKind::Public),
        ChannelKind::Voice | ChannelKind::Category | ChannelKind::Stage => false,
    }
}

fn takes_in(guild: &Guild, parent: Snowflake, kind: ThreadKind) -> bool
    ensures { result ≡ takes_there kind (find_id channel_id parent guild.now.channels) }
{
    match guild.channels.get(parent.0) {
        Some(parent) => takes(parent.kind, kind),
        None => false,
    }
}

fn fits_parent(guild: &Guild, parent: Snowflake, kind: ThreadKind) -> Result<(), Verdict>
    ensures { result ≡ outcome (wrong_kind guild.now parent kind) }
{
    if !takes_in(guild, parent, kind) {
        return Err(Verdict::WrongType);
    }
    Ok(())
}

/// Refused in this order: `IdTaken` where a channel or a thread has the id, `UnknownChannel` for the
/// parent, `WrongType` where that may not have threads of this type, `UnknownMember` for the owner,
/// `TooMany` active threads, `TooMany` threads, `TooLong` for the name.
pub fn check(guild: &Guild, edit: &ThreadCreate) -> Result<(), Verdict>
    ensures { result ≡ outcome (thread_create_verdict guild.now edit.now) }
{
    if guild.has_channel_or_thread(edit.thread) {
        return Err(Verdict::IdTaken);
    }
    rules::knows_channel(guild, edit.parent)?;
    fits_parent(guild, edit.parent, edit.kind)?;
    rules::knows_member(guild, edit.owner)?;
    has_room_for_active(guild)?;
    rules::has_room(guild.threads.len(), limits::THREADS)?;
    rules::within(&edit.name, limits::NAME_BYTES)
}

// The members of a new thread: its owner.
fn first_members(
    alloc: Global,
    owner: Snowflake,
    at: Moment,
) -> Result<ById<ThreadMember>, AllocError>
    ensures { IfOk result (λ members. members ≡ new_thread_member owner at ∷ []) }
{
    let mut members = ById::new(alloc);
    members.insert(ThreadMember {
        user: owner,
        joined: at,
    })?;
    Ok(members)
}

/// Adds the thread. If it runs out of memory, the record stays as it was.
pub fn apply(alloc: Global, guild: &mut Guild, edit: ThreadCreate) -> Result<(), AllocError>
    requires open { guild.old.opened ≡ true }
    requires accepted { thread_create_verdict guild.old edit ≡ None }
    ensures ok { OnOk result (guild.new ≡ thread_created guild.old edit) }
    ensures err { OnErr result (guild.new ≡ guild.old) }
{
    let members = first_members(alloc, edit.owner, edit.at)?;
    guild.threads.insert(Thread {
        id: edit.thread,
        kind: edit.kind,
        name: edit.name,
        parent: edit.parent,
        owner: edit.owner,
        archived: false,
        members,
    })?;
    Ok(())
}
