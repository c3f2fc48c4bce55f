//! Threads, and their dispatches: THREAD_CREATE, THREAD_DELETE, THREAD_LIST_SYNC and
//! THREAD_MEMBERS_UPDATE.

ghost use Rattle.std.specs.Prelude.{◌≡◌, ◌↔◌, ◌≤◌, min, IfOk, IsErr};

use collections::{Seq, Text};
use guild_model::{Moment, Thread, ThreadKind, ThreadMember};
use snowflake_id::Snowflake;
use std::alloc::{AllocError, Global};
use std::marker::Model;

/// How many users are in a thread, cut at 50 (Channels Resource, `member_count`).
#[derive(Clone, Copy, PartialEq, Eq, Debug)]
pub struct ThreadCount(u32);

impl Model for ThreadCount {
    ghost use Rattle.std.specs.Prelude.{ℕ, ◌≤◌};

    ghost Value = { ℕ };

    ghost view = { λ c. c.0 };

    ghost invariant = { λ c. c.0 ≤ 50 };

    ghost inverse = { λ count. record { 0 = count } };
}

/// The count is above 50.
#[derive(Clone, Copy, PartialEq, Eq, Debug)]
pub struct BadCount;

impl ThreadCount {
    /// The count as it is written; refused exactly above 50.
    pub fn new(count: u64) -> Result<ThreadCount, BadCount>
        ensures value { IfOk result (λ c. c ≡ count) }
        ensures refused { IsErr result ↔ (51 ≤ count) }
    {
        if count > 50 {
            return Err(BadCount);
        }
        Ok(ThreadCount(count as u32))
    }

    /// The count of that many users.
    pub fn of(users: usize) -> ThreadCount
        ensures { result ≡ min 50 users }
    {
        if users < 50 {
            ThreadCount(users as u32)
        } else {
            ThreadCount(50)
        }
    }

    /// The number, at most 50.
    pub fn get(self) -> u32
        ensures value { result ≡ self }
        ensures within { result ≤ 50 }
    {
        self.0
    }
}

/// The wire form of a thread member (Channels Resource, Thread Member Object).
#[derive(Clone, Copy, PartialEq, Eq, Debug)]
pub struct ThreadMemberObject {
    pub thread: Snowflake,
    pub user: Snowflake,
    pub joined: Moment,
}

impl ThreadMemberObject {
    ghost use Rattle.dispatch_types.specs.Objects.{thread_member_object};

    /// The wire form of a member of the thread of this id.
    pub fn of(thread: Snowflake, member: &ThreadMember) -> ThreadMemberObject
        ensures { result ≡ thread_member_object thread member.now }
    {
        ThreadMemberObject {
            thread,
            user: member.user,
            joined: member.joined,
        }
    }
}

/// The wire form of a thread (Threads, Thread Fields).
pub struct ThreadObject {
    pub guild: Snowflake,
    pub id: Snowflake,
    pub kind: ThreadKind,
    pub name: Text,
    pub owner: Snowflake,
    pub parent: Snowflake,
    pub archived: bool,
    pub count: ThreadCount,
}

impl Drop for ThreadObject {
    fn drop(self) {
        let ThreadObject {
            guild: _,
            id: _,
            kind: _,
            name,
            owner: _,
            parent: _,
            archived: _,
            count: _,
        } = self;
        drop(name);
    }
}

impl ThreadObject {
    ghost use Rattle.dispatch_types.specs.Objects.{thread_object};

    /// The wire form of a thread of a guild.
    pub fn of(alloc: Global, guild: Snowflake, thread: &Thread) -> Result<ThreadObject, AllocError>
        ensures { IfOk result (λ object. object ≡ thread_object guild thread.now) }
    {
        Ok(ThreadObject {
            guild,
            id: thread.id,
            kind: thread.kind,
            name: thread.name.copy(alloc)?,
            owner: thread.owner,
            parent: thread.parent,
            archived: thread.archived,
            count: ThreadCount::of(thread.members.len()),
        })
    }

    /// The name.
    pub fn into_name(self) -> Text
        ensures { result ≡ self.name }
    {
        let ThreadObject {
            guild: _,
            id: _,
            kind: _,
            name,
            owner: _,
            parent: _,
            archived: _,
            count: _,
        } = self;
        name
    }
}

/// A thread of GUILD_CREATE, with the moment at which the bot joined it, where it is in it.
pub struct JoinedThread {
    pub thread: ThreadObject,
    pub joined: Option<Moment>,
}

impl Drop for JoinedThread {
    fn drop(self) {
        let JoinedThread { thread, joined: _ } = self;
        drop(thread);
    }
}

impl JoinedThread {
    /// The thread.
    pub fn into_thread(self) -> ThreadObject
        ensures { result ≡ self.thread }
    {
        let JoinedThread { thread, joined: _ } = self;
        thread
    }
}

/// A thread that is created or that the bot is added to (Gateway Events, Thread Create).
pub struct ThreadCreate {
    pub thread: ThreadObject,
    pub newly_created: bool,
    /// The bot's own membership, where it is in the thread.
    pub member: Option<ThreadMemberObject>,
}

impl Drop for ThreadCreate {
    fn drop(self) {
        let ThreadCreate {
            thread,
            newly_created: _,
            member: _,
        } = self;
        drop(thread);
    }
}

impl ThreadCreate {
    /// The thread.
    pub fn into_thread(self) -> ThreadObject
        ensures { result ≡ self.thread }
    {
        let ThreadCreate {
            thread,
            newly_created: _,
            member: _,
        } = self;
        thread
    }
}

/// A thread that is deleted (Gateway Events, Thread Delete).
#[derive(Clone, Copy, PartialEq, Eq, Debug)]
pub struct ThreadDelete {
    pub guild: Snowflake,
    pub id: Snowflake,
    pub parent: Snowflake,
    pub kind: ThreadKind,
}

/// The active threads of channels that the bot has gained access to (Gateway Events, Thread List
/// Sync).
pub struct ThreadListSync {
    pub guild: Snowflake,
    /// The parents whose threads are listed.
    pub channels: Seq<Snowflake>,
    pub threads: Seq<ThreadObject>,
    /// The bot's own memberships.
    pub members: Seq<ThreadMemberObject>,
}

impl Drop for ThreadListSync {
    fn drop(self) {
        let ThreadListSync {
            guild: _,
            channels,
            threads,
            members,
        } = self;
        drop(channels);
        drop(threads);
        drop(members);
    }
}

impl ThreadListSync {
    /// The parents, the threads and the memberships.
    pub fn into_lists(self) -> (Seq<Snowflake>, Seq<ThreadObject>, Seq<ThreadMemberObject>)
        ensures { (result.0 ≡ self.channels) × (result.1 ≡ self.threads) × (result.2 ≡ self.members) }
    {
        let ThreadListSync {
            guild: _,
            channels,
            threads,
            members,
        } = self;
        (channels, threads, members)
    }
}

/// Users that are added to or removed from a thread (Gateway Events, Thread Members Update).
pub struct ThreadMembersUpdate {
    pub guild: Snowflake,
    pub id: Snowflake,
    pub count: ThreadCount,
    /// Left out where it is empty.
    pub added: Seq<ThreadMemberObject>,
    /// Left out where it is empty.
    pub removed: Seq<Snowflake>,
}

impl Drop for ThreadMembersUpdate {
    fn drop(self) {
        let ThreadMembersUpdate {
            guild: _,
            id: _,
            count: _,
            added,
            removed,
        } = self;
        drop(added);
        drop(removed);
    }
}
