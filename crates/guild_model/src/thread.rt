//! A thread, its type, and its members.

ghost use Rattle.std.specs.Prelude.{◌≡◌, IfOk, Some};
ghost use Rattle.guild_model.specs.Numbers.{thread_kind_number, thread_kind_numbered};
ghost use Rattle.guild_model.specs.Sight.{is_private};

use crate::moment::Moment;
use collections::{ById, Duplicate, Keyed, Text};
use snowflake_id::Snowflake;
use std::alloc::{AllocError, Global};

/// The types of threads (Threads, Thread Types).
#[derive(Clone, Copy, PartialEq, Eq, Debug)]
pub enum ThreadKind {
    Announcement,
    Public,
    Private,
}

impl ThreadKind {
    /// The number of the type (Channels Resource, Channel Types).
    #[tactic(auto, unfolding(crate::specs::Numbers::thread_kind_numbered))]
    pub fn number(self) -> u64
        ensures number { result ≡ thread_kind_number self }
        ensures back { thread_kind_numbered result ≡ Some self }
    {
        match self {
            ThreadKind::Announcement => 10,
            ThreadKind::Public => 11,
            ThreadKind::Private => 12,
        }
    }

    /// The type of a number. `None` exactly if it is that of none.
    #[tactic(auto, unfolding(crate::specs::Numbers::thread_kind_numbered))]
    pub fn of_number(number: u64) -> Option<ThreadKind>
        ensures { result ≡ thread_kind_numbered number }
    {
        match number {
            10 => Some(ThreadKind::Announcement),
            11 => Some(ThreadKind::Public),
            12 => Some(ThreadKind::Private),
            _ => None,
        }
    }

    /// Whether only those in a thread of the type see it, and those who manage threads (Threads, Private
    /// Threads).
    pub fn is_private(self) -> bool
        ensures { result ≡ is_private self }
    {
        match self {
            ThreadKind::Private => true,
            ThreadKind::Announcement | ThreadKind::Public => false,
        }
    }
}

/// A user in a thread, with the moment at which it joined (Channels Resource, Thread Member Object).
#[derive(Clone, Copy, PartialEq, Eq, Debug)]
pub struct ThreadMember {
    pub user: Snowflake,
    pub joined: Moment,
}

impl Keyed for ThreadMember {
    ghost key = { λ m. m.user };

    fn key(&self) -> u64 {
        self.user.0
    }
}

/// A thread (Threads, Thread Fields).
pub struct Thread {
    pub id: Snowflake,
    pub kind: ThreadKind,
    pub name: Text,
    /// The channel that the thread stands in.
    pub parent: Snowflake,
    pub owner: Snowflake,
    pub archived: bool,
    pub members: ById<ThreadMember>,
}

impl Drop for Thread {
    fn drop(self) {
        let Thread {
            id: _,
            kind: _,
            name,
            parent: _,
            owner: _,
            archived: _,
            members,
        } = self;
        drop(name);
        drop(members);
    }
}

impl Keyed for Thread {
    ghost key = { λ t. t.id };

    fn key(&self) -> u64 {
        self.id.0
    }
}

impl Duplicate for Thread {
    fn duplicate(&self, alloc: Global) -> Result<Thread, AllocError> {
        Ok(Thread {
            id: self.id,
            kind: self.kind,
            name: self.name.copy(alloc)?,
            parent: self.parent,
            owner: self.owner,
            archived: self.archived,
            members: self.members.copy(alloc)?,
        })
    }
}
