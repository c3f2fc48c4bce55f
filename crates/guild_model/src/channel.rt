//! A channel, its type, and its overwrites.

ghost use Rattle.std.specs.Prelude.{◌≡◌, [], IfOk, Some};
ghost use Rattle.guild_model.specs.Consistent.{has_threads};
ghost use Rattle.guild_model.specs.Numbers.{channel_kind_number, channel_kind_numbered, overwrite_kind_number, overwrite_kind_numbered};

use collections::{ById, Duplicate, Keyed, Text};
use perm_bits::Perms;
use snowflake_id::Snowflake;
use std::alloc::{AllocError, Global};

/// The types of channels (Channels Resource, Channel Types).
#[derive(Clone, Copy, PartialEq, Eq, Debug)]
pub enum ChannelKind {
    Text,
    Voice,
    Category,
    Announcement,
    Stage,
    Forum,
}

impl ChannelKind {
    /// The number of the type (Channels Resource, Channel Types).
    #[tactic(auto, unfolding(crate::specs::Numbers::channel_kind_numbered))]
    pub fn number(self) -> u64
        ensures number { result ≡ channel_kind_number self }
        ensures back { channel_kind_numbered result ≡ Some self }
    {
        match self {
            ChannelKind::Text => 0,
            ChannelKind::Voice => 2,
            ChannelKind::Category => 4,
            ChannelKind::Announcement => 5,
            ChannelKind::Stage => 13,
            ChannelKind::Forum => 15,
        }
    }

    /// The type of a number. `None` exactly if it is that of none.
    #[tactic(auto, unfolding(crate::specs::Numbers::channel_kind_numbered))]
    pub fn of_number(number: u64) -> Option<ChannelKind>
        ensures { result ≡ channel_kind_numbered number }
    {
        match number {
            0 => Some(ChannelKind::Text),
            2 => Some(ChannelKind::Voice),
            4 => Some(ChannelKind::Category),
            5 => Some(ChannelKind::Announcement),
            13 => Some(ChannelKind::Stage),
            15 => Some(ChannelKind::Forum),
            _ => None,
        }
    }

    /// Whether threads stand in channels of the type (Threads, Thread Fields).
    pub fn has_threads(self) -> bool
        ensures { result ≡ has_threads self }
    {
        match self {
            ChannelKind::Text | ChannelKind::Announcement | ChannelKind::Forum => true,
            ChannelKind::Voice | ChannelKind::Category | ChannelKind::Stage => false,
        }
    }
}

/// Whom an overwrite is of; as a number, 0 and 1 (Channels Resource, Overwrite Object).
#[derive(Clone, Copy, PartialEq, Eq, Debug)]
pub enum OverwriteKind {
    Role,
    Member,
}

impl OverwriteKind {
    /// The number of the kind (Channels Resource, Overwrite Object).
    #[tactic(auto, unfolding(crate::specs::Numbers::overwrite_kind_numbered))]
    pub fn number(self) -> u64
        ensures number { result ≡ overwrite_kind_number self }
        ensures back { overwrite_kind_numbered result ≡ Some self }
    {
        match self {
            OverwriteKind::Role => 0,
            OverwriteKind::Member => 1,
        }
    }

    /// The kind of a number. `None` exactly if it is that of none.
    #[tactic(auto, unfolding(crate::specs::Numbers::overwrite_kind_numbered))]
    pub fn of_number(number: u64) -> Option<OverwriteKind>
        ensures { result ≡ overwrite_kind_numbered number }
    {
        match number {
            0 => Some(OverwriteKind::Role),
            1 => Some(OverwriteKind::Member),
            _ => None,
        }
    }
}

/// What a channel allows and denies to a role or a member (Channels Resource, Overwrite Object).
#[derive(Clone, Copy, PartialEq, Eq, Debug)]
pub struct Overwrite {
    pub id: Snowflake,
    pub allow: Perms,
    pub deny: Perms,
}

impl Keyed for Overwrite {
    ghost key = { λ o. o.id };

    fn key(&self) -> u64 {
        self.id.0
    }
}

/// A channel's overwrites: those of roles, and those of members.
pub struct Overwrites {
    pub roles: ById<Overwrite>,
    pub members: ById<Overwrite>,
}

impl Drop for Overwrites {
    fn drop(self) {
        let Overwrites { roles, members } = self;
        drop(roles);
        drop(members);
    }
}

impl Overwrites {
    /// No overwrite.
    pub fn new(alloc: Global) -> Overwrites
        ensures { result ≡ record { roles = []; members = [] } }
    {
        Overwrites {
            roles: ById::new(alloc),
            members: ById::new(alloc),
        }
    }
}

impl Duplicate for Overwrites {
    fn duplicate(&self, alloc: Global) -> Result<Overwrites, AllocError> {
        Ok(Overwrites {
            roles: self.roles.copy(alloc)?,
            members: self.members.copy(alloc)?,
        })
    }
}

/// A channel (Channels Resource, Channel Object).
pub struct Channel {
    pub id: Snowflake,
    pub kind: ChannelKind,
    pub name: Text,
    /// The category that the channel stands in.
    pub parent: Option<Snowflake>,
    pub position: u32,
    pub overwrites: Overwrites,
}

impl Drop for Channel {
    fn drop(self) {
        let Channel {
            id: _,
            kind: _,
            name,
            parent: _,
            position: _,
            overwrites,
        } = self;
        drop(name);
        drop(overwrites);
    }
}

impl Keyed for Channel {
    ghost key = { λ c. c.id };

    fn key(&self) -> u64 {
        self.id.0
    }
}

impl Duplicate for Channel {
    fn duplicate(&self, alloc: Global) -> Result<Channel, AllocError> {
        Ok(Channel {
            id: self.id,
            kind: self.kind,
            name: self.name.copy(alloc)?,
            parent: self.parent,
            position: self.position,
            overwrites: self.overwrites.duplicate(alloc)?,
        })
    }
}
