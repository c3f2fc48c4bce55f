//! What a viewer holds of a guild.

ghost use Rattle.std.specs.Prelude.{◌≡◌, IfOk};

use collections::{ById, Duplicate, Keyed, Text};
use guild_model::{Channel, Member, Presence, Role, ThreadKind, ThreadMember, Voice};
use snowflake_id::Snowflake;
use std::alloc::{AllocError, Global};

/// A thread as a viewer holds it.
pub struct ThreadView {
    pub id: Snowflake,
    pub kind: ThreadKind,
    pub name: Text,
    pub owner: Snowflake,
    pub parent: Snowflake,
    /// The viewer's own membership, where it is in the thread.
    pub mine: Option<ThreadMember>,
    /// How many users are in the thread, cut at 50, where GUILD_MEMBERS tells.
    pub count: Option<u32>,
}

impl Drop for ThreadView {
    fn drop(self) {
        let ThreadView {
            id: _,
            kind: _,
            name,
            owner: _,
            parent: _,
            mine: _,
            count: _,
        } = self;
        drop(name);
    }
}

impl Keyed for ThreadView {
    ghost key = { λ t. t.id };

    fn key(&self) -> u64 {
        self.id.0
    }
}

impl Duplicate for ThreadView {
    fn duplicate(&self, alloc: Global) -> Result<ThreadView, AllocError> {
        Ok(ThreadView {
            id: self.id,
            kind: self.kind,
            name: self.name.copy(alloc)?,
            owner: self.owner,
            parent: self.parent,
            mine: self.mine,
            count: self.count,
        })
    }
}

/// What a viewer holds of a guild that is available.
pub struct OpenView {
    pub name: Text,
    pub owner: Snowflake,
    pub roles: ById<Role>,
    pub channels: ById<Channel>,
    /// The viewer's own member.
    pub me: Member,
    pub members: ById<Member>,
    /// How many members there are, where GUILD_MEMBERS tells.
    pub member_count: Option<u64>,
    pub threads: ById<ThreadView>,
    pub voices: ById<Voice>,
    pub presences: ById<Presence>,
}

impl Drop for OpenView {
    fn drop(self) {
        let OpenView {
            name,
            owner: _,
            roles,
            channels,
            me,
            members,
            member_count: _,
            threads,
            voices,
            presences,
        } = self;
        drop(name);
        drop(roles);
        drop(channels);
        drop(me);
        drop(members);
        drop(threads);
        drop(voices);
        drop(presences);
    }
}

impl Duplicate for OpenView {
    fn duplicate(&self, alloc: Global) -> Result<OpenView, AllocError> {
        Ok(OpenView {
            name: self.name.copy(alloc)?,
            owner: self.owner,
            roles: self.roles.duplicate(alloc)?,
            channels: self.channels.duplicate(alloc)?,
            me: self.me.duplicate(alloc)?,
            members: self.members.duplicate(alloc)?,
            member_count: self.member_count,
            threads: self.threads.duplicate(alloc)?,
            voices: self.voices.copy(alloc)?,
            presences: self.presences.copy(alloc)?,
        })
    }
}

/// What a viewer holds of a guild (Gateway Events, Guild Create).
pub enum GuildView {
    Unavailable,
    Open(OpenView),
}

impl Drop for GuildView {
    fn drop(self) {
        match self {
            GuildView::Unavailable => {}
            GuildView::Open(held) => drop(held),
        }
    }
}

impl GuildView {
    /// A view that is equal to this.
    pub fn copy(&self, alloc: Global) -> Result<GuildView, AllocError>
        ensures { IfOk result (λ copy. copy ≡ self.now) }
    {
        match self {
            GuildView::Unavailable => Ok(GuildView::Unavailable),
            GuildView::Open(view) => Ok(GuildView::Open(view.duplicate(alloc)?)),
        }
    }
}
