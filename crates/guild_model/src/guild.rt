//! The record of a guild, with its look-ups and its copy.

ghost use Rattle.std.specs.Prelude.{◌≡◌, IfOk};
ghost use Rattle.std.specs.Option.{option_copied};
ghost use Rattle.collections.specs.ById.{find_id};

use crate::channel::Channel;
use crate::member::Member;
use crate::message::MessageHead;
use crate::message_heads::MessageHeads;
use crate::presence::Presence;
use crate::role::Role;
use crate::thread::Thread;
use crate::voice::Voice;
use collections::{ById, Duplicate, Text};
use snowflake_id::Snowflake;
use std::alloc::{AllocError, Global};
use std::marker::Model;

/// The record of a guild (Guild Resource, Guild Object). One that is not open has empty lists.
pub struct Guild {
    pub id: Snowflake,
    pub opened: bool,
    pub outage: bool,
    /// Whether it withholds channels from those who do not see them; false where it is not open.
    pub private: bool,
    pub name: Text,
    pub owner: Snowflake,
    pub roles: ById<Role>,
    pub members: ById<Member>,
    pub channels: ById<Channel>,
    pub threads: ById<Thread>,
    pub voices: ById<Voice>,
    pub presences: ById<Presence>,
    pub messages: MessageHeads,
}

impl Drop for Guild {
    fn drop(self) {
        let Guild {
            id: _,
            opened: _,
            outage: _,
            private: _,
            name,
            owner: _,
            roles,
            members,
            channels,
            threads,
            voices,
            presences,
            messages,
        } = self;
        drop(name);
        drop(roles);
        drop(members);
        drop(channels);
        drop(threads);
        drop(voices);
        drop(presences);
        drop(messages);
    }
}

impl Model for Guild {
    ghost use Rattle.guild_model.specs.Record.{Record};
    ghost use Rattle.guild_model.specs.Consistent.{IsConsistent};

    ghost Value = { Record };

    ghost view = { λ g. record {
      id = g.id;
      opened = g.opened;
      outage = g.outage;
      private = g.private;
      name = g.name;
      owner = g.owner;
      roles = g.roles;
      members = g.members;
      channels = g.channels;
      threads = g.threads;
      voices = g.voices;
      presences = g.presences;
      messages = g.messages;
    } };

    ghost invariant = { λ g. IsConsistent (record {
      id = g.id;
      opened = g.opened;
      outage = g.outage;
      private = g.private;
      name = g.name;
      owner = g.owner;
      roles = g.roles;
      members = g.members;
      channels = g.channels;
      threads = g.threads;
      voices = g.voices;
      presences = g.presences;
      messages = g.messages;
    }) };
}

impl Guild {
    ghost use Rattle.guild_model.specs.Record.{closed, role_id, member_id, channel_id, thread_id};
    ghost use Rattle.guild_model.specs.Heads.{find_head};
    ghost use Rattle.guild_model.specs.Consistent.{is_channel_or_thread};

    /// The record of a guild to which nothing has happened: not open, and empty.
    pub fn closed(alloc: Global, id: Snowflake) -> Guild
        ensures { result ≡ closed id }
    {
        Guild {
            id,
            opened: false,
            outage: false,
            private: false,
            name: Text::empty(),
            owner: Snowflake(0),
            roles: ById::new(alloc),
            members: ById::new(alloc),
            channels: ById::new(alloc),
            threads: ById::new(alloc),
            voices: ById::new(alloc),
            presences: ById::new(alloc),
            messages: MessageHeads::new(alloc),
        }
    }

    /// The role of an id. `None` exactly if there is none.
    pub fn role(&self, id: Snowflake) -> Option<&Role>
        ensures { option_copied result ≡ find_id role_id id self.now.roles }
    {
        self.roles.get(id.0)
    }

    /// The member that a user is. `None` exactly if it is none.
    pub fn member(&self, user: Snowflake) -> Option<&Member>
        ensures { option_copied result ≡ find_id member_id user self.now.members }
    {
        self.members.get(user.0)
    }

    /// The channel of an id. `None` exactly if there is none. A thread is no channel.
    pub fn channel(&self, id: Snowflake) -> Option<&Channel>
        ensures { option_copied result ≡ find_id channel_id id self.now.channels }
    {
        self.channels.get(id.0)
    }

    /// The thread of an id. `None` exactly if there is none.
    pub fn thread(&self, id: Snowflake) -> Option<&Thread>
        ensures { option_copied result ≡ find_id thread_id id self.now.threads }
    {
        self.threads.get(id.0)
    }

    /// The kept message of an id. `None` exactly if there is none.
    pub fn message(&self, id: Snowflake) -> Option<&MessageHead>
        ensures { option_copied result ≡ find_head id self.now.messages }
    {
        self.messages.get(id)
    }

    /// Whether a channel or a thread of the guild has an id.
    pub fn has_channel_or_thread(&self, id: Snowflake) -> bool
        ensures { result ≡ is_channel_or_thread self.now id }
    {
        self.channels.contains(id.0) || self.threads.contains(id.0)
    }

    /// A record that is equal to this.
    pub fn copy(&self, alloc: Global) -> Result<Guild, AllocError>
        ensures { IfOk result (λ copy. copy ≡ self.now) }
    {
        Ok(Guild {
            id: self.id,
            opened: self.opened,
            outage: self.outage,
            private: self.private,
            name: self.name.copy(alloc)?,
            owner: self.owner,
            roles: self.roles.duplicate(alloc)?,
            members: self.members.duplicate(alloc)?,
            channels: self.channels.duplicate(alloc)?,
            threads: self.threads.duplicate(alloc)?,
            voices: self.voices.copy(alloc)?,
            presences: self.presences.copy(alloc)?,
            messages: self.messages.duplicate(alloc)?,
        })
    }
}
