//! Dispatches of a guild as a whole: GUILD_CREATE, GUILD_UPDATE and GUILD_DELETE.

use crate::channels::ChannelObject;
use crate::members::MemberObject;
use crate::presences::{PresenceObject, VoiceObject};
use crate::threads::JoinedThread;
use collections::{Seq, Text};
use guild_model::Role;
use snowflake_id::Snowflake;

/// A guild that has become available, or that the bot has joined (Gateway Events, Guild Create).
pub struct GuildCreate {
    pub id: Snowflake,
    pub name: Text,
    pub owner: Snowflake,
    pub roles: Seq<Role>,
    pub channels: Seq<ChannelObject>,
    pub members: Seq<MemberObject>,
    pub member_count: u64,
    pub large: bool,
    pub threads: Seq<JoinedThread>,
    pub voices: Seq<VoiceObject>,
    pub presences: Seq<PresenceObject>,
}

impl Drop for GuildCreate {
    fn drop(self) {
        let GuildCreate {
            id: _,
            name,
            owner: _,
            roles,
            channels,
            members,
            member_count: _,
            large: _,
            threads,
            voices,
            presences,
        } = self;
        drop(name);
        drop(roles);
        drop(channels);
        drop(members);
        drop(threads);
        drop(voices);
        drop(presences);
    }
}

/// A guild with a new name or owner (Gateway Events, Guild Update).
pub struct GuildUpdate {
    pub id: Snowflake,
    pub name: Text,
    pub owner: Snowflake,
}

impl Drop for GuildUpdate {
    fn drop(self) {
        let GuildUpdate {
            id: _,
            name,
            owner: _,
        } = self;
        drop(name);
    }
}

impl GuildUpdate {
    ghost use Rattle.std.specs.Prelude.{◌≡◌};

    /// The name.
    pub fn into_name(self) -> Text
        ensures { result ≡ self.name }
    {
        let GuildUpdate {
            id: _,
            name,
            owner: _,
        } = self;
        name
    }
}

/// A guild that has become unavailable, or that the bot is no longer in (Gateway Events, Guild
/// Delete).
#[derive(Clone, Copy, PartialEq, Eq, Debug)]
pub struct GuildDelete {
    pub id: Snowflake,
    /// An outage, and not the end of the bot's membership.
    pub unavailable: bool,
}
