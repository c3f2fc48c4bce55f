//! The wire form of channels and overwrites.

ghost use Rattle.std.specs.Prelude.{◌≡◌, IfOk};
ghost use Rattle.dispatch_types.specs.Objects.{overwrite_object, overwrite_objects, channel_object};

use collections::{Seq, Text};
use guild_model::channel::{Overwrite, Overwrites};
use guild_model::{Channel, ChannelKind, OverwriteKind};
use perm_bits::Perms;
use snowflake_id::Snowflake;
use std::alloc::{AllocError, Global};

/// The wire form of an overwrite (Channels Resource, Overwrite Object).
#[derive(Clone, Copy, PartialEq, Eq, Debug)]
pub struct OverwriteObject {
    pub kind: OverwriteKind,
    pub id: Snowflake,
    pub allow: Perms,
    pub deny: Perms,
}

/// The wire form of a channel (Channels Resource, Channel Object).
pub struct ChannelObject {
    pub guild: Snowflake,
    pub id: Snowflake,
    pub kind: ChannelKind,
    pub name: Text,
    pub parent: Option<Snowflake>,
    pub position: u32,
    pub overwrites: Seq<OverwriteObject>,
}

impl Drop for ChannelObject {
    fn drop(self) {
        let ChannelObject {
            guild: _,
            id: _,
            kind: _,
            name,
            parent: _,
            position: _,
            overwrites,
        } = self;
        drop(name);
        drop(overwrites);
    }
}

impl OverwriteObject {
    /// The wire form of an overwrite of a role or of a member.
    pub fn of(kind: OverwriteKind, overwrite: &Overwrite) -> OverwriteObject
        ensures { result ≡ overwrite_object kind overwrite.now }
    {
        OverwriteObject {
            kind,
            id: overwrite.id,
            allow: overwrite.allow,
            deny: overwrite.deny,
        }
    }
}

// Those of roles, then those of members.
fn overwrites(alloc: Global, from: &Overwrites) -> Result<Vec<OverwriteObject>, AllocError>
    ensures { IfOk result (λ objects. objects.items ≡ overwrite_objects from.now) }
{
    let roles = from.roles.as_slice().iter();
    let members = from.members.as_slice().iter();
    roles
        .map(|overwrite| OverwriteObject::of(OverwriteKind::Role, overwrite))
        .chain(members.map(|overwrite| OverwriteObject::of(OverwriteKind::Member, overwrite)))
        .collect(alloc)
}

impl ChannelObject {
    /// The wire form of a channel of a guild.
    pub fn of(
        alloc: Global,
        guild: Snowflake,
        channel: &Channel,
    ) -> Result<ChannelObject, AllocError>
        ensures { IfOk result (λ object. object ≡ channel_object guild channel.now) }
    {
        Ok(ChannelObject {
            guild,
            id: channel.id,
            kind: channel.kind,
            name: channel.name.copy(alloc)?,
            parent: channel.parent,
            position: channel.position,
            overwrites: Seq::from_vec(overwrites(alloc, &channel.overwrites)?),
        })
    }

    /// The name.
    pub fn into_name(self) -> Text
        ensures { result ≡ self.name }
    {
        let ChannelObject {
            guild: _,
            id: _,
            kind: _,
            name,
            parent: _,
            position: _,
            overwrites,
        } = self;
        drop(overwrites);
        name
    }
}
