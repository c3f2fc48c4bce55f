//! `overwrite_set`: sets a channel's overwrite of a role or a member (Gateway Events, Channel
//! Update).

ghost use Rattle.std.specs.Prelude.{◌≡◌, None, true, refl, OnOk, OnErr, IfOk};
ghost use Rattle.guild_model.specs.Tests.{outcome};
ghost use Rattle.guild_model.specs.Record.{channel_id};
ghost use Rattle.collections.specs.ById.{find_id};
ghost use Rattle.channel_edit.specs.OverwriteEdits.{overwrite_set_verdict, overwrite_was_set, unknown_target, without_room, has_overwrite, put_overwrite, overwrite_of, overwrites_with, with_overwrites};

use collections::{Change, Duplicate};
use guild_model::{Channel, Guild, Overwrite, OverwriteKind, Overwrites, Verdict, limits, rules};
use perm_bits::Perms;
use snowflake_id::Snowflake;
use std::alloc::{AllocError, Global};

/// A channel's overwrite of a role or a member.
#[derive(Clone, Copy)]
pub struct OverwriteSet {
    pub channel: Snowflake,
    pub id: Snowflake,
    pub kind: OverwriteKind,
    pub allow: Perms,
    pub deny: Perms,
}

impl OverwriteSet {
    /// The overwrite that is set.
    pub fn overwrite(&self) -> Overwrite
        ensures { result ≡ overwrite_of self.now }
    {
        Overwrite {
            id: self.id,
            allow: self.allow,
            deny: self.deny,
        }
    }
}

/// Whether there is an overwrite of this role or member.
pub fn holds_overwrite(overwrites: &Overwrites, id: Snowflake, kind: OverwriteKind) -> bool
    ensures { result ≡ has_overwrite overwrites.now id kind }
{
    match kind {
        OverwriteKind::Role => overwrites.roles.contains(id.0),
        OverwriteKind::Member => overwrites.members.contains(id.0),
    }
}

fn knows_target(guild: &Guild, id: Snowflake, kind: OverwriteKind) -> Result<(), Verdict>
    ensures { result ≡ outcome (unknown_target guild.now id kind) }
{
    match kind {
        OverwriteKind::Role => rules::knows_role(guild, id),
        OverwriteKind::Member => rules::knows_member(guild, id),
    }
}

fn has_room(
    guild: &Guild,
    channel: Snowflake,
    id: Snowflake,
    kind: OverwriteKind,
) -> Result<(), Verdict>
    ensures { result ≡ outcome (without_room (find_id channel_id channel guild.now.channels) id kind) }
{
    let Some(channel) = guild.channels.get(channel.0) else {
        return Ok(());
    };
    if holds_overwrite(&channel.overwrites, id, kind) {
        return Ok(());
    }
    let roles = channel.overwrites.roles.len();
    let count = roles.saturating_add(channel.overwrites.members.len());
    rules::has_room(count, limits::OVERWRITES)
}

/// Refused in this order: `UnknownChannel`, `UnknownRole` or `UnknownMember` for the role or member
/// that the overwrite is of, `TooMany` where it is new.
pub fn check(guild: &Guild, edit: &OverwriteSet) -> Result<(), Verdict>
    ensures { result ≡ outcome (overwrite_set_verdict guild.now edit.now) }
{
    rules::knows_channel(guild, edit.channel)?;
    knows_target(guild, edit.id, edit.kind)?;
    has_room(guild, edit.channel, edit.id, edit.kind)
}

#[derive(Drop)]
struct SetOverwrites {
    overwrites: Overwrites,
}

impl Change<Channel> for SetOverwrites {
    ghost changed = { λ change c. with_overwrites change.overwrites c };

    fn change(self, channel: &mut Channel) {
        channel.overwrites = self.overwrites;
    }

    ghost keeps_key = { λ change c. refl };
}

fn put(
    overwrites: &mut Overwrites,
    kind: OverwriteKind,
    overwrite: Overwrite,
) -> Result<(), AllocError>
    ensures ok { OnOk result (overwrites.new ≡ put_overwrite kind overwrite overwrites.old) }
    ensures err { OnErr result (overwrites.new ≡ overwrites.old) }
{
    match kind {
        OverwriteKind::Role => overwrites.roles.put(overwrite),
        OverwriteKind::Member => overwrites.members.put(overwrite),
    }
}

// The channel's overwrites, with this one among them.
fn changed_overwrites(
    alloc: Global,
    guild: &Guild,
    edit: &OverwriteSet,
) -> Result<Overwrites, AllocError>
    ensures { IfOk result (λ os. os ≡ overwrites_with guild.now edit.now) }
{
    let mut overwrites = match guild.channels.get(edit.channel.0) {
        Some(channel) => channel.overwrites.duplicate(alloc)?,
        None => Overwrites::new(alloc),
    };
    put(&mut overwrites, edit.kind, edit.overwrite())?;
    Ok(overwrites)
}

/// Sets the overwrite. If it runs out of memory, the record stays as it was.
pub fn apply(alloc: Global, guild: &mut Guild, edit: OverwriteSet) -> Result<(), AllocError>
    requires open { guild.old.opened ≡ true }
    requires accepted { overwrite_set_verdict guild.old edit ≡ None }
    ensures ok { OnOk result (guild.new ≡ overwrite_was_set guild.old edit) }
    ensures err { OnErr result (guild.new ≡ guild.old) }
{
    let overwrites = changed_overwrites(alloc, guild, &edit)?;
    guild
        .channels
        .change(edit.channel.0, SetOverwrites { overwrites });
    Ok(())
}
