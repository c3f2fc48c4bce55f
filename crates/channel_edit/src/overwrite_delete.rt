//! `overwrite_delete`: deletes a channel's overwrite of a role or a member (Gateway Events, Channel
//! Update).

ghost use Rattle.std.specs.Prelude.{◌≡◌, None, true, refl};
ghost use Rattle.guild_model.specs.Tests.{outcome};
ghost use Rattle.guild_model.specs.Record.{channel_id};
ghost use Rattle.collections.specs.ById.{find_id};
ghost use Rattle.channel_edit.specs.OverwriteEdits.{overwrite_delete_verdict, overwrite_deleted, unknown_of, unknown_overwrite, without_overwrite};

use crate::overwrite_set::holds_overwrite;
use collections::Change;
use guild_model::{Channel, Guild, OverwriteKind, Verdict, rules};
use snowflake_id::Snowflake;

/// The overwrite that is deleted: its channel, and the role or member that it is of.
#[derive(Clone, Copy)]
pub struct OverwriteDelete {
    pub channel: Snowflake,
    pub id: Snowflake,
    pub kind: OverwriteKind,
}

fn unknown(kind: OverwriteKind) -> Verdict
    ensures { result ≡ unknown_of kind }
{
    match kind {
        OverwriteKind::Role => Verdict::UnknownRole,
        OverwriteKind::Member => Verdict::UnknownMember,
    }
}

fn knows_overwrite(
    guild: &Guild,
    channel: Snowflake,
    id: Snowflake,
    kind: OverwriteKind,
) -> Result<(), Verdict>
    ensures { result ≡ outcome (unknown_overwrite (find_id channel_id channel guild.now.channels) id kind) }
{
    let Some(channel) = guild.channels.get(channel.0) else {
        return Ok(());
    };
    if !holds_overwrite(&channel.overwrites, id, kind) {
        return Err(unknown(kind));
    }
    Ok(())
}

/// Refused in this order: `UnknownChannel`; where there is no such overwrite, `UnknownRole` for one
/// of a role and `UnknownMember` for one of a member.
pub fn check(guild: &Guild, edit: &OverwriteDelete) -> Result<(), Verdict>
    ensures { result ≡ outcome (overwrite_delete_verdict guild.now edit.now) }
{
    rules::knows_channel(guild, edit.channel)?;
    knows_overwrite(guild, edit.channel, edit.id, edit.kind)
}

impl Change<Channel> for OverwriteDelete {
    ghost changed = { λ change c. without_overwrite change.kind change.id c };

    fn change(self, channel: &mut Channel) {
        match self.kind {
            OverwriteKind::Role => channel.overwrites.roles.remove(self.id.0),
            OverwriteKind::Member => channel.overwrites.members.remove(self.id.0),
        }
    }

    ghost keeps_key = { λ change c. refl };
}

/// Deletes the overwrite.
pub fn apply(guild: &mut Guild, edit: OverwriteDelete)
    requires open { guild.old.opened ≡ true }
    requires accepted { overwrite_delete_verdict guild.old edit ≡ None }
    ensures { guild.new ≡ overwrite_deleted guild.old edit }
{
    let channel = edit.channel;
    guild.channels.change(channel.0, edit);
}
