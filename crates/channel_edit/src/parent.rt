//! The tests of a channel's parent (Channels Resource, Channel Object, `parent_id`).

ghost use Rattle.std.specs.Prelude.{◌≡◌};
ghost use Rattle.guild_model.specs.Tests.{outcome};
ghost use Rattle.guild_model.specs.Record.{channel_id};
ghost use Rattle.collections.specs.ById.{find_id};
ghost use Rattle.channel_edit.specs.Channels.{is_category, is_category_there, unknown_parent, wrong_parent};

use guild_model::{ChannelKind, Guild, Verdict, rules};
use snowflake_id::Snowflake;

/// Refuses a parent that is no channel of the guild.
pub fn knows_parent(guild: &Guild, parent: &Option<Snowflake>) -> Result<(), Verdict>
    ensures { result ≡ outcome (unknown_parent guild.now parent.now) }
{
    match parent {
        Some(parent) => rules::knows_channel(guild, *parent),
        None => Ok(()),
    }
}

fn category(kind: ChannelKind) -> bool
    ensures { result ≡ is_category kind }
{
    matches!(kind, ChannelKind::Category)
}

fn has_category(guild: &Guild, channel: Snowflake) -> bool
    ensures { result ≡ is_category_there (find_id channel_id channel guild.now.channels) }
{
    match guild.channels.get(channel.0) {
        Some(channel) => category(channel.kind),
        None => false,
    }
}

/// Refuses a parent that is no category, and any parent of a channel that is one itself.
pub fn fits_parent(
    guild: &Guild,
    kind: ChannelKind,
    parent: &Option<Snowflake>,
) -> Result<(), Verdict>
    ensures { result ≡ outcome (wrong_parent guild.now kind parent.now) }
{
    let Some(parent) = parent else {
        return Ok(());
    };
    if category(kind) || !has_category(guild, *parent) {
        return Err(Verdict::WrongType);
    }
    Ok(())
}
