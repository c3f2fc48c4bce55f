//! Tests that several edits share; an edit calls its tests in order and stops at the first refusal.

ghost use Rattle.std.specs.Prelude.{◌≡◌};
ghost use Rattle.guild_model.specs.Tests.{outcome, too_long, too_many, unknown_role, unknown_member, unknown_channel, unknown_message};

use crate::guild::Guild;
use crate::verdict::Verdict;
use collections::Text;
use snowflake_id::Snowflake;

/// Refuses a text of more than `limit` bytes.
pub fn within(text: &Text, limit: u32) -> Result<(), Verdict>
    ensures { result ≡ outcome (too_long limit text.now) }
{
    if text.len() > limit as usize {
        return Err(Verdict::TooLong { limit });
    }
    Ok(())
}

/// Refuses one more where there are `limit` already.
pub fn has_room(count: usize, limit: u32) -> Result<(), Verdict>
    ensures { result ≡ outcome (too_many limit count) }
{
    if count >= limit as usize {
        return Err(Verdict::TooMany { limit });
    }
    Ok(())
}

/// Refuses a role that the guild does not have.
pub fn knows_role(guild: &Guild, role: Snowflake) -> Result<(), Verdict>
    ensures { result ≡ outcome (unknown_role guild.now role) }
{
    if !guild.roles.contains(role.0) {
        return Err(Verdict::UnknownRole);
    }
    Ok(())
}

/// Refuses a user that is no member.
pub fn knows_member(guild: &Guild, user: Snowflake) -> Result<(), Verdict>
    ensures { result ≡ outcome (unknown_member guild.now user) }
{
    if !guild.members.contains(user.0) {
        return Err(Verdict::UnknownMember);
    }
    Ok(())
}

/// Refuses a channel that the guild does not have. A thread is no channel.
pub fn knows_channel(guild: &Guild, channel: Snowflake) -> Result<(), Verdict>
    ensures { result ≡ outcome (unknown_channel guild.now channel) }
{
    if !guild.channels.contains(channel.0) {
        return Err(Verdict::UnknownChannel);
    }
    Ok(())
}

/// Refuses a message that is not kept.
pub fn knows_message(guild: &Guild, message: Snowflake) -> Result<(), Verdict>
    ensures { result ≡ outcome (unknown_message guild.now message) }
{
    if !guild.messages.contains(message) {
        return Err(Verdict::UnknownMessage);
    }
    Ok(())
}
