//! Where messages stand, and whom they mention: the tests that the edits of messages share.

ghost use Rattle.std.specs.Prelude.{◌≡◌};
ghost use Rattle.std.specs.List.{list_all};
ghost use Rattle.collections.specs.ById.{find_id, has_id};
ghost use Rattle.guild_model.specs.Tests.{outcome};
ghost use Rattle.guild_model.specs.Record.{member_id, channel_id, thread_id};
ghost use Rattle.message_edit.specs.Channels.{takes_messages, is_wordless, is_archived, unknown_channel_or_thread, wordless_channel, archived_thread, takes_no_words, unknown_mention};

use guild_model::{ChannelKind, Guild, Verdict};
use snowflake_id::Snowflake;

fn for_messages(kind: ChannelKind) -> bool
    ensures { result ≡ takes_messages kind }
{
    match kind {
        ChannelKind::Category | ChannelKind::Forum => false,
        ChannelKind::Text | ChannelKind::Voice | ChannelKind::Announcement | ChannelKind::Stage =>
            true,
    }
}

fn wordless(guild: &Guild, channel: Snowflake) -> bool
    ensures { result ≡ is_wordless (find_id channel_id channel guild.now.channels) }
{
    match guild.channels.get(channel.0) {
        Some(channel) => !for_messages(channel.kind),
        None => false,
    }
}

fn archived(guild: &Guild, channel: Snowflake) -> bool
    ensures { result ≡ is_archived (find_id thread_id channel guild.now.threads) }
{
    match guild.threads.get(channel.0) {
        Some(thread) => thread.archived,
        None => false,
    }
}

/// Refuses, in this order: `UnknownChannel` if it is neither a channel nor a thread,
/// `WrongType` if it is a category or a forum, `Archived` if it is an archived thread.
pub fn takes_words(guild: &Guild, channel: Snowflake) -> Result<(), Verdict>
    ensures { result ≡ outcome (takes_no_words guild.now channel) }
{
    if !guild.has_channel_or_thread(channel) {
        return Err(Verdict::UnknownChannel);
    }
    if wordless(guild, channel) {
        return Err(Verdict::WrongType);
    }
    if archived(guild, channel) {
        return Err(Verdict::Archived);
    }
    Ok(())
}

fn all_members(guild: &Guild, users: &[Snowflake]) -> bool
    ensures { result ≡ list_all (λ user. has_id member_id user guild.now.members) users.now }
{
    users.iter().all(|user| guild.members.contains(user.0))
}

/// Refuses mentions that contain a user who is not a member.
pub fn knows_mentioned(guild: &Guild, mentions: &[Snowflake]) -> Result<(), Verdict>
    ensures { result ≡ outcome (unknown_mention guild.now mentions.now) }
{
    if !all_members(guild, mentions) {
        return Err(Verdict::UnknownMember);
    }
    Ok(())
}
