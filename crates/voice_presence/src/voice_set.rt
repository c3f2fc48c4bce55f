//! `voice_set`: puts a member into a voice channel, moves it to another, or takes it out of voice
//! (Gateway Events, Voice State Update).

ghost use Rattle.std.specs.Prelude.{◌≡◌, Some, None, true, OnOk, OnErr};
ghost use Rattle.guild_model.specs.Tests.{outcome};
ghost use Rattle.guild_model.specs.Record.{channel_id};
ghost use Rattle.collections.specs.ById.{find_id};
ghost use Rattle.voice_presence.specs.Voices.{has_voice, has_voice_there, not_in_voice, no_voice_channel, no_channel_for_voice, voice_set_verdict, new_voice, voice_joined, voice_left, voice_was_set};

use guild_model::{ChannelKind, Guild, Verdict, Voice, rules};
use snowflake_id::Snowflake;
use std::alloc::AllocError;

/// The new voice state of a member: in a channel, or in none.
#[derive(Clone, Copy, Drop, PartialEq, Eq, Debug)]
pub struct VoiceSet {
    pub user: Snowflake,
    pub channel: Option<Snowflake>,
    pub self_mute: bool,
    pub self_deaf: bool,
}

fn for_voice(kind: ChannelKind) -> bool
    ensures { result ≡ has_voice kind }
{
    matches!(kind, ChannelKind::Voice | ChannelKind::Stage)
}

fn channel_for_voice(guild: &Guild, channel: Snowflake) -> bool
    ensures { result ≡ has_voice_there (find_id channel_id channel guild.now.channels) }
{
    match guild.channels.get(channel.0) {
        Some(channel) => for_voice(channel.kind),
        None => false,
    }
}

fn in_voice(guild: &Guild, user: Snowflake) -> Result<(), Verdict>
    ensures { result ≡ outcome (not_in_voice guild.now user) }
{
    if !guild.voices.contains(user.0) {
        return Err(Verdict::NotInVoice);
    }
    Ok(())
}

fn takes_voice(guild: &Guild, channel: Snowflake) -> Result<(), Verdict>
    ensures { result ≡ outcome (no_voice_channel guild.now channel) }
{
    rules::knows_channel(guild, channel)?;
    if !channel_for_voice(guild, channel) {
        return Err(Verdict::WrongType);
    }
    Ok(())
}

fn allows(guild: &Guild, user: Snowflake, channel: Option<Snowflake>) -> Result<(), Verdict>
    ensures { result ≡ outcome (no_channel_for_voice guild.now user channel) }
{
    match channel {
        Some(channel) => takes_voice(guild, channel),
        None => in_voice(guild, user),
    }
}

/// Refused in this order: `UnknownMember`; without a channel `NotInVoice`; with one
/// `UnknownChannel`, and `WrongType` where it is neither a voice nor a stage channel.
pub fn check(guild: &Guild, edit: &VoiceSet) -> Result<(), Verdict>
    ensures { result ≡ outcome (voice_set_verdict guild.now edit.now) }
{
    rules::knows_member(guild, edit.user)?;
    allows(guild, edit.user, edit.channel)
}

fn join(guild: &mut Guild, edit: &VoiceSet, channel: Snowflake) -> Result<(), AllocError>
    requires open { guild.old.opened ≡ true }
    requires accepted { voice_set_verdict guild.old edit.now ≡ None }
    requires there { edit.now.channel ≡ Some channel }
    ensures ok { OnOk result (guild.new ≡ voice_joined guild.old (new_voice edit.now channel)) }
    ensures err { OnErr result (guild.new ≡ guild.old) }
{
    guild.voices.put(Voice {
        user: edit.user,
        channel,
        self_mute: edit.self_mute,
        self_deaf: edit.self_deaf,
    })?;
    Ok(())
}

fn leave(guild: &mut Guild, user: Snowflake)
    requires { guild.old.opened ≡ true }
    ensures { guild.new ≡ voice_left guild.old user }
{
    guild.voices.remove(user.0);
}

/// Sets the voice state, or removes it. If it runs out of memory, the record stays as it was.
pub fn apply(guild: &mut Guild, edit: VoiceSet) -> Result<(), AllocError>
    requires open { guild.old.opened ≡ true }
    requires accepted { voice_set_verdict guild.old edit ≡ None }
    ensures ok { OnOk result (guild.new ≡ voice_was_set guild.old edit) }
    ensures err { OnErr result (guild.new ≡ guild.old) }
{
    match edit.channel {
        Some(channel) => join(guild, &edit, channel)?,
        None => leave(guild, edit.user),
    }
    Ok(())
}
