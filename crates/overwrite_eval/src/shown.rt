//! Which channels and voice states of a guild are shown to a member.

ghost use Rattle.std.specs.Prelude.{◌≡◌, IfOk, filter};
ghost use Rattle.guild_model.specs.Shown.{is_shown, shown_channels, shown_voices};

use crate::standing::StandingRef;
use collections::{ById, Duplicate};
use guild_model::{Channel, Guild, Member, Voice};
use snowflake_id::Snowflake;
use std::alloc::{AllocError, Global};

impl StandingRef<'_> {
    /// Whether a channel of a guild is shown to the member (Permissions, VIEW_CHANNEL): each is, unless the
    /// guild withholds channels and the member does not see it. `private`: the guild withholds channels.
    pub fn shows(&self, private: bool, channel: Snowflake) -> bool
        ensures { result ≡ is_shown private self.now channel }
    {
        !private || self.sees(channel)
    }
}

// Copies of those of the channels that are shown.
fn copies_of_channels(
    alloc: Global,
    private: bool,
    standing: &StandingRef<'_>,
    channels: &[Channel],
) -> Result<Vec<Channel>, AllocError>
    ensures { IfOk result (λ copies. copies.items ≡ filter (λ c. is_shown private standing.now c.id) channels.now) }
{
    let mut copies = Vec::new(alloc);
    for channel in channels {
        if standing.shows(private, channel.id) {
            copies.push(channel.duplicate(alloc)?)?;
        }
    }
    Ok(copies)
}

/// Copies of the channels of a guild that are shown to a member.
///
/// # Errors
/// Out of memory.
pub fn shown_channels(
    alloc: Global,
    guild: &Guild,
    me: &Member,
) -> Result<ById<Channel>, AllocError>
    ensures { IfOk result (λ shown. shown ≡ shown_channels guild.now.private guild.now me.now) }
{
    let standing = StandingRef::in_guild(guild, me);
    let channels = guild.channels.as_slice();
    let copies = copies_of_channels(alloc, guild.private, &standing, channels)?;
    Ok(ById::from_ascending(copies))
}

// Those of the voice states that are shown.
fn copies_of_voices(
    alloc: Global,
    private: bool,
    standing: &StandingRef<'_>,
    voices: &[Voice],
) -> Result<Vec<Voice>, AllocError>
    ensures { IfOk result (λ copies. copies.items ≡ filter (λ z. is_shown private standing.now z.channel) voices.now) }
{
    voices
        .iter()
        .filter(|voice| standing.shows(private, voice.channel))
        .copied()
        .collect(alloc)
}

/// The voice states of a guild whose channels are shown to a member.
///
/// # Errors
/// Out of memory.
pub fn shown_voices(alloc: Global, guild: &Guild, me: &Member) -> Result<ById<Voice>, AllocError>
    ensures { IfOk result (λ shown. shown ≡ shown_voices guild.now.private guild.now me.now) }
{
    let standing = StandingRef::in_guild(guild, me);
    let voices = guild.voices.as_slice();
    let copies = copies_of_voices(alloc, guild.private, &standing, voices)?;
    Ok(ById::from_ascending(copies))
}
