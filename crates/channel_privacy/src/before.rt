//! What has to be known of the record before an edit.

ghost use Rattle.std.specs.Prelude.{◌≡◌, IfOk, filter, map, not};
ghost use Rattle.guild_model.specs.Record.{channel_id};
ghost use Rattle.guild_model.specs.Shown.{is_shown};
ghost use Rattle.channel_privacy.specs.ByNote.{shown_before};

use collections::ById;
use guild_model::{Channel, Guild, Member, Voice};
use overwrite_eval::{StandingRef, shown_channels, shown_voices};
use snowflake_id::Snowflake;
use std::alloc::{AllocError, Global};

/// What was shown of a guild to a member before an edit.
pub struct ShownBefore {
    /// The channels that were shown, as they were.
    pub shown: ById<Channel>,
    /// The channels that were not.
    pub hidden: ById<Snowflake>,
    /// The voice states that were shown.
    pub speaking: ById<Voice>,
}

impl Drop for ShownBefore {
    fn drop(self) {
        let ShownBefore {
            shown,
            hidden,
            speaking,
        } = self;
        drop(shown);
        drop(hidden);
        drop(speaking);
    }
}

// The ids of those of the channels that are not shown.
fn ids_of_hidden(
    alloc: Global,
    private: bool,
    standing: &StandingRef<'_>,
    channels: &[Channel],
) -> Result<Vec<Snowflake>, AllocError>
    ensures { IfOk result (λ ids. ids.items ≡ map channel_id (filter (λ c. not (is_shown private standing.now c.id)) channels.now)) }
{
    channels
        .iter()
        .filter(|channel| !standing.shows(private, channel.id))
        .map(|channel| channel.id)
        .collect(alloc)
}

fn hidden_channels(
    alloc: Global,
    private: bool,
    standing: &StandingRef<'_>,
    channels: &ById<Channel>,
) -> Result<ById<Snowflake>, AllocError>
    ensures { IfOk result (λ hidden. hidden ≡ map channel_id (filter (λ c. not (is_shown private standing.now c.id)) channels.now)) }
{
    let ids = ids_of_hidden(alloc, private, standing, channels.as_slice())?;
    Ok(ById::from_ascending(ids))
}

impl ShownBefore {
    /// What is shown of a record to a member.
    ///
    /// # Errors
    /// Out of memory.
    pub fn of(alloc: Global, before: &Guild, me: &Member) -> Result<ShownBefore, AllocError>
        ensures { IfOk result (λ was. was ≡ shown_before before.now.private before.now me.now) }
    {
        let standing = StandingRef::in_guild(before, me);
        Ok(ShownBefore {
            shown: shown_channels(alloc, before, me)?,
            hidden: hidden_channels(alloc, before.private, &standing, &before.channels)?,
            speaking: shown_voices(alloc, before, me)?,
        })
    }
}
