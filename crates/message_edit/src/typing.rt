//! `typing`: says that a user types. The record keeps nothing of it (Gateway Events, Typing Start).

ghost use Rattle.std.specs.Prelude.{◌≡◌};
ghost use Rattle.guild_model.specs.Tests.{outcome};
ghost use Rattle.message_edit.specs.Messages.{typing_verdict};

use crate::channel::takes_words;
use guild_model::{Guild, Moment, Verdict, rules};
use snowflake_id::Snowflake;

/// The user who types, and the moment at which it began.
#[derive(Clone, Copy, Drop, PartialEq, Eq, Debug)]
pub struct Typing {
    /// The channel or the thread in which the user types.
    pub channel: Snowflake,
    pub user: Snowflake,
    pub at: Moment,
}

/// Refused in this order: `UnknownChannel`, `WrongType` and `Archived` for the channel,
/// `UnknownMember`.
pub fn check(guild: &Guild, edit: &Typing) -> Result<(), Verdict>
    ensures { result ≡ outcome (typing_verdict guild.now edit.now) }
{
    takes_words(guild, edit.channel)?;
    rules::knows_member(guild, edit.user)
}
