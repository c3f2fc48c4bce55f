//! `message_delete`: deletes a message (Gateway Events, Message Delete).

ghost use Rattle.std.specs.Prelude.{◌≡◌, true};
ghost use Rattle.guild_model.specs.Tests.{outcome};
ghost use Rattle.message_edit.specs.Messages.{message_delete_verdict, message_deleted};

use guild_model::{Guild, Verdict, rules};
use snowflake_id::Snowflake;

/// Refused with `UnknownMessage`.
pub fn check(guild: &Guild, message: Snowflake) -> Result<(), Verdict>
    ensures { result ≡ outcome (message_delete_verdict guild.now message) }
{
    rules::knows_message(guild, message)
}

/// Removes the message.
pub fn apply(guild: &mut Guild, message: Snowflake)
    requires { guild.old.opened ≡ true }
    ensures { guild.new ≡ message_deleted guild.old message }
{
    guild.messages.remove(message);
}
