//! `thread_delete`: deletes a thread and the messages in it (Gateway Events, Thread Delete).

ghost use Rattle.std.specs.Prelude.{◌≡◌, true};
ghost use Rattle.guild_model.specs.Tests.{outcome};
ghost use Rattle.thread_edit.specs.Threads.{thread_delete_verdict, thread_deleted};

use crate::rules::knows_thread;
use guild_model::{Guild, Verdict};
use snowflake_id::Snowflake;

/// Refused with `UnknownThread`.
pub fn check(guild: &Guild, thread: Snowflake) -> Result<(), Verdict>
    ensures { result ≡ outcome (thread_delete_verdict guild.now thread) }
{
    knows_thread(guild, thread)
}

/// Removes the thread and its messages.
pub fn apply(guild: &mut Guild, thread: Snowflake)
    requires { guild.old.opened ≡ true }
    ensures { guild.new ≡ thread_deleted guild.old thread }
{
    guild.messages.remove_in(thread);
    guild.threads.remove(thread.0);
}
