//! `thread_unarchive`: makes an archived thread active again (Gateway Events, Thread Update; Threads,
//! Active & Archived Threads).

ghost use Rattle.std.specs.Prelude.{◌≡◌, true};
ghost use Rattle.guild_model.specs.Tests.{outcome};
ghost use Rattle.thread_edit.specs.Archives.{thread_unarchive_verdict, thread_unarchived};

use crate::rules::{archived, has_room_for_active, knows_thread};
use crate::thread_archive::SetArchived;
use guild_model::{Guild, Verdict};
use snowflake_id::Snowflake;

/// Refused in this order: `UnknownThread`, `NotArchived`, `TooMany` active threads.
pub fn check(guild: &Guild, thread: Snowflake) -> Result<(), Verdict>
    ensures { result ≡ outcome (thread_unarchive_verdict guild.now thread) }
{
    knows_thread(guild, thread)?;
    if !archived(guild, thread) {
        return Err(Verdict::NotArchived);
    }
    has_room_for_active(guild)
}

/// Makes the thread active.
pub fn apply(guild: &mut Guild, thread: Snowflake)
    requires { guild.old.opened ≡ true }
    ensures { guild.new ≡ thread_unarchived guild.old thread }
{
    guild.threads.change(thread.0, SetArchived(false));
}
