//! `thread_archive`: archives a thread (Gateway Events, Thread Update; Threads, Active & Archived
//! Threads).

ghost use Rattle.std.specs.Prelude.{◌≡◌, true, refl};
ghost use Rattle.guild_model.specs.Tests.{outcome};
ghost use Rattle.thread_edit.specs.Archives.{thread_archive_verdict, thread_archived, with_archived};

use crate::rules::{is_active, knows_thread};
use collections::Change;
use guild_model::{Guild, Thread, Verdict};
use snowflake_id::Snowflake;

/// Refused in this order: `UnknownThread`, `Archived`.
pub fn check(guild: &Guild, thread: Snowflake) -> Result<(), Verdict>
    ensures { result ≡ outcome (thread_archive_verdict guild.now thread) }
{
    knows_thread(guild, thread)?;
    is_active(guild, thread)
}

/// Archives a thread, or makes it active again.
#[derive(Clone, Copy)]
pub struct SetArchived(pub bool);

impl Change<Thread> for SetArchived {
    ghost changed = { λ change t. with_archived change.0 t };

    fn change(self, thread: &mut Thread) {
        thread.archived = self.0;
    }

    ghost keeps_key = { λ change t. refl };
}

/// Archives the thread.
pub fn apply(guild: &mut Guild, thread: Snowflake)
    requires { guild.old.opened ≡ true }
    ensures { guild.new ≡ thread_archived guild.old thread }
{
    guild.threads.change(thread.0, SetArchived(true));
}
