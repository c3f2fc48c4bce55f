//! `thread_leave`: removes a user from a thread (Gateway Events, Thread Members Update).

ghost use Rattle.std.specs.Prelude.{◌≡◌, true, refl};
ghost use Rattle.guild_model.specs.Tests.{outcome};
ghost use Rattle.thread_edit.specs.ThreadMembers.{thread_leave_verdict, thread_left, with_left};

use crate::rules::{in_thread, is_active, knows_thread};
use collections::Change;
use guild_model::{Guild, Thread, Verdict};
use snowflake_id::Snowflake;

/// The user who leaves a thread.
#[derive(Clone, Copy, Drop, PartialEq, Eq, Debug)]
pub struct ThreadLeave {
    pub thread: Snowflake,
    pub user: Snowflake,
}

/// Refused in this order: `UnknownThread`, `Archived`, `NotInThread`.
pub fn check(guild: &Guild, edit: &ThreadLeave) -> Result<(), Verdict>
    ensures { result ≡ outcome (thread_leave_verdict guild.now edit.now) }
{
    knows_thread(guild, edit.thread)?;
    is_active(guild, edit.thread)?;
    if !in_thread(guild, edit.thread, edit.user) {
        return Err(Verdict::NotInThread);
    }
    Ok(())
}

/// Removes a user from a thread.
#[derive(Clone, Copy)]
struct Left(Snowflake);

impl Change<Thread> for Left {
    ghost changed = { λ change t. with_left change.0 t };

    fn change(self, thread: &mut Thread) {
        thread.members.remove(self.0.0);
    }

    ghost keeps_key = { λ change t. refl };
}

/// Removes the user from the thread.
pub fn apply(guild: &mut Guild, edit: ThreadLeave)
    requires { guild.old.opened ≡ true }
    ensures { guild.new ≡ thread_left guild.old edit }
{
    guild.threads.change(edit.thread.0, Left(edit.user));
}
