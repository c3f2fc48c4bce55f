//! The edits of threads: when each is refused, and what it makes of a guild's record.
#![tactic(auto)]

ghost use Rattle.std.specs.Prelude.{◌≡◌, None, true, IfOk, OnOk, OnErr};
ghost use Rattle.guild_model.specs.Tests.{outcome};
ghost use Rattle.thread_edit.specs.ThreadEdits.{thread_verdict, thread_applied};

pub mod rules;
pub mod thread_archive;
pub mod thread_create;
pub mod thread_delete;
pub mod thread_join;
pub mod thread_leave;
pub mod thread_rename;
pub mod thread_unarchive;

use guild_model::{Guild, Verdict};
use snowflake_id::Snowflake;
use std::alloc::{AllocError, Global};
pub use thread_create::ThreadCreate;
pub use thread_join::ThreadJoin;
pub use thread_leave::ThreadLeave;
pub use thread_rename::ThreadRename;

/// An edit of a guild's threads.
#[derive(Drop)]
pub enum ThreadEdit {
    /// Creates an active thread with its owner in it.
    ThreadCreate(ThreadCreate),
    /// Renames a thread.
    ThreadRename(ThreadRename),
    /// Archives a thread.
    ThreadArchive { thread: Snowflake },
    /// Makes an archived thread active again.
    ThreadUnarchive { thread: Snowflake },
    /// Deletes a thread and the messages in it.
    ThreadDelete { thread: Snowflake },
    /// Adds a user to a thread.
    ThreadJoin(ThreadJoin),
    /// Removes a user from a thread.
    ThreadLeave(ThreadLeave),
}

/// Refuses an edit of an open guild with the verdict of its first test that fails. Does not
/// allocate.
pub fn check(guild: &Guild, edit: &ThreadEdit) -> Result<(), Verdict>
    ensures { result ≡ outcome (thread_verdict guild.now edit.now) }
{
    match edit {
        ThreadEdit::ThreadCreate(edit) => thread_create::check(guild, edit),
        ThreadEdit::ThreadRename(edit) => thread_rename::check(guild, edit),
        ThreadEdit::ThreadArchive { thread } => thread_archive::check(guild, *thread),
        ThreadEdit::ThreadUnarchive { thread } => thread_unarchive::check(guild, *thread),
        ThreadEdit::ThreadDelete { thread } => thread_delete::check(guild, *thread),
        ThreadEdit::ThreadJoin(edit) => thread_join::check(guild, edit),
        ThreadEdit::ThreadLeave(edit) => thread_leave::check(guild, edit),
    }
}

/// Makes an edit that [`check`] does not refuse. If it runs out of memory, the record stays as it
/// was.
pub fn apply(alloc: Global, guild: &mut Guild, edit: ThreadEdit) -> Result<(), AllocError>
    requires open { guild.old.opened ≡ true }
    requires accepted { thread_verdict guild.old edit ≡ None }
    ensures ok { OnOk result (guild.new ≡ thread_applied guild.old edit) }
    ensures err { OnErr result (guild.new ≡ guild.old) }
{
    match edit {
        ThreadEdit::ThreadCreate(edit) => thread_create::apply(alloc, guild, edit)?,
        ThreadEdit::ThreadRename(edit) => thread_rename::apply(guild, edit),
        ThreadEdit::ThreadArchive { thread } => thread_archive::apply(guild, thread),
        ThreadEdit::ThreadUnarchive { thread } => thread_unarchive::apply(guild, thread),
        ThreadEdit::ThreadDelete { thread } => thread_delete::apply(guild, thread),
        ThreadEdit::ThreadJoin(edit) => thread_join::apply(alloc, guild, edit)?,
        ThreadEdit::ThreadLeave(edit) => thread_leave::apply(guild, edit),
    }
    Ok(())
}

impl ThreadEdit {
    /// An edit that is equal to this.
    pub fn copy(&self, alloc: Global) -> Result<ThreadEdit, AllocError>
        ensures { IfOk result (λ copy. copy ≡ self.now) }
    {
        Ok(match self {
            ThreadEdit::ThreadCreate(edit) => ThreadEdit::ThreadCreate(edit.copy(alloc)?),
            ThreadEdit::ThreadRename(edit) => ThreadEdit::ThreadRename(edit.copy(alloc)?),
            ThreadEdit::ThreadArchive { thread } => ThreadEdit::ThreadArchive { thread: *thread },
            ThreadEdit::ThreadUnarchive { thread } => {
                ThreadEdit::ThreadUnarchive { thread: *thread }
            }
            ThreadEdit::ThreadDelete { thread } => ThreadEdit::ThreadDelete { thread: *thread },
            ThreadEdit::ThreadJoin(edit) => ThreadEdit::ThreadJoin(*edit),
            ThreadEdit::ThreadLeave(edit) => ThreadEdit::ThreadLeave(*edit),
        })
    }
}
