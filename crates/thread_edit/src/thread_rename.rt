//! `thread_rename`: renames a thread (Gateway Events, Thread Update).

ghost use Rattle.std.specs.Prelude.{◌≡◌, true, refl, IfOk};
ghost use Rattle.guild_model.specs.Tests.{outcome};
ghost use Rattle.thread_edit.specs.Threads.{thread_rename_verdict, thread_renamed, with_thread_name};

use crate::rules::{is_active, knows_thread};
use collections::{Change, Text};
use guild_model::{Guild, Thread, Verdict, limits, rules};
use snowflake_id::Snowflake;
use std::alloc::{AllocError, Global};

/// The new name of a thread.
#[derive(Drop)]
pub struct ThreadRename {
    pub thread: Snowflake,
    pub name: Text,
}

impl ThreadRename {
    /// An edit that is equal to this.
    pub fn copy(&self, alloc: Global) -> Result<ThreadRename, AllocError>
        ensures { IfOk result (λ copy. copy ≡ self.now) }
    {
        Ok(ThreadRename {
            thread: self.thread,
            name: self.name.copy(alloc)?,
        })
    }
}

/// Refused in this order: `UnknownThread`, `Archived`, `TooLong` for the name.
pub fn check(guild: &Guild, edit: &ThreadRename) -> Result<(), Verdict>
    ensures { result ≡ outcome (thread_rename_verdict guild.now edit.now) }
{
    knows_thread(guild, edit.thread)?;
    is_active(guild, edit.thread)?;
    rules::within(&edit.name, limits::NAME_BYTES)
}

#[derive(Drop)]
struct SetName {
    name: Text,
}

impl Change<Thread> for SetName {
    ghost changed = { λ change t. with_thread_name change.name t };

    fn change(self, thread: &mut Thread) {
        thread.name = self.name;
    }

    ghost keeps_key = { λ change t. refl };
}

/// Sets the name.
pub fn apply(guild: &mut Guild, edit: ThreadRename)
    requires { guild.old.opened ≡ true }
    ensures { guild.new ≡ thread_renamed guild.old edit }
{
    guild
        .threads
        .change(edit.thread.0, SetName { name: edit.name });
}
