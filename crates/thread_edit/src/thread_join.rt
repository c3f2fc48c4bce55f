//! `thread_join`: adds a user to a thread (Gateway Events, Thread Members Update).

ghost use Rattle.std.specs.Prelude.{◌≡◌, None, true, refl, OnOk, OnErr, IfOk};
ghost use Rattle.guild_model.specs.Tests.{outcome};
ghost use Rattle.thread_edit.specs.ThreadMembers.{thread_join_verdict, thread_joined, members_with, with_members};

use crate::rules::{in_thread, is_active, knows_thread};
use collections::{ById, Change};
use guild_model::{Guild, Moment, Thread, ThreadMember, Verdict, rules};
use snowflake_id::Snowflake;
use std::alloc::{AllocError, Global};

/// The user who joins a thread, and when.
#[derive(Clone, Copy, Drop, PartialEq, Eq, Debug)]
pub struct ThreadJoin {
    pub thread: Snowflake,
    pub user: Snowflake,
    pub at: Moment,
}

/// Refused in this order: `UnknownThread`, `UnknownMember`, `Archived`, `InThread`.
pub fn check(guild: &Guild, edit: &ThreadJoin) -> Result<(), Verdict>
    ensures { result ≡ outcome (thread_join_verdict guild.now edit.now) }
{
    knows_thread(guild, edit.thread)?;
    rules::knows_member(guild, edit.user)?;
    is_active(guild, edit.thread)?;
    if in_thread(guild, edit.thread, edit.user) {
        return Err(Verdict::InThread);
    }
    Ok(())
}

#[derive(Drop)]
struct SetMembers {
    members: ById<ThreadMember>,
}

impl Change<Thread> for SetMembers {
    ghost changed = { λ change t. with_members change.members t };

    fn change(self, thread: &mut Thread) {
        thread.members = self.members;
    }

    ghost keeps_key = { λ change t. refl };
}

// The members of a thread and one more.
fn grown_members(
    alloc: Global,
    guild: &Guild,
    thread: Snowflake,
    member: ThreadMember,
) -> Result<ById<ThreadMember>, AllocError>
    ensures { IfOk result (λ ms. ms ≡ members_with guild.now thread member) }
{
    let mut members = match guild.threads.get(thread.0) {
        Some(thread) => thread.members.copy(alloc)?,
        None => ById::new(alloc),
    };
    members.put(member)?;
    Ok(members)
}

/// Adds the user to the thread. If it runs out of memory, the record stays as it was.
pub fn apply(alloc: Global, guild: &mut Guild, edit: ThreadJoin) -> Result<(), AllocError>
    requires open { guild.old.opened ≡ true }
    requires accepted { thread_join_verdict guild.old edit ≡ None }
    ensures ok { OnOk result (guild.new ≡ thread_joined guild.old edit) }
    ensures err { OnErr result (guild.new ≡ guild.old) }
{
    let member = ThreadMember {
        user: edit.user,
        joined: edit.at,
    };
    let members = grown_members(alloc, guild, edit.thread, member)?;
    guild.threads.change(edit.thread.0, SetMembers { members });
    Ok(())
}
