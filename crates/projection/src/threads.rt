//! The threads that a viewer may hold.

ghost use Rattle.std.specs.Prelude.{◌≡◌, ◌&&◌, map, filter, min, length, IfOk};
ghost use Rattle.guild_model.specs.Sight.{sees_in, is_in};
ghost use Rattle.guild_model.specs.Shown.{shown_channels, shown_part};
ghost use Rattle.intent_set.specs.Intents.{guild_members};
ghost use Rattle.dispatch_types.specs.Projection.{told, is_active, thread_view, seen_threads};

use collections::ById;
use dispatch_types::{ThreadCount, ThreadView};
use guild_model::{Channel, Guild, Member, Thread, ThreadMember};
use intent_set::Intents;
use overwrite_eval::StandingRef;
use snowflake_id::Snowflake;
use std::alloc::{AllocError, Global};

// How many users are in a thread, cut at 50, if GUILD_MEMBERS tells.
fn count(intents: Intents, thread: &Thread) -> Option<u32>
    ensures { result ≡ told intents guild_members (min 50 (length thread.now.members)) }
{
    if intents.has(Intents::GUILD_MEMBERS) {
        Some(ThreadCount::of(thread.members.len()).get())
    } else {
        None
    }
}

fn thread_view(
    alloc: Global,
    intents: Intents,
    user: Snowflake,
    thread: &Thread,
) -> Result<ThreadView, AllocError>
    ensures { IfOk result (λ view. view ≡ thread_view intents user thread.now) }
{
    Ok(ThreadView {
        id: thread.id,
        kind: thread.kind,
        name: thread.name.copy(alloc)?,
        owner: thread.owner,
        parent: thread.parent,
        mine: thread.members.get(user.0).copied(),
        count: count(intents, thread),
    })
}

// The views of those of the threads that are active and that a member sees by its standing.
fn views(
    alloc: Global,
    standing: &StandingRef<'_>,
    intents: Intents,
    user: Snowflake,
    threads: &[Thread],
) -> Result<Vec<ThreadView>, AllocError>
    ensures { IfOk result (λ views. views.items
        ≡ map (thread_view intents user)
        (filter (λ t. is_active t
        && sees_in standing.now t.parent t.kind (is_in standing.now.me.user.id t)) threads.now)) }
{
    let mut views = Vec::new(alloc);
    for thread in threads {
        if !thread.archived && standing.sees_thread(thread) {
            views.push(thread_view(alloc, intents, user, thread)?)?;
        }
    }
    Ok(views)
}

// The active threads that a member sees, as it holds them. They stand in channels that it is shown.
pub(crate) fn threads(
    alloc: Global,
    guild: &Guild,
    channels: &ById<Channel>,
    intents: Intents,
    me: &Member,
) -> Result<ById<ThreadView>, AllocError>
    requires { channels.now ≡ shown_channels guild.now.private guild.now me.now }
    ensures { IfOk result (λ threads. threads
        ≡ map (thread_view intents me.now.user.id)
        (seen_threads (shown_part guild.now me.now) me.now)) }
{
    let standing = StandingRef::new(guild.id, guild.owner, &guild.roles, channels, me);
    let threads = guild.threads.as_slice();
    let views = views(alloc, &standing, intents, me.user.id, threads)?;
    Ok(ById::from_ascending(views))
}
