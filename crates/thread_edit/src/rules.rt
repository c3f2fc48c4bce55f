//! Tests that several edits of threads share. An edit calls its tests in order and stops at the
//! first refusal.

ghost use Rattle.std.specs.Prelude.{◌≡◌};
ghost use Rattle.guild_model.specs.Tests.{outcome};
ghost use Rattle.thread_edit.specs.Threads.{is_archived, active_threads, unknown_thread, not_active, too_many_active};
ghost use Rattle.thread_edit.specs.ThreadMembers.{is_in_thread};

use guild_model::{Guild, Verdict, limits, rules};
use snowflake_id::Snowflake;

/// Refuses a thread that the guild does not have. A channel is not a thread.
pub fn knows_thread(guild: &Guild, thread: Snowflake) -> Result<(), Verdict>
    ensures { result ≡ outcome (unknown_thread guild.now thread) }
{
    if !guild.threads.contains(thread.0) {
        return Err(Verdict::UnknownThread);
    }
    Ok(())
}

/// Whether a thread exists and is archived.
pub fn archived(guild: &Guild, thread: Snowflake) -> bool
    ensures { result ≡ is_archived guild.now thread }
{
    match guild.threads.get(thread.0) {
        Some(thread) => thread.archived,
        None => false,
    }
}

/// Refuses a thread that is archived.
pub fn is_active(guild: &Guild, thread: Snowflake) -> Result<(), Verdict>
    ensures { result ≡ outcome (not_active guild.now thread) }
{
    if archived(guild, thread) {
        return Err(Verdict::Archived);
    }
    Ok(())
}

/// Whether a thread exists and a user is in it.
pub fn in_thread(guild: &Guild, thread: Snowflake, user: Snowflake) -> bool
    ensures { result ≡ is_in_thread guild.now thread user }
{
    match guild.threads.get(thread.0) {
        Some(thread) => thread.members.contains(user.0),
        None => false,
    }
}

// How many threads are not archived.
fn count_active(guild: &Guild) -> usize
    ensures { result ≡ active_threads guild.now }
{
    let threads = guild.threads.as_slice();
    threads.iter().filter(|thread| !thread.archived).count()
}

/// Refuses one more active thread in a guild that has as many as it may have.
pub fn has_room_for_active(guild: &Guild) -> Result<(), Verdict>
    ensures { result ≡ outcome (too_many_active guild.now) }
{
    rules::has_room(count_active(guild), limits::ACTIVE_THREADS)
}
