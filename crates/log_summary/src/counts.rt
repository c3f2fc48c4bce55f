//! The numbers of a sealed log that its line tells.

ghost use Rattle.std.specs.Prelude.{◌≡◌, not};
ghost use Rattle.thread_edit.specs.Threads.{active_threads};
ghost use Rattle.log_summary.specs.Counts.{counts_of, archived_threads};

use guild_hub::SealedLog;
use guild_model::Guild;
use std::sync::Wait;

/// The numbers of a sealed log that its line tells.
#[derive(Clone, Copy, PartialEq, Eq, Debug)]
pub struct Counts {
    /// The entries of the log.
    pub entries: u64,
    /// The entries that were accepted.
    pub accepted: u64,
    /// The members of the guild after all entries.
    pub members: usize,
    /// Its roles, @everyone among them.
    pub roles: usize,
    /// Its channels, categories among them.
    pub channels: usize,
    /// Its threads that are not archived.
    pub active: usize,
    /// Its threads that are archived.
    pub archived: usize,
}

// How many threads are not archived.
fn count_active(guild: &Guild) -> usize
    ensures { result ≡ active_threads guild.now }
{
    let threads = guild.threads.as_slice();
    threads.iter().filter(|thread| !thread.archived).count()
}

// How many threads are archived.
fn count_archived(guild: &Guild) -> usize
    ensures { result ≡ archived_threads guild.now }
{
    let threads = guild.threads.as_slice();
    threads.iter().filter(|thread| thread.archived).count()
}

/// The numbers of a sealed log. It does not allocate.
pub fn counts_of<R: Wait + Drop>(log: &SealedLog<R>) -> Counts
    ensures { result ≡ counts_of log.now }
{
    let guild = log.record();
    Counts {
        entries: log.len(),
        accepted: log.accepted(),
        members: guild.members.len(),
        roles: guild.roles.len(),
        channels: guild.channels.len(),
        active: count_active(guild),
        archived: count_archived(guild),
    }
}
