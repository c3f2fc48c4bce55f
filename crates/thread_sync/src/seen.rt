//! What a viewer sees of a guild, as lists of ids.

ghost use Rattle.std.specs.Prelude.{◌≡◌, IfOk, map, filter};
ghost use Rattle.guild_model.specs.Record.{thread_id};
ghost use Rattle.thread_sync.specs.ChannelSights.{sight_id, shows_among};
ghost use Rattle.thread_sync.specs.Seen.{by_lists, visible_to, visible};

use crate::channel_sight::{ChannelSight, sights};
use crate::shown::Shows;
use collections::ById;
use dispatch_types::Viewer;
use guild_model::{Guild, Member, Thread};
use overwrite_eval::StandingRef;
use snowflake_id::Snowflake;
use std::alloc::{AllocError, Global};

/// The channels and the active threads that a viewer sees, ascending.
#[derive(Drop)]
pub struct Seen {
    pub channels: ById<Snowflake>,
    pub threads: ById<Snowflake>,
}

/// By the lists of what the viewer saw.
impl Shows for Seen {
    ghost shown = { by_lists };

    fn shows_channel(&self, channel: Snowflake) -> bool {
        self.channels.contains(channel.0)
    }

    fn shows_thread(&self, thread: &Thread) -> bool {
        self.threads.contains(thread.id.0)
    }
}

fn seen_channels(alloc: Global, sights: &[ChannelSight]) -> Result<Vec<Snowflake>, AllocError>
    ensures { IfOk result (λ ids. ids.items ≡ map sight_id sights.now) }
{
    sights.iter().map(|sight| sight.channel).collect(alloc)
}

fn seen_threads(
    alloc: Global,
    sights: &ById<ChannelSight>,
    threads: &[Thread],
) -> Result<Vec<Snowflake>, AllocError>
    ensures { IfOk result (λ ids. ids.items ≡ map thread_id (filter (shows_among sights.now) threads.now)) }
{
    threads
        .iter()
        .filter(|thread| sights.shows_thread(thread))
        .map(|thread| thread.id)
        .collect(alloc)
}

/// The channels and the active threads that a member sees (Permissions, VIEW_CHANNEL; Threads, Private
/// Threads).
pub fn visible_to(alloc: Global, guild: &Guild, me: &Member) -> Result<Seen, AllocError>
    ensures { IfOk result (λ seen. seen ≡ visible_to guild.now me.now) }
{
    let standing = StandingRef::in_guild(guild, me);
    let sights = sights(alloc, &standing, me.user.id, guild.channels.as_slice())?;
    let channels = seen_channels(alloc, sights.as_slice())?;
    let channels = ById::from_ascending(channels);
    let threads = seen_threads(alloc, &sights, guild.threads.as_slice())?;
    let threads = ById::from_ascending(threads);
    Ok(Seen { channels, threads })
}

/// The channels and the active threads that a viewer's user sees (Permissions, VIEW_CHANNEL; Threads,
/// Private Threads): none if it is no member.
pub fn visible(alloc: Global, guild: &Guild, viewer: &Viewer) -> Result<Seen, AllocError>
    ensures { IfOk result (λ seen. seen ≡ visible guild.now viewer.now.user) }
{
    match guild.member(viewer.user) {
        Some(me) => visible_to(alloc, guild, me),
        None => Ok(Seen {
            channels: ById::new(alloc),
            threads: ById::new(alloc),
        }),
    }
}
