//! What a member is granted in a channel, as far as sight goes, from one mask a channel.

ghost use Rattle.std.specs.Prelude.{◌≡◌, IfOk};
ghost use Rattle.collections.specs.ById.{IsById};
ghost use Rattle.guild_model.specs.Record.{channel_id};
ghost use Rattle.thread_sync.specs.ChannelSights.{sight_in, seen_in, covers, by_sight, by_sights};

use crate::shown::Shows;
use collections::{ById, Keyed};
use guild_model::{Channel, Thread};
use overwrite_eval::StandingRef;
use perm_bits::Perms;
use snowflake_id::Snowflake;
use std::alloc::{AllocError, Global};

/// What a member is granted in one channel, as far as sight goes: whether it sees the channel, and
/// whether all private threads in it (Permissions, VIEW_CHANNEL, MANAGE_THREADS).
#[derive(Clone, Copy)]
pub struct ChannelSight {
    pub channel: Snowflake,
    pub user: Snowflake,
    pub views: bool,
    pub manages: bool,
}

impl Keyed for ChannelSight {
    ghost key = { λ l. l.channel };

    fn key(&self) -> u64 {
        self.channel.0
    }
}

// The sight of a user's member in a channel.
pub(crate) fn sight_in(standing: &StandingRef, user: Snowflake, channel: Snowflake) -> ChannelSight
    ensures { result ≡ sight_in standing.now user channel }
{
    let mask = standing.mask(channel);
    ChannelSight {
        channel,
        user,
        views: mask.has(Perms::VIEW_CHANNEL),
        manages: mask.has(Perms::MANAGE_THREADS),
    }
}

impl ChannelSight {
    // Whether this sight shows all that another one of the channel does.
    pub(crate) fn covers(&self, other: &ChannelSight) -> bool
        ensures { result ≡ covers self.now other.now }
    {
        self.views && self.user == other.user && (self.manages || !other.manages)
    }
}

/// By the sight of one channel: the channel itself, and the threads in it.
impl Shows for ChannelSight {
    ghost shown = { by_sight };

    fn shows_channel(&self, channel: Snowflake) -> bool {
        self.views && self.channel == channel
    }

    // Most threads stand elsewhere.
    fn shows_thread(&self, thread: &Thread) -> bool {
        self.views
            && thread.parent == self.channel
            && !thread.archived
            && (!thread.kind.is_private() || self.manages || thread.members.contains(self.user.0))
    }
}

/// By the sights of the channels that the member sees.
impl Shows for ById<ChannelSight> {
    ghost shown = { by_sights };

    fn shows_channel(&self, channel: Snowflake) -> bool {
        self.contains(channel.0)
    }

    fn shows_thread(&self, thread: &Thread) -> bool {
        if thread.archived {
            return false;
        }
        match self.get(thread.parent.0) {
            Some(sight) => sight.shows_thread(thread),
            None => false,
        }
    }
}

fn seen_in(
    alloc: Global,
    standing: &StandingRef,
    user: Snowflake,
    channels: &[Channel],
) -> Result<Vec<ChannelSight>, AllocError>
    ensures { IfOk result (λ sights. sights.items ≡ seen_in standing.now user channels.now) }
{
    channels
        .iter()
        .map(|channel| sight_in(standing, user, channel.id))
        .filter(|sight| sight.views)
        .collect(alloc)
}

// The sights of a user's member in those channels that it sees, ascending.
pub(crate) fn sights(
    alloc: Global,
    standing: &StandingRef,
    user: Snowflake,
    channels: &[Channel],
) -> Result<ById<ChannelSight>, AllocError>
    requires { IsById channel_id channels.now }
    ensures { IfOk result (λ found. found ≡ seen_in standing.now user channels.now) }
{
    let seen = seen_in(alloc, standing, user, channels)?;
    Ok(ById::from_ascending(seen))
}
