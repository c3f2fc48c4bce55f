//! READY.

use crate::viewer::Shard;
use collections::{Seq, Text};
use guild_model::User;
use snowflake_id::Snowflake;

/// The first dispatch of a session (Gateway Events, Ready).
pub struct Ready {
    pub user: User,
    /// The guilds, each unavailable so far.
    pub guilds: Seq<Snowflake>,
    pub session: Text,
    /// The URL for a resume.
    pub url: Text,
    pub shard: Option<Shard>,
}

impl Drop for Ready {
    fn drop(self) {
        let Ready {
            user,
            guilds,
            session,
            url,
            shard: _,
        } = self;
        drop(user);
        drop(guilds);
        drop(session);
        drop(url);
    }
}
