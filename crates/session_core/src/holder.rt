//! Whom a session is for.

ghost use Rattle.std.specs.Prelude.{◌≡◌, IfOk};
ghost use Rattle.session_core.specs.Holders.{new_holder, viewer_for};

use crate::ids::session_id;
use collections::Text;
use dispatch_types::{Shard, Viewer};
use intent_set::Intents;
use snowflake_id::Snowflake;
use std::alloc::{AllocError, Global};

/// Whom a session is for (Gateway Events, Identify and Ready).
pub struct Holder {
    /// The id of the session.
    pub id: Text,
    /// The user of its bot.
    pub user: Snowflake,
    /// The name of that user.
    pub name: Text,
    /// The intents that the bot asked for.
    pub intents: Intents,
    /// The bot's shard, if it has several.
    pub shard: Option<Shard>,
    /// The number of members above which a guild is large.
    pub threshold: u16,
}

impl Drop for Holder {
    fn drop(self) {
        let Holder {
            id,
            user: _,
            name,
            intents: _,
            shard: _,
            threshold: _,
        } = self;
        drop(id);
        drop(name);
    }
}

impl Holder {
    /// The holder of the session of a number at a worker, by the name of its bot and by its viewer.
    pub(crate) fn new(
        alloc: Global,
        worker: u8,
        number: u32,
        name: Text,
        viewer: &Viewer,
    ) -> Result<Holder, AllocError>
        ensures { IfOk result (λ holder. holder ≡ new_holder worker number name viewer.now) }
    {
        let id = session_id(alloc, worker, number)?;
        Ok(Holder {
            id,
            user: viewer.user,
            name,
            intents: viewer.intents,
            shard: viewer.shard,
            threshold: viewer.threshold,
        })
    }

    /// The viewer of the session's dispatches.
    pub fn viewer(&self) -> Viewer
        ensures { result ≡ viewer_for self.now }
    {
        Viewer {
            user: self.user,
            intents: self.intents,
            shard: self.shard,
            threshold: self.threshold,
        }
    }
}
