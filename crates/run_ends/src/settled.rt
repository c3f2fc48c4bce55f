//! What is settled at the end of a run.

use guild_hub::SealedLog;
use snowflake_id::Snowflake;
use std::sync::Wait;

/// What is settled at the end of a run.
pub struct Settled<R: Wait + Drop> {
    /// The sealed log of each guild, in the order of the guilds.
    pub logs: Vec<(Snowflake, SealedLog<R>)>,
    /// How many requests were for guilds that have no log, or 2^64 - 1 if there were more.
    pub strays: u64,
}

impl<R: Wait + Drop> Drop for Settled<R> {
    fn drop(self) {
        let Settled { logs, strays: _ } = self;
        drop(logs);
    }
}
