//! What an actor has done.

use edit_post::TakePass;
use guild_hub::SealedLog;
use snowflake_id::Snowflake;
use std::sync::Wait;

/// What an actor has done when every sender has ended.
#[derive(Drop)]
pub struct ActReport<R: Wait + Drop> {
    /// The sealed log of each guild, in the order of the writers.
    pub logs: Vec<(Snowflake, SealedLog<R>)>,
    /// How many requests were for guilds that the actor does not have.
    pub strays: u64,
    /// How many requests found the log of their guild full.
    pub full: u64,
    /// The actor's pass, whose post has ended.
    pub pass: TakePass,
}
