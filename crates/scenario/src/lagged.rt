//! Looks that lag.

use snowflake_id::Snowflake;

/// A worker's look at a guild's log that lags: the worker was given fewer entries than come before those
/// that the log keeps.
#[derive(Clone, Copy)]
pub struct Lagged {
    pub worker: u8,
    pub guild: Snowflake,
    /// How many entries come before those that are kept.
    pub base: usize,
    /// How many entries the worker was given.
    pub cursor: usize,
}
