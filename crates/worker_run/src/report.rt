//! What a worker has done.

/// What a worker has done.
#[derive(Clone, Copy, Debug, PartialEq, Eq)]
pub struct WorkReport {
    /// How many links its door gave.
    pub connections: u64,
    /// How many sessions it has made.
    pub sessions: u64,
    /// How many dispatches it has made, or 2^64 - 1 if there were more.
    pub dispatches: u64,
}
