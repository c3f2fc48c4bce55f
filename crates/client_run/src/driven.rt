//! How a client ends without a fault.

/// How a client ended without a fault.
#[derive(Clone, Copy, Debug, PartialEq, Eq)]
pub enum Driven {
    /// Its watcher had seen enough, and its last connection was closed with 1000.
    Finished,
    /// Its watcher stopped it. Its connection, if there was one, was dropped.
    Stopped,
}
