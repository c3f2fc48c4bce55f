//! How a client's connection ends.

use crate::target::Target;

/// How a connection ended.
#[derive(Clone, Copy, Debug, PartialEq, Eq)]
pub enum Ending {
    /// The client left it, or it was lost; the client connects again.
    Left(Target),
    /// It was dropped, since the watcher wanted so; the client connects again.
    Dropped(Target),
    /// It was closed with 1000, since the watcher had seen enough.
    Finished,
    /// It was dropped, since the watcher stopped the client.
    Stopped,
}
