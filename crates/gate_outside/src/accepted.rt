//! What a door answers.

/// What a door's `accept` answers.
#[derive(Drop)]
pub enum Accepted<L> {
    /// A new link.
    Link(L),
    /// Nobody waits.
    NotYet,
    /// No link will come any more.
    Ended,
}
