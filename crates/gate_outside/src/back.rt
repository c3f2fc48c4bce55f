//! What is put back into a house.

/// A part that a house gave and that is put back.
#[derive(Drop)]
pub enum Back<S, D, C> {
    /// A source.
    Source(S),
    /// A door.
    Door(D),
    /// A clock.
    Clock(C),
}
