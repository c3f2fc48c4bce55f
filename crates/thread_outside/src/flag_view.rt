//! What the proofs of a lane know of a seat at its flag.

/// The end that puts knows whether it has left, and the end that takes whether it has found that the
/// other has. Proofs alone have values of it.
pub struct FlagView {
    pub puts: bool,
    pub left: bool,
    pub takes: bool,
    pub found: bool,
}
