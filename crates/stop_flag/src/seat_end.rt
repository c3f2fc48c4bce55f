//! What a seat that has ended tells.

/// What a seat that has ended tells: its number, whether it has set the flag, and the number of the
/// seat by which it found the flag set, if it did.
pub struct SeatEnd {
    pub number: u64,
    pub has_set: bool,
    pub found: Option<u64>,
}
