//! What the proofs of a flag know of a seat.

use crate::seat_end::SeatEnd;
use std::collections::LinkedList;

// The keeper of a flag knows how many seats there are, and what each of them told that has ended. A
// part's seat knows its number, whether it has set the flag, by which seat it found it set, and how
// often it has looked. Proofs alone have values of it.
pub struct FlagView {
    pub keeps: bool,
    pub seats: u64,
    pub ended: LinkedList<SeatEnd>,
    pub sits: bool,
    pub number: u64,
    pub has_set: bool,
    pub found: Option<u64>,
    pub looks: u64,
}
