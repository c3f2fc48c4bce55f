//! What the proofs of a post know of a seat of its marks.

use std::collections::LinkedList;

// A sender knows the mark that it stored, 0 for none. The taker knows the mark that it found of each
// sender, 0 for none, how many senders there are, and the sender and the answer of each of its looks;
// after it has settled with a sender, the mark that this one stored. Proofs alone have values of it.
pub struct MarkView {
    pub sends: bool,
    pub sender: u64,
    pub stored: u64,
    pub takes: bool,
    pub made: u64,
    pub found: LinkedList<u64>,
    pub looks: LinkedList<(u64, u64)>,
}
