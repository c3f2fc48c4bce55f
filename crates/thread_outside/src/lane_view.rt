//! What the proofs of a lane know of a pass of its queue.

use gate_outside::sending::Sending;
use std::collections::LinkedList;

/// The end that puts knows what it put, and the end that takes knows what it took and how often it
/// took nothing. Proofs alone have values of it.
pub struct LaneView {
    pub puts: bool,
    pub put: LinkedList<Sending>,
    pub takes: bool,
    pub taken: LinkedList<Sending>,
    pub empty_takes: u64,
}
