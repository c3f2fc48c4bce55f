//! What the proofs of a door know of a pass of its queue.

use crate::call::Call;
use std::collections::LinkedList;

/// A dial knows what it put, and the door knows what it took, how often it took nothing, and how many
/// dials there are. Proofs alone have values of it.
pub struct CallView {
    pub calls: bool,
    pub caller: u64,
    pub put: LinkedList<Call>,
    pub takes: bool,
    pub made: u64,
    pub taken: LinkedList<Call>,
    pub empty_takes: u64,
}
