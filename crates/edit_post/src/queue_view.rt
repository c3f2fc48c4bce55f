//! What the proofs of a post know of a pass of its queue.

use crate::request::Request;
use std::collections::LinkedList;

// A sender knows what it sent. The taker knows what it took, how many senders there are and how many
// of its takes found nothing, and after it has settled with a sender, what that one sent. Proofs alone
// have values of it.
pub struct QueueView {
    pub sends: bool,
    pub sender: u64,
    pub sent: LinkedList<Request>,
    pub takes: bool,
    pub made: u64,
    pub taken: LinkedList<Request>,
    pub empty_takes: u64,
}
