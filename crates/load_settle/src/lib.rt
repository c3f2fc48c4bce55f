//! The end of a run of several threads: what each taker took of a sender is all that the sender sent,
//! and each reader has seen its sealed log to the end.
#![tactic(auto)]

mod passes;
mod reading;
mod settling;

pub use settling::settle_all;
