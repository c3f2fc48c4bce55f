//! The end of a run of several threads: what each sender sent was taken, and the log of each guild is one
//! order of what all senders sent for it.
#![tactic(auto)]

mod laws;
mod passes;
mod settled;
mod settling;
mod weaving;

pub use laws::logs_are_merged;
pub use settled::Settled;
pub use settling::settle;
