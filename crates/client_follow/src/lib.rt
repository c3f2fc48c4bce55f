//! A client that follows a gateway and writes a line for each dispatch.
#![tactic(auto)]

mod client;
mod closing;
mod ending;
mod fault;
mod following;
mod watch;
mod writing;

pub use client::follow;
pub use fault::FollowFault;
pub use following::Following;
