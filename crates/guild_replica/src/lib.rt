//! A worker's copy of a guild, with the masks of the bots that it serves.
#![tactic(auto)]

mod masks;
mod replica;

pub use replica::Replica;
