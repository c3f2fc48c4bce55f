//! An entry of a guild's log, which all who hold it share.
#![tactic(auto)]

mod entry;
mod sharing;

pub use entry::Entry;
pub use sharing::{shared, shared_from};
