//! What the edits of channels and overwrites owe to a viewer that is served before and after them.
#![tactic(auto)]

pub mod dispatches;
pub mod ends;
pub mod law;

pub use dispatches::add_dispatches;
pub use ends::{ChannelEnd, ChannelNote, note};
