//! What the edits of threads owe to a viewer that is served before and after them (Gateway Events,
//! Thread Create to Thread Members Update).
#![tactic(auto)]

pub mod dispatches;
pub mod law;
pub mod sight;

pub use dispatches::add_dispatches;
pub use sight::{ThreadNote, note};
