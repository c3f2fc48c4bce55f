//! What an edit of a guild that withholds no channels owes to a viewer that is served before and after it, and what
//! a client then holds.
#![tactic(auto)]

pub mod dispatches;
pub mod law;

pub use dispatches::{Before, add_dispatches, note, note_by};
