//! What an edit of a guild owes to a viewer, and what a client then holds.
#![tactic(auto)]

pub mod by_masks;
pub mod create;
pub mod due;
pub mod forms;
pub mod law;

pub use by_masks::{events_by, note_by};
pub use create::greeting;
pub use due::{Was, events, note};
pub use forms::{form_by, form_for};
