//! What the edits of messages, reactions and typing owe to a viewer that is served before and after
//! them (Gateway Events, Message Create to Message Reaction Remove, Typing Start).
#![tactic(auto)]

pub mod dispatches;
pub mod forms;
pub mod law;
pub mod notes;
pub mod objects;

pub use dispatches::{add_dispatches, add_in_form, in_form};
pub use forms::{MessageForm, form_by, form_for};
pub use notes::{MessageNote, note};
