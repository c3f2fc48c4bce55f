//! The open links of a worker, each with the number of its connection, and what happens to them: a link
//! gave what came over its connection, and was sent what was given out for it.
#![tactic(auto)]

mod heard;
mod numbered;
mod open_link;
mod open_links;

pub use heard::{Heard, Word};
pub use open_links::OpenLinks;
