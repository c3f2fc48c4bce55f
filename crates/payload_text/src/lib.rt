//! The text of a gateway payload, of which all but the number is kept once for all that are sent it.
#![tactic(auto)]

mod append;
mod envelope;
mod payload;

pub use append::append_all;
pub use envelope::Envelope;
pub use payload::{Payload, Pieces};
