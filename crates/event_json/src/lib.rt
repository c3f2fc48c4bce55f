//! Dispatches as the texts of a gateway, both ways.
#![tactic(auto)]

mod body;
mod fault;
mod guild;
mod member;
mod message;
mod reading;
mod ready;
mod text;
mod thread;
mod voice;

pub use fault::DispatchFault;
pub use reading::{read, reads_back};
pub use text::{envelope_of, write};
