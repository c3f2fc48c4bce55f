//! The intents of a session, and the kinds of dispatches that they ask for.
#![tactic(auto)]

mod flags;
mod intents;
mod kind;

pub use intents::{Intents, UnknownIntent};
pub use kind::Kind;
