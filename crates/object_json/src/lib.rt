//! Discord's objects as JSON, both ways.
#![tactic(auto)]

pub mod channel;
pub mod fault;
pub mod field;
pub mod member;
pub mod message;
pub mod presence;
pub mod readable;
pub mod reading;
pub mod role;
pub mod thread;
pub mod user;
pub mod voice;
pub mod written;
