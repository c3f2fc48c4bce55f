//! A bot's side of the Gateway protocol as a pure machine: what it does after each text, each loss of
//! its connection, and when a heartbeat is due.
#![tactic(auto)]

mod act;
mod client;
mod fault;
mod frames;
mod heartbeat;
pub mod law;
mod received;
mod session;

pub use act::Act;
pub use client::Client;
pub use fault::ClientFault;
pub use received::Received;
