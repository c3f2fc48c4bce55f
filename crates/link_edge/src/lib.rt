//! Links, doors and dials of WebSocket over TCP.
#![tactic(auto)]

mod connection;
mod handshake;
mod mask;
mod reading;
mod sending;
pub mod sizes;
pub mod socket_door;
pub mod socket_link;
pub mod socket_network;
mod streams;
