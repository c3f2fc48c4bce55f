//! The outside as traits: where bytes come from and where they go, links and doors, clocks, tasks and
//! notes, and the house that gives them. Streams, clocks and houses have forms in memory and over the
//! system.
#![tactic(auto)]

pub mod accepted;
pub mod asked;
pub mod back;
pub mod buffered_sink;
pub mod clocks;
pub mod dials;
pub mod doors;
pub mod failed_door;
pub mod failed_link;
pub mod fault_plan;
pub mod faults;
pub mod house_clock;
pub mod house_source;
pub mod houses;
pub mod incoming;
pub mod links;
pub mod machine_clock;
pub mod mem_clock;
pub mod mem_file;
pub mod mem_house;
pub mod mem_streams;
pub mod name;
pub mod networks;
pub mod no_network;
pub mod notes;
pub mod piece;
pub mod sending;
pub mod shelf;
pub mod spawners;
pub mod std_house;
pub mod std_streams;
pub mod streams;
mod unread;
