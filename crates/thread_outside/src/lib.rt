//! What threads stand on, in memory and over the system: links, doors, dials, networks, spawners and
//! notes.
#![tactic(auto)]

pub mod call;
mod call_taker;
pub mod call_view;
mod calls;
mod copies;
pub mod dialled_door;
pub mod door_content;
pub mod door_dial;
mod ends;
mod flag;
pub mod flag_view;
pub mod kept_notes;
pub mod kept_tale;
mod lane;
pub mod lane_end;
pub mod lane_view;
pub mod laws;
pub mod link_content;
mod link_shelf;
pub mod mem_dial;
pub mod mem_door;
pub mod mem_link;
pub mod mem_network;
pub mod network_door;
pub mod outcome;
pub mod peer;
pub mod quiet_notes;
pub mod running;
pub mod script;
pub mod serial_spawner;
pub mod start_count;
pub mod sure_door;
pub mod sure_link;
pub mod sure_spawner;
pub mod thread_team;
pub mod unused;
mod unused_ends;
