//! A run of `serve`, from the files, doors and clocks that a house lends to the lines that are written when all
//! parts have ended: scripts that read their files, actors, and workers that serve whoever connects, each on a
//! thread of its own.
#![tactic(auto)]

mod answering;
mod ends;
mod fault;
mod faults;
mod lending;
mod lines;
mod loan_rooms;
mod parts;
mod playing;
mod rooms;
mod running;
mod service;
mod serving;
mod serving_lent;
mod setting;
mod settling;
mod sorting;
mod telling;
mod unread;
mod writing;

pub use fault::ServeFault;
pub use running::run_serve;
