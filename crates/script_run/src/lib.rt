//! A script's part of a run: it sends the edits of its lines to the posts of the guilds' actors.
#![tactic(auto)]

mod sending;

pub use sending::{send_line, send_script};
