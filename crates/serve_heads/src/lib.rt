//! The heads of all files of scripts: the files, each read up to its first step line, and the bots and
//! guilds that they declare.
#![tactic(auto)]

mod gathering;
mod reading;
mod script_file;

pub use reading::{Heads, read_heads};
pub use script_file::ScriptFile;
