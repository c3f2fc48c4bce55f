//! A script whose lines come from a source: the head of its file, and then its edits, each sent to the
//! post of its guild's actor as soon as its line is read.
#![tactic(auto)]

mod fault;
mod head;
mod script;
mod script_lines;
mod sending;

pub use fault::ScriptFault;
pub use head::{Declared, FileHead, read_head};
pub use script::FileScript;
pub use sending::send_file;
