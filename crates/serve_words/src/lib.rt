//! The words of the command `gate`: what they ask for, if they are in its grammar.
#![tactic(auto)]

mod command;
mod grammar;
mod reading;
mod word;

pub use command::Command;
pub use reading::read_words;
