//! The lines of a source of bytes, read as they come.
#![tactic(auto)]

mod ahead;
mod line_reader;

pub use line_reader::LineReader;
