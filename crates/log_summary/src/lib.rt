//! The summary of a load: a line for each sealed log, a line for each client, and how many entries
//! there are in all.
#![tactic(auto)]

mod all_lines;
mod counts;
mod lines;

pub use all_lines::summary;
pub use counts::{Counts, counts_of};
pub use lines::add_guild_line;
