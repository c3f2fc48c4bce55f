//! What a house lends, asked for in order, and put back in order.
#![tactic(auto)]

mod clocks;
mod doors;
mod sources;

pub use clocks::{lend_clocks, put_back_clocks};
pub use doors::{lend_doors, put_back_doors};
pub use sources::{lend_sources, put_back_sources};
