//! The replay buffer of a session: the latest texts that were sent to it, within two limits.
#![tactic(auto)]

mod after;
mod laws;
mod ring;

pub use after::After;
pub use laws::{after_gives_all_later_texts, pushes_keep_the_longest_suffix};
pub use ring::Ring;
