//! The law of a world of workers that follow the logs of guilds and serve sessions: definitions, and the
//! law as a function whose contract is the statement.
#![tactic(auto)]

pub mod law;

pub use law::the_law;
