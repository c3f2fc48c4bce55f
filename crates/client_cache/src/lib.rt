//! What a client makes of the dispatches that it is sent: a cache of guilds.
#![tactic(auto)]

mod cache;
mod channels;
mod fold;
mod guild;
mod guilds;
mod held;
mod known;
mod members;
mod objects;
mod presences;
mod purge;
mod roles;
mod rows;
mod thread_list;
mod thread_members;
mod threads;
mod voices;

pub use cache::Cache;
