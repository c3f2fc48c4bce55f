//! What a run of `serve` begins with, and what it leaves.

use crate::ends::Returned;
use crate::fault::ServeFault;
use serve_stage::Lent;
use session_core::Bot;
use snowflake_id::Snowflake;

/// What a run begins with.
#[derive(Drop)]
pub struct Service<S, D, C> {
    /// The port of the first worker. Each other worker has the next port.
    pub port: u16,
    /// The bots, in the order of the files and their lines.
    pub bots: Vec<Bot>,
    /// The guilds, each once, in the order of the files and their lines.
    pub guilds: Vec<Snowflake>,
    /// What the house has lent.
    pub lent: Lent<S, D, C>,
}

/// What a run leaves whose parts have ended.
#[derive(Drop)]
pub struct Served<S, D, C> {
    /// All that the house had lent.
    pub returned: Returned<S, D, C>,
    /// How the run ended.
    pub ended: Result<(), ServeFault>,
}
