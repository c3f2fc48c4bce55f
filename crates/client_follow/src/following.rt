//! What a client follows, and how far.

use collections::Text;
use intent_set::Intents;

/// What a client follows, and how far.
#[derive(Drop)]
pub struct Following {
    /// The URL that it dials first.
    pub url: Text,
    /// The token that it identifies by.
    pub token: Text,
    /// What it asks for.
    pub intents: Intents,
    /// The number of dispatches after which it ends. It does not end by it if this is 0.
    pub count: u64,
}
