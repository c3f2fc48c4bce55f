//! What a link gives.

use collections::text::Text;

/// What a link's `recv` gives.
#[derive(Drop)]
pub enum Incoming {
    /// A text that the other end sent.
    Text(Text),
    /// The code with which the other end closed, or this end itself.
    Closed(u16),
    /// Nothing waits.
    NotYet,
}
