//! What is heard of a link that is asked.

use collections::Text;

/// What a link says that is asked.
#[derive(Drop)]
pub enum Word {
    /// A text came.
    Text(Text),
    /// The client closed the connection with this code (Gateway, Disconnecting).
    Closed(u16),
    /// Nothing waits.
    Nothing,
    /// The link has failed.
    Lost,
}

/// What the link of a connection says.
#[derive(Drop)]
pub struct Heard {
    /// The number of the connection.
    pub conn: u32,
    /// What its link says.
    pub word: Word,
}
