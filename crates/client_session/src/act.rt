//! What a client has its caller do.

use collections::Text;

/// What a client has its caller do, in order (Gateway, Connection Lifecycle).
#[derive(Drop)]
pub enum Act {
    /// Send this text on the connection.
    Send(Text),
    /// Close the connection with this code. Its end is no loss: [`crate::Client::on_lost`] is not called
    /// for it.
    Hang(u16),
    /// Connect to the first URL.
    DialFirst,
    /// Connect to `resume_gateway_url`, which READY gave.
    DialResume,
}
