//! How much a link takes and keeps, and how long it waits.
ghost use Rattle.std.specs.Prelude.{◌≡◌, Some};

use tungstenite::WebSocketConfig;

/// The longest message that a server takes of a client, in bytes: the longest frame of the Gateway.
pub const MOST_FRAME_BYTES: usize = 4096;

/// The longest message that a client takes of a server, in bytes.
pub const MOST_TEXT_BYTES: usize = 67108864;

/// How many bytes of a server's texts are gathered before they go out.
pub const MOST_GATHERED_BYTES: usize = 16384;

/// How many bytes may wait for a peer that does not read.
pub const MOST_WAITING_BYTES: usize = 67108864;

/// How long a handshake may take, in milliseconds.
pub const HANDSHAKE_MS: u64 = 5000;

/// How long a dial waits for each address of its URL, in milliseconds.
pub const CONNECT_MS: u64 = 2000;

// How many bytes a server and a client ask for at once.
const SERVER_READ_BYTES: usize = 4096;

const CLIENT_READ_BYTES: usize = 65536;

// The configuration of a socket that takes messages of so many bytes.
fn config_for(message_bytes: usize, read_bytes: usize) -> WebSocketConfig
    ensures message { result.max_message_size ≡ Some message_bytes }
    ensures frame { result.max_frame_size ≡ Some message_bytes }
{
    WebSocketConfig::default()
        .read_buffer_size(read_bytes)
        .max_write_buffer_size(MOST_WAITING_BYTES)
        .max_message_size(Some(message_bytes))
        .max_frame_size(Some(message_bytes))
}

/// The configuration of a server's socket.
pub(crate) fn server_config() -> WebSocketConfig
    ensures message { result.max_message_size ≡ Some 4096 }
    ensures frame { result.max_frame_size ≡ Some 4096 }
{
    config_for(MOST_FRAME_BYTES, SERVER_READ_BYTES)
}

/// The configuration of a client's socket.
pub(crate) fn client_config() -> WebSocketConfig
    ensures message { result.max_message_size ≡ Some 67108864 }
    ensures frame { result.max_frame_size ≡ Some 67108864 }
{
    config_for(MOST_TEXT_BYTES, CLIENT_READ_BYTES)
}
