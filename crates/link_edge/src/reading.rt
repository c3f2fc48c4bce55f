//! What a socket gives.

use crate::handshake::Socket;
use collections::text::Text;
use gate_outside::faults::Fault;
use gate_outside::incoming::Incoming;
use std::alloc::Global;
use std::io::ErrorKind;
use std::random::RandomSource;
use std::str;
use tungstenite::{CloseFrame, Error, Message};

// How many messages that are neither texts nor closes one call passes over.
const MOST_CONTROLS: u32 = 16;

// The longest reply to a ping or a close, in bytes.
const REPLY_BYTES: usize = 139;

// The code of a close that has none.
const NO_CODE: u16 = 1005;

// A copy of a text. Its message is gone, so out of memory is a failure.
fn text_of(alloc: Global, text: &str) -> Result<Incoming, Fault> {
    match Text::new(alloc, text) {
        Ok(copy) => Ok(Incoming::Text(copy)),
        Err(_) => Err(Fault::Failed),
    }
}

// Bytes as a text; the empty one if they are no UTF-8.
fn text_of_bytes(alloc: Global, bytes: &[u8]) -> Result<Incoming, Fault> {
    match str::from_utf8(bytes) {
        Ok(text) => text_of(alloc, text),
        Err(_) => text_of(alloc, ""),
    }
}

// The code of a close.
fn code_of(frame: Option<CloseFrame>) -> u16 {
    match frame {
        Some(frame) => u16::from(frame.code),
        None => NO_CODE,
    }
}

// What a read that gave no message answers. A message that is too long, or no UTF-8, is the empty text.
fn without_message(alloc: Global, error: Error) -> Result<Incoming, Fault> {
    match error {
        Error::Io(cause) => match cause.kind() {
            ErrorKind::WouldBlock | ErrorKind::Interrupted => Ok(Incoming::NotYet),
            _ => Err(Fault::Failed),
        },
        Error::OutOfMemory => Err(Fault::Memory),
        Error::Capacity(_) | Error::Utf8 => text_of(alloc, ""),
        _ => Err(Fault::Failed),
    }
}

/// Gives what waits first on a socket. `replies` grows by the bytes with which pings and closes are
/// answered.
pub fn next_of<R: RandomSource + Copy + Drop>(
    alloc: Global,
    socket: &mut Socket<R>,
    replies: &mut usize,
) -> Result<Incoming, Fault> {
    for _ in 0..MOST_CONTROLS {
        match socket.read() {
            Ok(Message::Text(text)) => return text_of(alloc, text.as_str()),
            Ok(Message::Binary(bytes)) => return text_of_bytes(alloc, bytes.as_slice()),
            Ok(Message::Close(frame)) => {
                *replies = replies.saturating_add(REPLY_BYTES);
                return Ok(Incoming::Closed(code_of(frame)));
            }
            Ok(Message::Ping(_)) | Ok(Message::Pong(_)) => {
                *replies = replies.saturating_add(REPLY_BYTES);
            }
            Err(error) => return without_message(alloc, error),
        }
    }
    Ok(Incoming::NotYet)
}
