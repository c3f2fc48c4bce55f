//! What becomes of what a socket is sent.

use crate::handshake::Socket;
use std::io::ErrorKind;
use std::random::RandomSource;
use tungstenite::{CloseCode, CloseFrame, Error, Message, Utf8Bytes};

/// What became of a message.
#[derive(Clone, Copy, Debug, PartialEq, Eq)]
pub enum Sent {
    /// It and all before it went out.
    Whole,
    /// An end of what was sent waits: the peer does not read, or it is gathered.
    Waits,
    /// Out of memory. The socket is as before.
    Memory,
    /// The socket failed.
    Failed,
}

// What an answer of a socket says.
fn sent_by(answer: Result<(), Error>) -> Sent {
    match answer {
        Ok(()) => Sent::Whole,
        Err(Error::Io(cause)) => match cause.kind() {
            ErrorKind::WouldBlock | ErrorKind::Interrupted => Sent::Waits,
            _ => Sent::Failed,
        },
        Err(Error::OutOfMemory) => Sent::Memory,
        Err(_) => Sent::Failed,
    }
}

/// Sends a message.
pub fn send<R: RandomSource + Copy + Drop>(socket: &mut Socket<R>, message: Message) -> Sent {
    sent_by(socket.send(message))
}

/// Takes a message, which goes out with what is sent next, or by [`flush`].
pub fn gather<R: RandomSource + Copy + Drop>(socket: &mut Socket<R>, message: Message) -> Sent {
    match sent_by(socket.write(message)) {
        Sent::Whole => Sent::Waits,
        other => other,
    }
}

/// Sends a close with that code.
pub fn send_close<R: RandomSource + Copy + Drop>(socket: &mut Socket<R>, code: u16) -> Sent {
    let frame = CloseFrame {
        code: CloseCode::from(code),
        reason: Utf8Bytes::new(),
    };
    sent_by(socket.close(Some(frame)))
}

/// Lets go out what waits.
pub fn flush<R: RandomSource + Copy + Drop>(socket: &mut Socket<R>) -> Sent {
    sent_by(socket.flush())
}
