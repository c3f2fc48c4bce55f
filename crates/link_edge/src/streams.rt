//! TCP streams that do not wait.

use crate::sizes::CONNECT_MS;
use http::Uri;
use std::io;
use std::io::{ErrorKind, Read};
use std::net::{Net, TcpListener, TcpStream, ToSocketAddrs};
use std::time::Duration;

// The port of a URL that names none.
const DEFAULT_PORT: u16 = 80;

// How many pieces of what has come are read when a connection ends, and how long each may be.
const LAST_PIECES: u32 = 16;

const PIECE_BYTES: usize = 4096;

/// From now on no call of this stream waits, and small pieces go out at once.
pub fn set_modes(stream: &TcpStream) -> io::Result<()> {
    stream.set_nonblocking(true)?;
    stream.set_nodelay(true)
}

/// A stream to the host and the port of this URL. Any scheme but `ws` is refused.
pub fn connect<R: Net<Listener = TcpListener, Stream = TcpStream>>(
    runtime: &R,
    url: &Uri,
) -> io::Result<TcpStream> {
    let (Some("ws"), Some(host)) = (url.scheme_str(), url.host()) else {
        return Err(io::Error::from(ErrorKind::InvalidInput));
    };
    let port = url.port_u16().unwrap_or(DEFAULT_PORT);
    let mut last = io::Error::from(ErrorKind::NotFound);
    for address in (host, port).to_socket_addrs(runtime)? {
        match TcpStream::connect_timeout(runtime, &address, Duration::from_millis(CONNECT_MS)) {
            Ok(stream) => return Ok(stream),
            Err(error) => last = error,
        }
    }
    Err(last)
}

/// Reads what has come and lets it go: a stream that is dropped with bytes unread takes back what it
/// has sent.
pub fn drain(stream: &mut TcpStream) {
    let mut piece = [0u8; PIECE_BYTES];
    for _ in 0..LAST_PIECES {
        match stream.read(&mut piece) {
            Ok(count) if count > 0 => {}
            _ => return,
        }
    }
}
