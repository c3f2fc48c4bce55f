//! A client that writes its own bytes: binary messages, one that is too long, a bad handshake, and none.

use crate::asking::{next, next_link, pause};
use crate::words::{done, heard};
use gate_outside::doors::Door;
use gate_outside::links::Link;
use link_edge::socket_door::SocketDoor;
use link_edge::socket_link::SocketLink;
use std::io;
use std::io::{Read, Write};
use std::net::{Ipv4Addr, TcpStream};
use std::time::Duration;

// A request that a server takes, and one that it does not.
const REQUEST: &str =
    "GET / HTTP/1.1\r\nHost: localhost\r\nConnection: Upgrade\r\nUpgrade: websocket\r\nSec-WebSocket-Version: 13\r\nSec-WebSocket-Key: dGhlIHNhbXBsZSBub25jZQ==\r\n\r\n";

const BAD_REQUEST: &str = "GET / HTTP/1.1\r\nHost: localhost\r\n\r\n";

// Frames under the mask 0: a binary `hi`, a binary byte that is no UTF-8, and the head of a text of
// 4,097 bytes.
const BINARY: &[u8] = &[0x82, 0x82, 0, 0, 0, 0, 0x68, 0x69];

const NO_UTF8: &[u8] = &[0x82, 0x81, 0, 0, 0, 0, 0xff];

const TOO_LONG: &[u8] = &[0x81, 0xfe, 0x10, 0x01, 0, 0, 0, 0];

// How long a client waits for what the server writes, in seconds.
const READ_SECONDS: u64 = 5;

// How many bytes of it are looked at.
const MOST_BYTES: usize = 1024;

/// A stream to that port on which these bytes were written.
pub fn stream_with(rt: &HostRuntime, port: u16, bytes: &[u8]) -> io::Result<TcpStream> {
    let mut stream = TcpStream::connect(rt, (Ipv4Addr::LOCALHOST, port))?;
    stream.set_read_timeout(Some(Duration::from_secs(READ_SECONDS)))?;
    stream.write_all(bytes)?;
    Ok(stream)
}

// How many bytes come before the stream ends, from `piece[at..]` on.
fn fill(stream: &mut TcpStream, piece: &mut [u8]) -> usize {
    let mut at = 0;
    for _ in 0..MOST_BYTES {
        if at >= piece.len() {
            return at;
        }
        match stream.read(&mut piece[at..]) {
            Ok(count) if count > 0 => at += count,
            _ => return at,
        }
    }
    at
}

// The code of the close with which the server's bytes end.
fn last_code(stream: &mut TcpStream) -> Option<u16> {
    let mut piece = [0u8; MOST_BYTES];
    let count = fill(stream, &mut piece);
    match piece.get(..count)? {
        [.., 0x88, 0x02, high, low] => Some(u16::from(*high) * 256 + u16::from(*low)),
        _ => None,
    }
}

// Writes a frame, and says what the server hears.
fn show_frame(
    rt: &HostRuntime,
    name: &str,
    link: &mut SocketLink<HostRuntime>,
    stream: &mut TcpStream,
    frame: &[u8],
) -> anyhow::Result<()> {
    let written = stream.write_all(frame).is_ok();
    let answer = heard(rt.alloc(), next(rt, link))?;
    println!(rt; "{name}: written {written}, server hears: {answer}")?;
    Ok(())
}

// Frames that no link sends, and the close that follows.
fn show_frames(
    rt: &HostRuntime,
    link: &mut SocketLink<HostRuntime>,
    stream: &mut TcpStream,
) -> anyhow::Result<()> {
    show_frame(rt, "binary", link, stream, BINARY)?;
    show_frame(rt, "no UTF-8", link, stream, NO_UTF8)?;
    show_frame(rt, "too long", link, stream, TOO_LONG)?;
    let closed = done(link.close(4002));
    println!(rt; "server closes: {closed}")?;
    Ok(())
}

// A link to a client of those bytes.
fn show_bytes(
    rt: &HostRuntime,
    door: &mut SocketDoor<HostRuntime>,
    port: u16,
) -> anyhow::Result<()> {
    let mut stream = stream_with(rt, port, REQUEST.as_bytes())?;
    if let Ok(mut link) = next_link(rt, door) {
        // The handshake is complete before the first frame is written.
        for _ in 0..100u32 {
            let _ = link.recv();
            pause(rt);
        }
        let shown = show_frames(rt, &mut link, &mut stream);
        door.back(link);
        shown?;
    }
    if let Some(code) = last_code(&mut stream) {
        println!(rt; "client reads the code {code}")?;
    }
    Ok(())
}

// A handshake that fails: every call does.
fn show_bad_handshake(
    rt: &HostRuntime,
    door: &mut SocketDoor<HostRuntime>,
    port: u16,
) -> anyhow::Result<()> {
    let stream = stream_with(rt, port, BAD_REQUEST.as_bytes())?;
    if let Ok(mut link) = next_link(rt, door) {
        let answer = heard(rt.alloc(), next(rt, &mut link));
        let (sent, closed, faults) = (done(link.send("x")), done(link.close(1000)), link.faults());
        door.back(link);
        let answer = answer?;
        println!(rt; "bad handshake: {answer}, send {sent}, close {closed}, faults {faults}")?;
    }
    drop(stream);
    Ok(())
}

/// Shows such clients.
pub fn show(rt: &HostRuntime, door: &mut SocketDoor<HostRuntime>, port: u16) -> anyhow::Result<()> {
    show_bytes(rt, door, port)?;
    show_bad_handshake(rt, door, port)?;
    Ok(())
}
