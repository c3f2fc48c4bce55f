//! A connection, from its handshake to its end. No call of it waits for the peer.

use crate::handshake::{Handshake, Round, Socket};
use crate::reading::next_of;
use crate::sending::{Sent, flush, gather, send, send_close};
use crate::sizes::{HANDSHAKE_MS, MOST_GATHERED_BYTES, MOST_WAITING_BYTES};
use crate::streams::{drain, set_modes};
use gate_outside::clocks::Clock;
use gate_outside::faults::Fault;
use gate_outside::incoming::Incoming;
use gate_outside::machine_clock::MachineClock;
use http::Request;
use std::alloc::Global;
use std::mem;
use std::net::TcpStream;
use std::random::RandomSource;
use std::time::Clock as MachineTime;
use tungstenite::{Error, Message};

// How far a connection has come.
#[derive(Drop)]
enum Stage<R: RandomSource + Drop> {
    Shaking(Handshake<R>),
    Open(Socket<R>),
    Gone,
}

/// A connection. A call that answers `Failed` has ended it, and then each call does so.
#[derive(Drop)]
pub struct Connection<R: MachineTime + RandomSource + Copy + Drop> {
    alloc: Global,
    clock: MachineClock<R>,
    stage: Stage<R>,
    // When a handshake that is not complete fails.
    until_ms: u64,
    // What was sent before the handshake was complete.
    early: Vec<Message>,
    // How many bytes were sent since nothing waited.
    waiting: usize,
    // How many of them are gathered at most before they go out together.
    most_gathered: usize,
}

impl<R: MachineTime + RandomSource + Copy + Drop> Connection<R> {
    // A connection that has come so far, and gathers so many bytes.
    fn at(alloc: Global, runtime: R, stage: Stage<R>, most_gathered: usize) -> Connection<R> {
        let mut clock = MachineClock::new(runtime);
        let until_ms = clock.now_ms().saturating_add(HANDSHAKE_MS);
        Connection {
            alloc,
            clock,
            stage,
            until_ms,
            early: Vec::new(alloc),
            waiting: 0,
            most_gathered,
        }
    }

    /// The server's end of a stream. Up to `MOST_GATHERED_BYTES` of its texts go out together when it is next
    /// asked what waits, so what a turn of a worker sends costs few calls of the system.
    pub fn of_server(alloc: Global, runtime: R, stream: TcpStream) -> Connection<R> {
        let stage = match set_modes(&stream) {
            Ok(()) => Stage::Shaking(Handshake::of_server(alloc, stream)),
            Err(_) => Stage::Gone,
        };
        Connection::at(alloc, runtime, stage, MOST_GATHERED_BYTES)
    }

    /// The client's end of a stream, for this request. Each text goes out at once.
    pub fn of_client(
        alloc: Global,
        runtime: R,
        request: Request<()>,
        stream: TcpStream,
    ) -> Result<Connection<R>, Error> {
        set_modes(&stream)?;
        let handshake = Handshake::of_client(alloc, runtime, request, stream)?;
        let stage = Stage::Shaking(handshake);
        Ok(Connection::at(alloc, runtime, stage, 0))
    }

    /// Gives the text or the close code that waits first. What was gathered goes out.
    pub fn receive(&mut self) -> Result<Incoming, Fault> {
        self.go_on();
        let mut replies = 0;
        let answer = match &mut self.stage {
            Stage::Shaking(_) => return Ok(Incoming::NotYet),
            Stage::Open(socket) => next_of(self.alloc, socket, &mut replies),
            Stage::Gone => return Err(Fault::Failed),
        };
        if let Err(Fault::Failed) = &answer {
            self.stage = Stage::Gone;
        }
        self.let_out(replies);
        answer
    }

    /// Sends a text, or gathers it. What the peer does not take yet waits, up to `MOST_WAITING_BYTES`.
    pub fn send(&mut self, text: &str) -> Result<(), Fault> {
        let message = Message::text(self.alloc, text)?;
        let waiting = self.waiting.saturating_add(text.len());
        let sent = match &mut self.stage {
            _ if waiting > MOST_WAITING_BYTES => Sent::Failed,
            Stage::Shaking(_) => match self.early.push(message) {
                Ok(()) => Sent::Waits,
                Err(_) => Sent::Memory,
            },
            Stage::Open(socket) if waiting <= self.most_gathered => gather(socket, message),
            Stage::Open(socket) => send(socket, message),
            Stage::Gone => Sent::Failed,
        };
        self.note(sent, waiting)
    }

    /// Sends a close with that code. Before the handshake is complete, the connection ends without one.
    pub fn close(&mut self, code: u16) -> Result<(), Fault> {
        let waiting = self.waiting;
        let sent = match &mut self.stage {
            Stage::Shaking(_) => {
                self.stage = Stage::Gone;
                return Ok(());
            }
            Stage::Open(socket) => send_close(socket, code),
            Stage::Gone => Sent::Failed,
        };
        self.note(sent, waiting)
    }

    /// Ends the connection. What waits goes out as far as the peer takes it now.
    pub fn end(&mut self) {
        if let Stage::Open(socket) = &mut self.stage {
            flush(socket);
            drain(socket.get_mut());
        }
        self.stage = Stage::Gone;
    }

    // Notes what became of what was sent, after which so many bytes may wait.
    fn note(&mut self, sent: Sent, waiting: usize) -> Result<(), Fault> {
        match sent {
            Sent::Whole => {
                self.waiting = 0;
                Ok(())
            }
            Sent::Waits => {
                self.waiting = waiting;
                Ok(())
            }
            Sent::Memory => Err(Fault::Memory),
            Sent::Failed => {
                self.stage = Stage::Gone;
                Err(Fault::Failed)
            }
        }
    }

    // Lets go out what waits, so many bytes of replies among it.
    fn let_out(&mut self, replies: usize) {
        let waiting = self.waiting.saturating_add(replies);
        let sent = match &mut self.stage {
            Stage::Open(socket) => flush(socket),
            _ => return,
        };
        match sent {
            Sent::Whole => self.waiting = 0,
            Sent::Waits if waiting <= MOST_WAITING_BYTES => self.waiting = waiting,
            _ => self.stage = Stage::Gone,
        }
    }

    // Goes on with the handshake, if it is not complete.
    fn go_on(&mut self) {
        let Stage::Shaking(_) = &self.stage else {
            return;
        };
        let is_late = self.clock.now_ms() >= self.until_ms;
        let before = mem::replace(&mut self.stage, Stage::Gone);
        if let Stage::Shaking(handshake) = before {
            match handshake.go_on(self.alloc) {
                Round::Complete(socket) => self.open(socket),
                Round::Waits(handshake) if !is_late => self.stage = Stage::Shaking(handshake),
                _ => {}
            }
        }
    }

    // The handshake is complete: what was sent before goes out.
    fn open(&mut self, mut socket: Socket<R>) {
        let early = mem::replace(&mut self.early, Vec::new(self.alloc));
        for message in early {
            match send(&mut socket, message) {
                Sent::Whole | Sent::Waits => {}
                Sent::Memory | Sent::Failed => return,
            }
        }
        self.stage = Stage::Open(socket);
    }
}
