//! Doors of WebSocket over TCP.
ghost use Rattle.std.specs.Prelude.{◌≡◌};
ghost use Rattle.gate_outside.specs.Causes.{FaultHasCause};
ghost use Rattle.gate_outside.specs.Doors.{Accepts, GivesNew, TakesBack};
ghost use Rattle.gate_outside.specs.Links.{returned_link};
ghost use Rattle.link_edge.specs.SocketDoors.{new_socket_door, door_tale, Lets};
ghost use Rattle.link_edge.specs.SocketLinks.{tale_of};

use crate::connection::Connection;
use crate::socket_link::SocketLink;
use gate_outside::accepted::Accepted;
use gate_outside::doors::Door;
use gate_outside::faults::Fault;
use std::alloc::Global;
use std::io::ErrorKind;
use std::marker::Model;
use std::net::TcpListener;
use std::random::RandomSource;
use std::time::Clock as MachineTime;

/// A door at a port of this machine. No call waits. Each link goes through its handshake by its own
/// calls, so one that does not send its part keeps nobody else waiting.
#[derive(Drop)]
pub struct SocketDoor<R: MachineTime + RandomSource + Copy + Drop> {
    alloc: Global,
    runtime: R,
    listener: TcpListener,
    given: u32,
    accepts: u32,
    ended: bool,
    faults: u64,
}

impl<R: MachineTime + RandomSource + Copy + Drop> Model for SocketDoor<R> {
    ghost use Rattle.std.specs.Prelude.{◌≡◌, ◌≤◌, true};
    ghost use Rattle.link_edge.specs.SocketDoors.{SocketDoorState};

    ghost Value = { SocketDoorState };

    ghost view = { λ d. record {
      given = d.given;
      accepts = d.accepts;
      ended = d.ended;
      faults = d.faults;
    } };

    ghost invariant = { λ d. (d.given ≤ d.accepts) × (d.ended ≡ true → d.given ≡ d.accepts) };
}

impl<R: MachineTime + RandomSource + Copy + Drop> SocketDoor<R> {
    // A door over a listener that does not wait, which gives so many links.
    pub(crate) fn over(
        alloc: Global,
        runtime: R,
        listener: TcpListener,
        accepts: u32,
    ) -> SocketDoor<R>
        ensures { result ≡ new_socket_door accepts }
    {
        SocketDoor {
            alloc,
            runtime,
            listener,
            given: 0,
            accepts,
            ended: false,
            faults: 0,
        }
    }

    /// The port at which it is, if the system tells it.
    pub fn port(&self) -> Option<u16> {
        match self.listener.local_addr() {
            Ok(address) => Some(address.port()),
            Err(_) => None,
        }
    }

    /// How often a call failed.
    pub fn faults(&self) -> u64
        ensures { result ≡ self.now.faults }
    {
        self.faults
    }
}

impl<R: MachineTime + RandomSource + Copy + Drop> Door for SocketDoor<R> {
    type Wire = SocketLink<R>;

    ghost tale = { door_tale };

    ghost faults = { λ d. d.faults };

    fn accept(&mut self) -> Result<Accepted<SocketLink<R>>, Fault>
        ensures tale { Accepts (door_tale self.old) (door_tale self.new) result }
        ensures new_link { GivesNew tale_of (λ l. l.faults) result }
        ensures cause { FaultHasCause self.old.faults self.new.faults result }
        ensures exact { Lets self.old self.new result }
    {
        if self.given == self.accepts {
            self.ended = true;
            return Ok(Accepted::Ended);
        }
        let kind = match self.listener.accept() {
            Ok((stream, _)) => {
                self.given += 1;
                let connection = Connection::of_server(self.alloc, self.runtime, stream);
                return Ok(Accepted::Link(SocketLink::over(connection)));
            }
            Err(error) => error.kind(),
        };
        match kind {
            ErrorKind::WouldBlock | ErrorKind::ConnectionAborted => Ok(Accepted::NotYet),
            ErrorKind::OutOfMemory => Err(Fault::Memory),
            _ => {
                self.faults = self.faults.saturating_add(1);
                Err(Fault::Failed)
            }
        }
    }

    fn back(&mut self, wire: SocketLink<R>)
        ensures tale { TakesBack (door_tale self.old) (door_tale self.new)
            (returned_link (tale_of wire) wire.faults) }
        ensures faults { self.new.faults ≡ self.old.faults }
        ensures exact { self.new ≡ self.old }
    {
        wire.end();
    }
}
