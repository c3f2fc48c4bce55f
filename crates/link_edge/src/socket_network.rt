//! The network of a house that reaches others by WebSocket over TCP.
ghost use Rattle.std.specs.Prelude.{◌≡◌, IfOk};
ghost use Rattle.gate_outside.specs.Causes.{FaultHasCause};
ghost use Rattle.gate_outside.specs.Dials.{Dials, HangsUp};
ghost use Rattle.gate_outside.specs.Doors.{IsNewDoor};
ghost use Rattle.gate_outside.specs.Houses.{AsksDoor, PutsDoor, returned_door};
ghost use Rattle.gate_outside.specs.Links.{IsNewLink};
ghost use Rattle.link_edge.specs.SocketDoors.{new_socket_door, door_tale};
ghost use Rattle.link_edge.specs.SocketLinks.{new_socket_link, tale_of};
ghost use Rattle.link_edge.specs.SocketNetworks.{new_socket_network, dial_tale, doors_of, after_dial, with_link, after_door, with_door};

use crate::connection::Connection;
use crate::socket_door::SocketDoor;
use crate::socket_link::SocketLink;
use crate::streams::connect;
use gate_outside::dials::Dial;
use gate_outside::faults::Fault;
use gate_outside::networks::Network;
use std::alloc::Global;
use std::io;
use std::io::ErrorKind;
use std::marker::Model;
use std::net::{Ipv4Addr, Net, TcpListener, TcpStream};
use std::random::RandomSource;
use std::time::Clock as MachineTime;
use tungstenite::Error;
use tungstenite::handshake::client::request_of;

/// Doors at ports of this machine, and a dial to `ws` URLs.
#[derive(Drop)]
pub struct SocketNetwork<
    R: Net<Listener = TcpListener, Stream = TcpStream> + MachineTime + RandomSource + Copy + Drop,
> {
    alloc: Global,
    runtime: R,
    dry_run: u64,
    dial_faults: u64,
    door_faults: u64,
}

impl<
    R: Net<Listener = TcpListener, Stream = TcpStream> + MachineTime + RandomSource + Copy + Drop,
> Model for SocketNetwork<R> {
    ghost use Rattle.link_edge.specs.SocketNetworks.{SocketNetworkState};

    ghost Value = { SocketNetworkState };

    ghost view = { λ n. record {
      dry_run = n.dry_run;
      dial_faults = n.dial_faults;
      door_faults = n.door_faults;
    } };
}

// A listener at that port of this machine, whose calls do not wait.
fn listener_at<R: Net<Listener = TcpListener, Stream = TcpStream>>(
    runtime: &R,
    port: u16,
) -> io::Result<TcpListener> {
    let listener = TcpListener::bind(runtime, (Ipv4Addr::LOCALHOST, port))?;
    listener.set_nonblocking(true)?;
    Ok(listener)
}

// A connection to that URL.
fn connection_to<
    R: Net<Listener = TcpListener, Stream = TcpStream> + MachineTime + RandomSource + Copy + Drop,
>(alloc: Global, runtime: R, url: &str) -> Result<Connection<R>, Error> {
    let request = request_of(alloc, url)?;
    let stream = connect(&runtime, request.uri())?;
    Connection::of_client(alloc, runtime, request, stream)
}

// The fault that an error of the system or of the protocol is.
fn fault_of(error: &Error) -> Fault {
    match error {
        Error::OutOfMemory => Fault::Memory,
        Error::Io(cause) if cause.kind() == ErrorKind::OutOfMemory => Fault::Memory,
        _ => Fault::Failed,
    }
}

impl<
    R: Net<Listener = TcpListener, Stream = TcpStream> + MachineTime + RandomSource + Copy + Drop,
> SocketNetwork<R> {
    /// A network over that runtime, before its first call.
    pub fn new(alloc: Global, runtime: R) -> SocketNetwork<R>
        ensures { result ≡ new_socket_network }
    {
        SocketNetwork {
            alloc,
            runtime,
            dry_run: 0,
            dial_faults: 0,
            door_faults: 0,
        }
    }
}

impl<
    R: Net<Listener = TcpListener, Stream = TcpStream> + MachineTime + RandomSource + Copy + Drop,
> Dial for SocketNetwork<R> {
    type Wire = SocketLink<R>;

    ghost tale = { dial_tale };

    ghost faults = { λ n. n.dial_faults };

    ghost house_tale = { doors_of };

    fn dial(&mut self, url: &str) -> Result<SocketLink<R>, Fault>
        ensures tale { Dials (dial_tale self.old) (dial_tale self.new) url.now result }
        ensures new_link { IfOk result (λ l. IsNewLink (tale_of l) l.faults) }
        ensures cause { FaultHasCause self.old.dial_faults self.new.dial_faults result }
        ensures house { doors_of self.new ≡ doors_of self.old }
        ensures exact { self.new ≡ after_dial self.old result }
        ensures fresh { IfOk result (λ l. l ≡ new_socket_link) }
    {
        let fault = match connection_to(self.alloc, self.runtime, url) {
            Ok(connection) => return Ok(SocketLink::over(connection)),
            Err(error) => fault_of(&error),
        };
        match fault {
            Fault::Memory => Err(Fault::Memory),
            Fault::Failed => {
                self.dial_faults = self.dial_faults.saturating_add(1);
                self.dry_run = self.dry_run.saturating_add(1);
                Err(Fault::Failed)
            }
        }
    }

    fn back(&mut self, wire: SocketLink<R>)
        ensures tale { HangsUp (dial_tale self.old) (dial_tale self.new) (tale_of wire) wire.faults }
        ensures faults { self.new.dial_faults ≡ self.old.dial_faults }
        ensures house { doors_of self.new ≡ doors_of self.old }
        ensures exact { self.new ≡ with_link self.old wire }
    {
        if wire.gave_text() {
            self.dry_run = 0;
        }
        if wire.faults() > 0 {
            self.dry_run = self.dry_run.saturating_add(1);
        }
        wire.end();
    }
}

impl<
    R: Net<Listener = TcpListener, Stream = TcpStream> + MachineTime + RandomSource + Copy + Drop,
> Network for SocketNetwork<R> {
    type Gate = SocketDoor<R>;

    fn door(&mut self, port: u16, accepts: u32) -> Result<SocketDoor<R>, Fault>
        ensures fresh { IfOk result (λ d. IsNewDoor accepts (door_tale d) d.faults) }
        ensures house { AsksDoor (doors_of self.old) (doors_of self.new) port accepts result }
        ensures dial { dial_tale self.new ≡ dial_tale self.old }
        ensures dial_faults { self.new.dial_faults ≡ self.old.dial_faults }
        ensures exact { self.new ≡ after_door self.old result }
        ensures new_door { IfOk result (λ d. d ≡ new_socket_door accepts) }
    {
        let kind = match listener_at(&self.runtime, port) {
            Ok(listener) => {
                return Ok(SocketDoor::over(self.alloc, self.runtime, listener, accepts));
            }
            Err(error) => error.kind(),
        };
        if kind == ErrorKind::OutOfMemory {
            return Err(Fault::Memory);
        }
        self.door_faults = self.door_faults.saturating_add(1);
        Err(Fault::Failed)
    }

    fn put_back(&mut self, door: SocketDoor<R>)
        ensures house { PutsDoor (doors_of self.old) (doors_of self.new)
            (returned_door (door_tale door) door.faults) }
        ensures dial { dial_tale self.new ≡ dial_tale self.old }
        ensures dial_faults { self.new.dial_faults ≡ self.old.dial_faults }
        ensures exact { self.new ≡ with_door self.old door.faults }
    {
        if door.faults() > 0 {
            self.door_faults = self.door_faults.saturating_add(1);
        }
    }
}
