//! Links of WebSocket over TCP. Contracts see how far a link has come, and no texts.
ghost use Rattle.std.specs.Prelude.{◌≡◌, ◌≤◌};
ghost use Rattle.gate_outside.specs.Causes.{FaultHasCause};
ghost use Rattle.gate_outside.specs.Links.{Receives, Sends, Closes};
ghost use Rattle.gate_outside.specs.declared.faults.Fault.TheVariants as fault;
ghost use Rattle.link_edge.specs.SocketLinks.{new_socket_link, tale_of, with_fault, Hears, Says, Shuts};

use crate::connection::Connection;
use gate_outside::faults::Fault;
use gate_outside::incoming::Incoming;
use gate_outside::links::Link;
use std::marker::Model;
use std::random::RandomSource;
use std::time::Clock as MachineTime;

/// A link of WebSocket over TCP. No call waits for the peer. Once a call has failed, each later call
/// fails.
#[derive(Drop)]
pub struct SocketLink<R: MachineTime + RandomSource + Copy + Drop> {
    connection: Connection<R>,
    own_code: Option<u16>,
    gave_text: bool,
    faults: u64,
}

impl<R: MachineTime + RandomSource + Copy + Drop> Model for SocketLink<R> {
    ghost use Rattle.link_edge.specs.SocketLinks.{SocketLinkState};

    ghost Value = { SocketLinkState };

    ghost view = { λ l. record {
      own_code = l.own_code;
      gave_text = l.gave_text;
      faults = l.faults;
    } };
}

impl<R: MachineTime + RandomSource + Copy + Drop> SocketLink<R> {
    // A link over that connection, before its first call.
    pub(crate) fn over(connection: Connection<R>) -> SocketLink<R>
        ensures { result ≡ new_socket_link }
    {
        SocketLink {
            connection,
            own_code: None,
            gave_text: false,
            faults: 0,
        }
    }

    /// Whether it has given a text.
    pub fn gave_text(&self) -> bool
        ensures { result ≡ self.now.gave_text }
    {
        self.gave_text
    }

    /// How often a call failed.
    pub fn faults(&self) -> u64
        ensures { result ≡ self.now.faults }
    {
        self.faults
    }

    // Ends the connection.
    pub(crate) fn end(mut self) {
        self.connection.end();
    }

    // Counts a fault.
    fn fail(&mut self) -> Fault
        ensures result { result ≡ fault.Failed }
        ensures after { self.new ≡ with_fault self.old }
        ensures rise { self.old.faults ≤ self.new.faults }
    {
        self.faults = self.faults.saturating_add(1);
        Fault::Failed
    }
}

impl<R: MachineTime + RandomSource + Copy + Drop> Link for SocketLink<R> {
    ghost tale = { tale_of };

    ghost faults = { λ l. l.faults };

    fn recv(&mut self) -> Result<Incoming, Fault>
        ensures tale { Receives (tale_of self.old) (tale_of self.new) result }
        ensures cause { FaultHasCause self.old.faults self.new.faults result }
        ensures exact { Hears self.old self.new result }
    {
        if let Some(own) = self.own_code {
            return Ok(Incoming::Closed(own));
        }
        if self.faults > 0 {
            return Err(self.fail());
        }
        match self.connection.receive() {
            Ok(Incoming::Text(text)) => {
                self.gave_text = true;
                Ok(Incoming::Text(text))
            }
            Ok(Incoming::Closed(code)) => Ok(Incoming::Closed(code)),
            Ok(Incoming::NotYet) => Ok(Incoming::NotYet),
            Err(Fault::Failed) => Err(self.fail()),
            Err(Fault::Memory) => Err(Fault::Memory),
        }
    }

    fn send(&mut self, text: &str) -> Result<(), Fault>
        ensures tale { Sends (tale_of self.old) (tale_of self.new) text.now result }
        ensures cause { FaultHasCause self.old.faults self.new.faults result }
        ensures exact { Says self.old self.new result }
    {
        if self.own_code.is_some() {
            return Ok(());
        }
        if self.faults > 0 {
            return Err(self.fail());
        }
        match self.connection.send(text) {
            Ok(()) => Ok(()),
            Err(Fault::Failed) => Err(self.fail()),
            Err(Fault::Memory) => Err(Fault::Memory),
        }
    }

    fn close(&mut self, code: u16) -> Result<(), Fault>
        ensures tale { Closes (tale_of self.old) (tale_of self.new) code result }
        ensures cause { FaultHasCause self.old.faults self.new.faults result }
        ensures exact { Shuts self.old self.new code result }
    {
        if self.own_code.is_some() {
            return Ok(());
        }
        if self.faults > 0 {
            return Err(self.fail());
        }
        match self.connection.close(code) {
            Ok(()) => {
                self.own_code = Some(code);
                Ok(())
            }
            Err(Fault::Failed) => Err(self.fail()),
            Err(Fault::Memory) => Err(Fault::Memory),
        }
    }
}
