//! A connection on which every call fails.
ghost use Rattle.std.specs.Prelude.{◌≡◌};
ghost use Rattle.gate_outside.specs.Causes.{FaultHasCause, FailsOnce};
ghost use Rattle.gate_outside.specs.Links.{Receives, Sends, Closes, failed_link};

use crate::faults::Fault;
use crate::incoming::Incoming;
use crate::links::Link;
use std::marker::Model;

/// A connection that could not be opened. Every call fails, also `close`, so it stays open.
#[derive(Drop)]
pub struct FailedLink {
    faults: u64,
}

impl Model for FailedLink {
    ghost use Rattle.std.specs.Prelude.{ℕ};

    ghost Value = { ℕ };

    ghost view = { λ l. l.faults };
}

impl FailedLink {
    /// A connection before its first call.
    pub fn new() -> FailedLink
        ensures { result ≡ 0 }
    {
        FailedLink { faults: 0 }
    }

    /// How often a call failed.
    pub fn faults(&self) -> u64
        ensures { result ≡ self.now }
    {
        self.faults
    }
}

impl Link for FailedLink {
    ghost tale = { λ _. failed_link };

    ghost faults = { λ l. l };

    fn recv(&mut self) -> Result<Incoming, Fault>
        ensures tale { Receives failed_link failed_link result }
        ensures cause { FaultHasCause self.old self.new result }
        ensures fails { FailsOnce self.old self.new result }
    {
        self.faults = self.faults.saturating_add(1);
        Err(Fault::Failed)
    }

    fn send(&mut self, _text: &str) -> Result<(), Fault>
        ensures tale { Sends failed_link failed_link _text.now result }
        ensures cause { FaultHasCause self.old self.new result }
        ensures fails { FailsOnce self.old self.new result }
    {
        self.faults = self.faults.saturating_add(1);
        Err(Fault::Failed)
    }

    fn close(&mut self, _code: u16) -> Result<(), Fault>
        ensures tale { Closes failed_link failed_link _code result }
        ensures cause { FaultHasCause self.old self.new result }
        ensures fails { FailsOnce self.old self.new result }
    {
        self.faults = self.faults.saturating_add(1);
        Err(Fault::Failed)
    }
}
