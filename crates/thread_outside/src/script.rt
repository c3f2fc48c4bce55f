//! A script of what comes over a link.
ghost use Rattle.std.specs.Prelude.{◌≡◌, ◌++◌, Some, None, OnOk, OnErr, drop};
ghost use Rattle.std.specs.Option.{option_to_list};
ghost use Rattle.thread_outside.specs.Peers.{first_turn, new_script};

use crate::copies::copy_of;
use crate::kept_tale::KeptTale;
use crate::peer::Peer;
use crate::unused::Unused;
use gate_outside::faults::Fault;
use gate_outside::sending::Sending;
use std::alloc::{AllocError, Global};
use std::collections::VecDeque;
use std::marker::Model;

/// What waits at each call of `recv`, in order. At a turn of `None` nothing waits, nor after the last
/// turn. What goes out is heard by nobody. It lists what it gave, of which it keeps copies, and what it
/// was sent.
pub struct Script {
    alloc: Global,
    turns: VecDeque<Option<Sending>>,
    gave: Vec<Sending>,
    sent: Vec<Sending>,
}

impl Drop for Script {
    fn drop(self) {
        let Script {
            alloc: _,
            turns,
            gave,
            sent,
        } = self;
        drop(turns);
        drop(gave);
        drop(sent);
    }
}

impl Model for Script {
    ghost use Rattle.thread_outside.specs.Peers.{ScriptState};

    ghost Value = { ScriptState };

    ghost view = { λ s. record {
      turns = s.turns.items;
      gave = s.gave.items;
      sent = s.sent.items;
    } };
}

impl Script {
    /// A script of these turns.
    pub fn new(alloc: Global, turns: VecDeque<Option<Sending>>) -> Unused<Script>
        ensures { result ≡ new_script turns.items }
    {
        Unused::new(Script {
            alloc,
            turns,
            gave: Vec::new(alloc),
            sent: Vec::new(alloc),
        })
    }

    // What was taken, in order.
    pub(crate) fn gave(&self) -> &[Sending]
        ensures { result.now ≡ self.now.gave }
    {
        self.gave.as_slice()
    }

    // What was put, in order.
    pub(crate) fn sent(&self) -> &[Sending]
        ensures { result.now ≡ self.now.sent }
    {
        self.sent.as_slice()
    }

    // Lists a copy of what waits, if something does.
    fn keep_first(&mut self) -> Result<(), AllocError>
        ensures ok { OnOk result (self.new ≡ record self.old { gave = self.old.gave ++ option_to_list (first_turn self.old.turns) }) }
        ensures err { OnErr result (self.new ≡ self.old) }
    {
        if let Some(Some(sending)) = self.turns.front() {
            let copy = copy_of(self.alloc, sending)?;
            self.gave.push(copy)?;
        }
        Ok(())
    }

    // Lets one turn go by, and gives what waited.
    fn next(&mut self) -> Option<Sending>
        ensures turn { result ≡ first_turn self.old.turns }
        ensures rest { self.new ≡ record self.old { turns = drop 1 self.old.turns } }
    {
        match self.turns.pop_front() {
            Some(turn) => turn,
            None => None,
        }
    }
}

impl Peer for Script {
    ghost turns = { λ s. Some s.turns };

    ghost lane = { λ _. None };

    ghost gave = { λ s. s.gave };

    ghost sent = { λ s. s.sent };

    fn take(&mut self) -> Result<Option<Sending>, Fault> {
        self.keep_first()?;
        Ok(self.next())
    }

    fn put(&mut self, sending: Sending) -> Result<(), Fault> {
        self.sent.push(sending)?;
        Ok(())
    }

    fn into_kept(self) -> KeptTale {
        let Script {
            alloc: _,
            turns: _,
            gave,
            sent,
        } = self;
        KeptTale::of_lists(gave, sent)
    }
}
