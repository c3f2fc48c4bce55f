//! A link that a client uses.

ghost use Rattle.std.specs.Prelude.{◌≡◌, ◌<◌};
ghost use Rattle.gate_outside.specs.Causes.{FaultHasCause};
ghost use Rattle.gate_outside.specs.Dials.{HangsUp, dry_after_link};
ghost use Rattle.gate_outside.specs.Links.{Receives, Sends, Closes, IsNewLink};

use gate_outside::dials::Dial;
use gate_outside::faults::Fault;
use gate_outside::incoming::Incoming;
use gate_outside::links::Link;
use std::marker::Model;

/// A link that a client uses, with what its dial's dry run goes by.
#[derive(Drop)]
pub struct Wire<L: Link + Drop> {
    link: L,
    gave_text: bool,
    failed: bool,
}

impl<L: Link + Drop> Model for Wire<L> {
    ghost use Rattle.std.specs.Prelude.{◌≡◌};
    ghost use Rattle.client_run.specs.Turns.{Line, has_failed};

    ghost Value = { Line };

    ghost view = { λ w. record { tale = L.tale w.link; faults = L.faults w.link } };

    ghost invariant = { λ w. (w.gave_text ≡ (L.tale w.link).gave_text) × (w.failed ≡ has_failed (L.faults w.link)) };
}

impl<L: Link + Drop> Wire<L> {
    /// A link before its first call.
    pub fn new(link: L) -> Wire<L>
        requires { IsNewLink (L.tale link) (L.faults link) }
        ensures { result ≡ record { tale = L.tale link; faults = L.faults link } }
    {
        Wire {
            link,
            gave_text: false,
            failed: false,
        }
    }

    /// Gives what waits first.
    pub fn recv(&mut self) -> Result<Incoming, Fault>
        ensures tale { Receives self.old.tale self.new.tale result }
        ensures cause { FaultHasCause self.old.faults self.new.faults result }
    {
        match self.link.recv() {
            Ok(Incoming::Text(text)) => {
                self.gave_text = true;
                Ok(Incoming::Text(text))
            }
            Err(Fault::Failed) => {
                self.failed = true;
                Err(Fault::Failed)
            }
            answer => answer,
        }
    }

    /// Sends a text.
    pub fn send(&mut self, text: &str) -> Result<(), Fault>
        ensures tale { Sends self.old.tale self.new.tale text.now result }
        ensures cause { FaultHasCause self.old.faults self.new.faults result }
    {
        match self.link.send(text) {
            Err(Fault::Failed) => {
                self.failed = true;
                Err(Fault::Failed)
            }
            answer => answer,
        }
    }

    /// Closes the link.
    pub fn close(&mut self, code: u16) -> Result<(), Fault>
        ensures tale { Closes self.old.tale self.new.tale code result }
        ensures cause { FaultHasCause self.old.faults self.new.faults result }
    {
        match self.link.close(code) {
            Err(Fault::Failed) => {
                self.failed = true;
                Err(Fault::Failed)
            }
            answer => answer,
        }
    }

    /// How often one after another the dial has failed, once it has this link back.
    pub fn dry_after(&self, dry: u64) -> u64
        requires { dry < 9 }
        ensures { result ≡ dry_after_link dry self.now.tale.gave_text self.now.faults }
    {
        let before = if self.gave_text { 0 } else { dry };
        if self.failed { before + 1 } else { before }
    }

    /// The dial takes the link back.
    pub fn give_back<D: Dial<Wire = L>>(self, dial: &mut D)
        ensures back { HangsUp (D.tale dial.old) (D.tale dial.new) self.tale self.faults }
        ensures house { D.house_tale dial.new ≡ D.house_tale dial.old }
    {
        let Wire { link, .. } = self;
        dial.back(link);
    }
}
