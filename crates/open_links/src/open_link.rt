//! An open link.

ghost use Rattle.std.specs.Prelude.{◌≡◌, ◌<◌, [], ◌∷◌, false, IfOk, OnOk, OnErr};
ghost use Rattle.gate_outside.specs.declared.sending.Sending.TheVariants as sending;
ghost use Rattle.open_links.specs.Courses.{Gives};
ghost use Rattle.open_links.specs.Steps.{Follows, Hears};

use crate::heard::Word;
use collections::Text;
use gate_outside::faults::Fault;
use gate_outside::incoming::Incoming;
use gate_outside::links::Link;
use std::alloc::AllocError;
use std::marker::Model;

/// An open link, with the number of its connection, and whether it is done with: it has failed, or its
/// connection has ended.
#[derive(Drop)]
pub struct OpenLink<L: Link + Drop> {
    pub conn: u32,
    pub wire: L,
    pub done: bool,
}

impl<L: Link + Drop> Model for OpenLink<L> {
    ghost use Rattle.open_links.specs.Links.{Held};

    ghost Value = { Held };

    ghost view = { λ l. record {
      conn = l.conn;
      tale = L.tale l.wire;
      faults = L.faults l.wire;
      done = l.done;
    } };
}

impl<L: Link + Drop> OpenLink<L> {
    // Asks the link. One that is done with is not asked again.
    pub fn ask(&mut self) -> Result<Word, AllocError>
        ensures ok { IfOk result (λ word. Hears word self.old self.new) }
        ensures err { OnErr result (Follows [] self.old self.new) }
    {
        if self.done {
            return Ok(Word::Lost);
        }
        match self.wire.recv() {
            Ok(Incoming::Text(text)) => Ok(Word::Text(text)),
            Ok(Incoming::Closed(code)) => {
                self.done = true;
                Ok(Word::Closed(code))
            }
            Ok(Incoming::NotYet) => Ok(Word::Nothing),
            Err(Fault::Failed) => {
                self.done = true;
                Ok(Word::Lost)
            }
            Err(Fault::Memory) => Err(AllocError),
        }
    }

    // Sends a text, unless the link is done with. A link that fails is done with.
    pub fn send(&mut self, text: &str) -> Result<(), AllocError>
        ensures ok { OnOk result (Follows (Gives (sending.Text text.now) ∷ []) self.old self.new) }
        ensures err { OnErr result (Follows [] self.old self.new) }
    {
        if self.done {
            return Ok(());
        }
        match self.wire.send(text) {
            Ok(()) => Ok(()),
            Err(Fault::Failed) => {
                self.done = true;
                Ok(())
            }
            Err(Fault::Memory) => Err(AllocError),
        }
    }

    // Closes the link with a code, unless it is done with, which it is from now on. Says whether it is
    // closed.
    pub fn close(&mut self, code: u16) -> Result<bool, AllocError>
        ensures ok { OnOk result (Follows (Gives (sending.Close code) ∷ []) self.old self.new) }
        ensures err { OnErr result (Follows [] self.old self.new) }
        ensures failed { IfOk result (λ closed. closed ≡ false → self.old.done ≡ false → 0 < self.new.faults) }
    {
        if self.done {
            return Ok(false);
        }
        match self.wire.close(code) {
            Ok(()) => {
                self.done = true;
                Ok(true)
            }
            Err(Fault::Failed) => {
                self.done = true;
                Ok(false)
            }
            Err(Fault::Memory) => Err(AllocError),
        }
    }
}
