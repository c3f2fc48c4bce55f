//! The single steps of a turn: a look at a hub, a question to the door, and a question to a link.

ghost use Rattle.std.specs.Prelude.{◌≡◌, ◌↔◌, ◌<◌, ◌≤◌, [], None, true, All, IfOk, OnErr, IsTrue, length};
ghost use Rattle.gate_outside.specs.Causes.{FaultHasCause};
ghost use Rattle.open_links.specs.Calls.{HearsFrom, MovesBy};
ghost use Rattle.worker_run.specs.Hubs.{IsReader, AllRead};
ghost use Rattle.guild_places.specs.Places.{AreDistinct, guilds_of};
ghost use Rattle.worker_run.specs.Parts.{Sees, LetsIn};

use crate::looks::{Seen, look_at};
use crate::serving::Serving;
use gate_outside::accepted::Accepted;
use gate_outside::doors::Door;
use gate_outside::faults::Fault;
use gate_outside::links::Link;
use open_links::Heard;
use std::alloc::AllocError;

impl<L: Link + Drop> Serving<L> {
    /// At how many hubs the worker looks.
    pub fn hub_count(&self) -> usize
        ensures { result ≡ length self.now.readers }
    {
        self.readers.len()
    }

    /// How many connections were let in.
    pub fn link_count(&self) -> u32
        ensures { result ≡ self.now.links.count }
    {
        self.links.count()
    }

    /// Whether the door has ended and no link is open.
    pub fn is_over(&self) -> bool
        ensures { IsTrue result ↔ ((self.now.ended ≡ true) × (self.now.links.links ≡ [])) }
    {
        self.ended && self.links.len() == 0
    }

    /// Looks at one hub.
    pub fn see(&mut self, place: usize) -> Result<Seen, AllocError>
        requires place { place < length self.old.readers }
        requires readers { All IsReader self.old.readers × AreDistinct (guilds_of self.old.readers) }
        ensures same { self.new ≡ record self.old { readers = self.new.readers } }
        ensures ok { IfOk result (λ seen. Sees place seen self.old.readers self.new.readers) }
        ensures err { OnErr result (AllRead [] self.old.readers self.new.readers) }
    {
        look_at(&mut self.readers[place])
    }

    /// Asks the door for a new connection, unless it has ended.
    pub fn let_next<D: Door<Wire = L>>(&mut self, door: &mut D) -> Result<Option<u32>, Fault>
        requires within { self.old.links.count ≤ (D.tale door.old).given }
        requires ended { self.old.ended ≡ true → (D.tale door.old).ended ≡ true }
        ensures ok { IfOk result (λ conn. LetsIn conn self.old self.new (D.tale door.old) (D.tale door.new)) }
        ensures err { OnErr result (LetsIn None self.old self.new (D.tale door.old) (D.tale door.new)) }
        ensures cause { FaultHasCause (D.faults door.old) (D.faults door.new) result }
    {
        if self.ended {
            return Ok(None);
        }
        match self.links.accept(door)? {
            Accepted::Link(conn) => Ok(Some(conn)),
            Accepted::NotYet => Ok(None),
            Accepted::Ended => {
                self.ended = true;
                Ok(None)
            }
        }
    }

    /// Asks the first open link from this number on.
    pub fn ask_from(&mut self, from: u32) -> Result<Option<Heard>, AllocError>
        ensures same { self.new ≡ record self.old { links = self.new.links } }
        ensures ok { IfOk result (λ heard. HearsFrom from heard self.old.links self.new.links) }
        ensures err { OnErr result ((self.new.links.count ≡ self.old.links.count) × MovesBy [] self.old.links self.new.links) }
    {
        self.links.hear_from(from)
    }
}
