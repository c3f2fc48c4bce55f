//! The open links of a worker.

ghost use Rattle.std.specs.Prelude.{◌≡◌, ◌+◌, ◌≤◌, ◌∷◌, [], List, Option, true, false, IfOk, OnOk, OnErr, MatchOption, All, length};
ghost use Rattle.gate_outside.specs.Causes.{FaultHasCause};
ghost use Rattle.gate_outside.specs.Links.{ReturnedLink};
ghost use Rattle.gate_outside.specs.declared.sending.Sending.TheVariants as sending;
ghost use Rattle.open_links.specs.Courses.{Events, Gives};
ghost use Rattle.open_links.specs.Links.{Held, no_links, has_conn, Meets, AllMeet};
ghost use Rattle.open_links.specs.Calls.{Admits, TellsEnd, HearsFrom, MovesBy, GoesBy, IsGoneOrFailed, EndsBy, IsSameDoor, is_done};

use crate::heard::Heard;
use crate::numbered::{
    add, ask_at, close_at, first_done_of, give_all, give_at, place_at, place_of, send_at,
};
use crate::open_link::OpenLink;
use gate_outside::accepted::Accepted;
use gate_outside::doors::Door;
use gate_outside::faults::Fault;
use gate_outside::links::Link;
use std::alloc::{AllocError, Global};
use std::marker::Model;

/// The open links of a worker, in order of arrival. They are numbered from 0. A clause says what becomes
/// of them beside what happens to their connections.
#[derive(Drop)]
pub struct OpenLinks<L: Link + Drop> {
    links: Vec<OpenLink<L>>,
    count: u32,
}

impl<L: Link + Drop> Model for OpenLinks<L> {
    ghost use Rattle.open_links.specs.Links.{Holding, AreNumbered};

    ghost Value = { Holding };

    ghost view = { λ o. record {
      links = o.links.items;
      count = o.count;
    } };

    ghost invariant = { λ o. AreNumbered o.links.items o.count };
}

impl<L: Link + Drop> OpenLinks<L> {
    /// No open link yet. It does not allocate.
    pub fn new(alloc: Global) -> OpenLinks<L>
        ensures { result ≡ no_links }
    {
        OpenLinks {
            links: Vec::new(alloc),
            count: 0,
        }
    }

    /// How many links are open.
    pub fn len(&self) -> usize
        ensures { result ≡ length self.now.links }
    {
        self.links.len()
    }

    /// How many links were given in all.
    pub fn count(&self) -> u32
        ensures { result ≡ self.now.count }
    {
        self.count
    }

    /// Asks the door for a link. A link that it gives is open from now on, under the next number.
    pub fn accept<D: Door<Wire = L>>(&mut self, door: &mut D) -> Result<Accepted<u32>, Fault>
        requires within { self.old.count ≤ (D.tale door.old).given }
        ensures within { self.new.count ≤ (D.tale door.new).given }
        ensures given { (D.tale door.new).given + self.old.count ≡ (D.tale door.old).given + self.new.count }
        ensures admits { Admits self.old self.new (D.tale door.new) result }
        ensures ended { TellsEnd result (D.tale door.old).ended (D.tale door.new).ended }
        ensures returned { (D.tale door.new).returned ≡ (D.tale door.old).returned }
        ensures cause { FaultHasCause (D.faults door.old) (D.faults door.new) result }
    {
        self.links.reserve(1)?;
        match door.accept()? {
            Accepted::Link(wire) => {
                let conn = self.count;
                add(&mut self.links, conn, wire);
                self.count += 1;
                Ok(Accepted::Link(conn))
            }
            Accepted::NotYet => Ok(Accepted::NotYet),
            Accepted::Ended => Ok(Accepted::Ended),
        }
    }

    /// Asks the first open link from this number on. `None` exactly if there is none.
    ///
    /// # Errors
    /// Out of memory. Nothing has come then.
    pub fn hear_from(&mut self, from: u32) -> Result<Option<Heard>, AllocError>
        ensures ok { IfOk result (λ heard. HearsFrom from heard self.old self.new) }
        ensures err { OnErr result ((self.new.count ≡ self.old.count) × MovesBy [] self.old self.new) }
    {
        let place = place_of(self.links.as_slice(), from);
        if place == self.links.len() {
            return Ok(None);
        }
        Ok(Some(ask_at(&mut self.links, place)?))
    }

    /// Sends a text over a connection. Nothing goes out if its link is not open or is done with. A link
    /// that fails is done with from now on.
    ///
    /// # Errors
    /// Out of memory, which sends nothing.
    pub fn send(&mut self, conn: u32, text: &str) -> Result<(), AllocError>
        ensures count { self.new.count ≡ self.old.count }
        ensures ok { OnOk result (MovesBy ((conn, Gives (sending.Text text.now)) ∷ []) self.old self.new) }
        ensures err { OnErr result (MovesBy [] self.old self.new) }
    {
        let Some(place) = place_at(self.links.as_slice(), conn) else {
            return Ok(());
        };
        send_at(&mut self.links, place, conn, text)
    }

    /// Closes a connection with a code. The door takes its link back, unless the link fails, which is done
    /// with from now on. Nothing goes out if its link is not open or is done with.
    ///
    /// # Errors
    /// Out of memory, which closes nothing.
    pub fn close<D: Door<Wire = L>>(
        &mut self,
        door: &mut D,
        conn: u32,
        code: u16,
    ) -> Result<(), AllocError>
        ensures count { self.new.count ≡ self.old.count }
        ensures ok { OnOk result (GoesBy ((conn, Gives (sending.Close code)) ∷ []) self.old (D.tale door.old).returned self.new (D.tale door.new).returned) }
        ensures err { OnErr result (GoesBy [] self.old (D.tale door.old).returned self.new (D.tale door.new).returned) }
        ensures gone { OnOk result (is_done conn self.old.links ≡ false → IsGoneOrFailed conn self.new.links) }
        ensures door { IsSameDoor (D.tale door.old) (D.tale door.new) }
        ensures faults { D.faults door.new ≡ D.faults door.old }
    {
        let Some(place) = place_at(self.links.as_slice(), conn) else {
            return Ok(());
        };
        if close_at(&mut self.links, place, conn, code)? {
            give_at(&mut self.links, door, place);
        }
        Ok(())
    }

    /// The connection of the first link that is done with. `None` exactly if there is no such link.
    pub fn first_done(&self) -> Option<u32>
        ensures { MatchOption result (All (λ (l : Held). l.done ≡ false) self.now.links) (λ conn. is_done conn self.now.links ≡ true) }
    {
        first_done_of(self.links.as_slice())
    }

    /// The door takes back the link of a connection that has ended. Nothing happens if its link is not open.
    pub fn end<D: Door<Wire = L>>(&mut self, door: &mut D, conn: u32)
        ensures count { self.new.count ≡ self.old.count }
        ensures ends { EndsBy conn self.old (D.tale door.old).returned self.new (D.tale door.new).returned }
        ensures gone { has_conn conn self.new.links ≡ false }
        ensures door { IsSameDoor (D.tale door.old) (D.tale door.new) }
        ensures faults { D.faults door.new ≡ D.faults door.old }
    {
        if let Some(place) = place_at(self.links.as_slice(), conn) {
            give_at(&mut self.links, door, place);
        }
    }

    /// The door takes all links back.
    pub fn give_back<D: Door<Wire = L>>(self, door: &mut D)
        ensures back { (es : Events) (before : Option (List ReturnedLink)) → Meets es self before (D.tale door.old).returned → AllMeet es self.count before (D.tale door.new).returned }
        ensures door { IsSameDoor (D.tale door.old) (D.tale door.new) }
        ensures faults { D.faults door.new ≡ D.faults door.old }
    {
        let OpenLinks { links, .. } = self;
        give_all(links, door);
    }
}
