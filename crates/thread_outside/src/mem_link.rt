//! A link in memory, some of whose calls fail.
ghost use Rattle.std.specs.Prelude.{◌≡◌, Ok, Some, None, IfOk};
ghost use Rattle.gate_outside.specs.Causes.{FaultHasCause};
ghost use Rattle.gate_outside.specs.Links.{Receives, Sends, Closes, given_by, gave_text_after};
ghost use Rattle.gate_outside.specs.declared.sending.Sending.TheVariants as sending;
ghost use Rattle.thread_outside.specs.MemLinks.{new_link, kept_link, tale_of, GoesOut, Gives, PutsOut};
ghost use Rattle.thread_outside.specs.Shelves.{kept_at};

use crate::link_content::LinkContent;
use crate::link_shelf::Place;
use crate::peer::Peer;
use crate::script::Script;
use crate::unused::Unused;
use collections::text::Text;
use gate_outside::fault_plan::FaultPlan;
use gate_outside::faults::Fault;
use gate_outside::incoming::Incoming;
use gate_outside::links::Link;
use gate_outside::sending::Sending;
use std::alloc::{AllocError, Global};
use std::marker::Model;

/// A link in memory. A clause sees what it gave and what it was sent.
pub struct MemLink<P: Peer + Drop> {
    alloc: Global,
    peer: P,
    own_code: Option<u16>,
    gave_text: bool,
    place: Box<Place>,
    plan: FaultPlan,
}

impl<P: Peer + Drop> Drop for MemLink<P> {
    fn drop(self) {
        let MemLink {
            alloc: _,
            peer,
            own_code: _,
            gave_text: _,
            place,
            plan,
        } = self;
        drop(peer);
        drop(place);
        drop(plan);
    }
}

impl<P: Peer + Drop> Model for MemLink<P> {
    ghost use Rattle.thread_outside.specs.MemLinks.{LinkState};

    ghost Value = { LinkState };

    ghost view = { λ l. record {
      turns = P.turns l.peer;
      lane = P.lane l.peer;
      own_code = l.own_code;
      gave_text = l.gave_text;
      gave = P.gave l.peer;
      sent = P.sent l.peer;
      plan = l.plan;
    } };
}

impl<P: Peer + Drop> MemLink<P> {
    /// A link to that other end. `failing` has the numbers of its calls that are to fail, from 1.
    pub fn new(alloc: Global, peer: Unused<P>, failing: Vec<u64>) -> Result<MemLink<P>, AllocError>
        ensures { IfOk result (λ l. l ≡ new_link (P.turns peer) (P.lane peer) failing.items) }
    {
        let place = Place::new(alloc)?;
        Ok(MemLink::at(alloc, place, LinkContent::new(peer, failing)))
    }

    // A link made from that content, which has its place already.
    pub(crate) fn at(alloc: Global, place: Box<Place>, content: LinkContent<P>) -> MemLink<P>
        ensures { result ≡ new_link content.turns content.lane content.failing }
    {
        let (peer, failing) = content.into_parts();
        MemLink {
            alloc,
            peer,
            own_code: None,
            gave_text: false,
            place,
            plan: FaultPlan::new(failing),
        }
    }

    // What is kept of the link, at its place.
    pub(crate) fn into_place(self) -> Box<Place>
        ensures { kept_at result.value ≡ kept_link self }
    {
        let MemLink {
            alloc: _,
            peer,
            own_code: _,
            gave_text: _,
            mut place,
            plan,
        } = self;
        place.tale = peer.into_kept();
        place.faults = plan.faults();
        place
    }

    /// Whether it has given a text.
    pub fn gave_text(&self) -> bool
        ensures { result ≡ self.now.gave_text }
    {
        self.gave_text
    }

    /// How often a call failed.
    pub fn faults(&self) -> u64
        ensures { result ≡ self.now.plan.faults }
    {
        self.plan.faults()
    }
}

impl MemLink<Script> {
    /// What came and was given, in order.
    pub fn gave(&self) -> &[Sending]
        ensures { result.now ≡ self.now.gave }
    {
        self.peer.gave()
    }

    /// What went out, in order.
    pub fn sent(&self) -> &[Sending]
        ensures { result.now ≡ self.now.sent }
    {
        self.peer.sent()
    }
}

impl<P: Peer + Drop> MemLink<P> {
    // What a turn gives.
    fn given(&mut self, turn: Option<Sending>) -> Incoming
        ensures given { given_by (Ok result) ≡ turn }
        ensures text { self.new ≡ record self.old { gave_text = gave_text_after self.old.gave_text turn } }
    {
        match turn {
            Some(Sending::Text(text)) => {
                self.gave_text = true;
                Incoming::Text(text)
            }
            Some(Sending::Close(code)) => Incoming::Closed(code),
            None => Incoming::NotYet,
        }
    }

    // Puts what goes out.
    fn go_out(&mut self, sending: Sending) -> Result<(), Fault>
        ensures exact { GoesOut self.old self.new sending result }
        ensures cause { FaultHasCause self.old.plan.faults self.new.plan.faults result }
    {
        match self.peer.put(sending) {
            Ok(()) => {
                self.plan.count_call();
                Ok(())
            }
            Err(Fault::Failed) => {
                self.plan.count_failed_call();
                Err(Fault::Failed)
            }
            Err(Fault::Memory) => Err(Fault::Memory),
        }
    }
}

impl<P: Peer + Drop> Link for MemLink<P> {
    ghost tale = { tale_of };

    ghost faults = { λ l. l.plan.faults };

    fn recv(&mut self) -> Result<Incoming, Fault>
        ensures tale { Receives (tale_of self.old) (tale_of self.new) result }
        ensures cause { FaultHasCause self.old.plan.faults self.new.plan.faults result }
        ensures exact { Gives self.old self.new result }
    {
        if let Some(code) = self.own_code {
            return Ok(Incoming::Closed(code));
        }
        if self.plan.fails() {
            self.plan.count_failed_call();
            return Err(Fault::Failed);
        }
        match self.peer.take() {
            Ok(turn) => {
                self.plan.count_call();
                Ok(self.given(turn))
            }
            Err(Fault::Failed) => {
                self.plan.count_failed_call();
                Err(Fault::Failed)
            }
            Err(Fault::Memory) => Err(Fault::Memory),
        }
    }

    fn send(&mut self, text: &str) -> Result<(), Fault>
        ensures tale { Sends (tale_of self.old) (tale_of self.new) text.now result }
        ensures cause { FaultHasCause self.old.plan.faults self.new.plan.faults result }
        ensures exact { PutsOut self.old self.new (sending.Text text.now) None result }
    {
        if self.own_code.is_some() {
            return Ok(());
        }
        if self.plan.fails() {
            self.plan.count_failed_call();
            return Err(Fault::Failed);
        }
        let text = Text::new(self.alloc, text)?;
        self.go_out(Sending::Text(text))
    }

    fn close(&mut self, code: u16) -> Result<(), Fault>
        ensures tale { Closes (tale_of self.old) (tale_of self.new) code result }
        ensures cause { FaultHasCause self.old.plan.faults self.new.plan.faults result }
        ensures exact { PutsOut self.old self.new (sending.Close code) (Some code) result }
    {
        if self.own_code.is_some() {
            return Ok(());
        }
        if self.plan.fails() {
            self.plan.count_failed_call();
            return Err(Fault::Failed);
        }
        self.go_out(Sending::Close(code))?;
        self.own_code = Some(code);
        Ok(())
    }
}
