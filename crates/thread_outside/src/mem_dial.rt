//! A dial in memory, some of whose calls fail.
ghost use Rattle.std.specs.Prelude.{◌≡◌, ◌≤◌, IfOk};
ghost use Rattle.gate_outside.specs.Causes.{FaultHasCause};
ghost use Rattle.gate_outside.specs.Dials.{Dials, HangsUp};
ghost use Rattle.gate_outside.specs.Houses.{no_house};
ghost use Rattle.gate_outside.specs.Links.{IsNewLink};
ghost use Rattle.thread_outside.specs.MemLinks.{tale_of};
ghost use Rattle.thread_outside.specs.MemDials.{new_dial, dial_tale, Opens, OpensNext, after_back, after_failed_dial};
ghost use Rattle.gate_outside.specs.declared.faults.Fault.TheVariants as fault;

use crate::link_content::LinkContent;
use crate::link_shelf::{Place, Shelf};
use crate::mem_link::MemLink;
use crate::peer::Peer;
use collections::text::Text;
use gate_outside::dials::Dial;
use gate_outside::fault_plan::FaultPlan;
use gate_outside::faults::Fault;
use std::alloc::Global;
use std::collections::VecDeque;
use std::marker::Model;

/// A dial in memory. It tells the URLs, and what it keeps of the links that came back.
pub struct MemDial<P: Peer + Drop> {
    alloc: Global,
    ends: VecDeque<LinkContent<P>>,
    urls: Vec<Text>,
    dry_run: u64,
    plan: FaultPlan,
    shelf: Shelf,
}

impl<P: Peer + Drop> Drop for MemDial<P> {
    fn drop(self) {
        let MemDial {
            alloc: _,
            ends,
            urls,
            dry_run: _,
            plan,
            shelf,
        } = self;
        drop(ends);
        drop(urls);
        drop(plan);
        drop(shelf);
    }
}

impl<P: Peer + Drop> Model for MemDial<P> {
    ghost use Rattle.thread_outside.specs.MemDials.{DialState};

    ghost Value = { DialState };

    ghost view = { λ d. record {
      ends = d.ends.items;
      urls = d.urls.items;
      dry_run = d.dry_run;
      plan = d.plan;
      returned = d.shelf;
    } };
}

impl<P: Peer + Drop> MemDial<P> {
    /// A dial that opens links to these ends, one after another, whatever the URLs. `failing` has the
    /// numbers of the dials that are to fail, from 1; a dial for which no end is left fails too.
    pub fn new(alloc: Global, ends: VecDeque<LinkContent<P>>, failing: Vec<u64>) -> MemDial<P>
        ensures { result ≡ new_dial ends.items failing.items }
    {
        MemDial {
            alloc,
            ends,
            urls: Vec::new(alloc),
            dry_run: 0,
            plan: FaultPlan::new(failing),
            shelf: Shelf::new(),
        }
    }

    /// The URLs that were dialled, in order.
    pub fn urls(&self) -> &[Text]
        ensures { result.now ≡ self.now.urls }
    {
        self.urls.as_slice()
    }

    /// How many dials and links failed, one after another, since a link gave a text.
    pub fn dry_run(&self) -> u64
        ensures { result ≡ self.now.dry_run }
    {
        self.dry_run
    }

    // A dial that fails.
    fn fail(&mut self) -> Fault
        ensures result { result ≡ fault.Failed }
        ensures after { self.new ≡ after_failed_dial self.old }
        ensures rise { self.old.plan.faults ≤ self.new.plan.faults }
    {
        self.plan.count_failed_call();
        self.dry_run = self.dry_run.saturating_add(1);
        Fault::Failed
    }

    // Opens a link whose place is there to the next end.
    fn open(&mut self, place: Box<Place>) -> Result<MemLink<P>, Fault>
        ensures exact { OpensNext self.old self.new result }
        ensures cause { FaultHasCause self.old.plan.faults self.new.plan.faults result }
    {
        if self.plan.fails() {
            return Err(self.fail());
        }
        match self.ends.pop_front() {
            Some(content) => {
                self.plan.count_call();
                Ok(MemLink::at(self.alloc, place, content))
            }
            None => Err(self.fail()),
        }
    }
}

impl<P: Peer + Drop> Dial for MemDial<P> {
    type Wire = MemLink<P>;

    ghost tale = { dial_tale };

    ghost faults = { λ d. d.plan.faults };

    ghost house_tale = { λ _. no_house };

    fn dial(&mut self, url: &str) -> Result<MemLink<P>, Fault>
        ensures tale { Dials (dial_tale self.old) (dial_tale self.new) url.now result }
        ensures new_link { IfOk result (λ l. IsNewLink (tale_of l) l.plan.faults) }
        ensures cause { FaultHasCause self.old.plan.faults self.new.plan.faults result }
        ensures exact { Opens self.old self.new url.now result }
    {
        let place = Place::new(self.alloc)?;
        let url = Text::new(self.alloc, url)?;
        self.urls.push(url)?;
        self.open(place)
    }

    fn back(&mut self, wire: MemLink<P>)
        ensures tale { HangsUp (dial_tale self.old) (dial_tale self.new) (tale_of wire) wire.plan.faults }
        ensures faults { self.new.plan.faults ≡ self.old.plan.faults }
        ensures exact { self.new ≡ after_back self.old wire }
    {
        if wire.gave_text() {
            self.dry_run = 0;
        }
        if wire.faults() > 0 {
            self.dry_run = self.dry_run.saturating_add(1);
        }
        self.shelf.put(wire.into_place());
    }
}
