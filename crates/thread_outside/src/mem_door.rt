//! A door in memory, some of whose calls fail.
ghost use Rattle.std.specs.Prelude.{◌≡◌, ◌≤◌, ◌^◌, ◌-◌, false, Ok};
ghost use Rattle.gate_outside.specs.Causes.{FaultHasCause};
ghost use Rattle.gate_outside.specs.Doors.{Accepts, GivesNew, TakesBack};
ghost use Rattle.thread_outside.specs.MemLinks.{tale_of, kept_link};
ghost use Rattle.thread_outside.specs.MemDoors.{new_door, door_tale, with_returned, Lets, LetsIn};

use crate::link_content::LinkContent;
use crate::link_shelf::{Place, Shelf};
use crate::mem_link::MemLink;
use crate::peer::Peer;
use gate_outside::accepted::Accepted;
use gate_outside::doors::Door;
use gate_outside::fault_plan::FaultPlan;
use gate_outside::faults::Fault;
use std::alloc::Global;
use std::collections::VecDeque;
use std::marker::Model;

/// The most links that a door gives.
pub const MOST_LINKS: u32 = 4294967295;

/// A door in memory. It tells how many links it will give, whether somebody waits, and what it keeps
/// of the links that came back.
pub struct MemDoor<P: Peer + Drop> {
    alloc: Global,
    callers: VecDeque<Option<LinkContent<P>>>,
    given: u32,
    most: u32,
    ended: bool,
    plan: FaultPlan,
    shelf: Shelf,
}

impl<P: Peer + Drop> Drop for MemDoor<P> {
    fn drop(self) {
        let MemDoor {
            alloc: _,
            callers,
            given: _,
            most: _,
            ended: _,
            plan,
            shelf,
        } = self;
        drop(callers);
        drop(plan);
        drop(shelf);
    }
}

impl<P: Peer + Drop> Model for MemDoor<P> {
    ghost use Rattle.std.specs.Prelude.{◌≡◌, ◌≤◌, true};
    ghost use Rattle.thread_outside.specs.MemDoors.{DoorState, all_links};

    ghost Value = { DoorState };

    ghost view = { λ d. record {
      callers = d.callers.items;
      given = d.given;
      most = d.most;
      ended = d.ended;
      plan = d.plan;
      returned = d.shelf;
    } };

    ghost invariant = { λ d. (d.given ≤ d.most)
        × (d.ended ≡ true → d.given ≡ all_links d.given d.most d.callers.items) };
}

impl<P: Peer + Drop> MemDoor<P> {
    /// A door at which these wait, call by call. At a turn of `None` nobody waits, and after the last
    /// turn, or after 2^32 - 1 links, the door has ended. `failing` has the numbers of the calls of
    /// `accept` that are to fail, from 1.
    pub fn new(
        alloc: Global,
        callers: VecDeque<Option<LinkContent<P>>>,
        failing: Vec<u64>,
    ) -> MemDoor<P>
        ensures { result ≡ new_door callers.items (2 ^ 32 - 1) failing.items }
    {
        MemDoor::with_most(alloc, callers, MOST_LINKS, failing)
    }

    /// The same, which gives at most `most` links.
    pub fn with_most(
        alloc: Global,
        callers: VecDeque<Option<LinkContent<P>>>,
        most: u32,
        failing: Vec<u64>,
    ) -> MemDoor<P>
        ensures { result ≡ new_door callers.items most failing.items }
    {
        MemDoor {
            alloc,
            callers,
            given: 0,
            most,
            ended: false,
            plan: FaultPlan::new(failing),
            shelf: Shelf::new(),
        }
    }

    // Gives at most so many links, before the first call.
    pub(crate) fn limit(&mut self, most: u32)
        requires { (self.old.given ≡ 0) × (self.old.ended ≡ false) }
        ensures { self.new ≡ record self.old { most = most } }
    {
        self.most = most;
    }

    /// How often a call failed.
    pub fn faults(&self) -> u64
        ensures { result ≡ self.now.plan.faults }
    {
        self.plan.faults()
    }

    // Lets the next caller in, whose link has this place.
    fn let_in(&mut self, place: Box<Place>) -> Accepted<MemLink<P>>
        requires { self.old.ended ≡ false }
        ensures exact { LetsIn self.old self.new result }
        ensures tale { Accepts (door_tale self.old) (door_tale self.new) (Ok result) }
        ensures new_link { GivesNew tale_of (λ l. l.plan.faults) (Ok result) }
        ensures plan { self.new.plan ≡ self.old.plan }
    {
        if self.given == self.most {
            self.ended = true;
            return Accepted::Ended;
        }
        match self.callers.pop_front() {
            Some(Some(content)) => {
                self.given += 1;
                Accepted::Link(MemLink::at(self.alloc, place, content))
            }
            Some(None) => Accepted::NotYet,
            None => {
                self.ended = true;
                Accepted::Ended
            }
        }
    }
}

impl<P: Peer + Drop> Door for MemDoor<P> {
    type Wire = MemLink<P>;

    ghost tale = { door_tale };

    ghost faults = { λ d. d.plan.faults };

    fn accept(&mut self) -> Result<Accepted<MemLink<P>>, Fault>
        ensures tale { Accepts (door_tale self.old) (door_tale self.new) result }
        ensures new_link { GivesNew tale_of (λ l. l.plan.faults) result }
        ensures cause { FaultHasCause self.old.plan.faults self.new.plan.faults result }
        ensures exact { Lets self.old self.new result }
    {
        if self.ended {
            return Ok(Accepted::Ended);
        }
        if self.plan.fails() {
            self.plan.count_failed_call();
            return Err(Fault::Failed);
        }
        let place = Place::new(self.alloc)?;
        self.plan.count_call();
        Ok(self.let_in(place))
    }

    fn back(&mut self, wire: MemLink<P>)
        ensures tale { TakesBack (door_tale self.old) (door_tale self.new) (kept_link wire) }
        ensures faults { self.new.plan.faults ≡ self.old.plan.faults }
        ensures exact { self.new ≡ with_returned self.old wire }
    {
        self.shelf.put(wire.into_place());
    }
}
