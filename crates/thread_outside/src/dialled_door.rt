//! A door in memory that others dial, which other threads may do.
ghost use Rattle.std.specs.Prelude.{◌≡◌, ◌<◌, ℕ, false, Ok, Some, IfOk, length, slice_get};
ghost use Rattle.gate_outside.specs.Causes.{FaultHasCause};
ghost use Rattle.gate_outside.specs.Doors.{Accepts, GivesNew, TakesBack};
ghost use Rattle.thread_outside.specs.MemLinks.{tale_of, kept_link};
ghost use Rattle.thread_outside.specs.DialledDoors.{new_dialled, new_door_dial, dialled_tale, with_link, AcceptsCall, ComesNext};

use crate::call_taker::CallTaker;
use crate::calls::Calls;
use crate::door_dial::DoorDial;
use crate::lane_end::LaneEnd;
use crate::link_content::LinkContent;
use crate::link_shelf::{Place, Shelf};
use crate::mem_door::MOST_LINKS;
use crate::mem_link::MemLink;
use gate_outside::accepted::Accepted;
use gate_outside::doors::Door;
use gate_outside::fault_plan::FaultPlan;
use gate_outside::faults::Fault;
use std::alloc::{AllocError, Global};
use std::marker::Model;
use std::sync::{Arc, Wait};

/// A door in memory that others dial. It gives an end of each link that a dial opened, in the order in
/// which they came, and has ended once all its dials were dropped and it has given all their links.
pub struct DialledDoor<R: Wait + Copy + Drop> {
    runtime: R,
    alloc: Global,
    taker: CallTaker,
    given: u32,
    ended: bool,
    plan: FaultPlan,
    shelf: Shelf,
}

// One call drops it, so that no crate above proves the drop of each of its parts again.
impl<R: Wait + Copy + Drop> Drop for DialledDoor<R> {
    fn drop(self) {
        let DialledDoor {
            runtime: _,
            alloc: _,
            taker,
            given: _,
            ended: _,
            plan,
            shelf,
        } = self;
        drop(taker);
        drop(plan);
        drop(shelf);
    }
}

impl<R: Wait + Copy + Drop> Model for DialledDoor<R> {
    ghost use Rattle.std.specs.Prelude.{◌≤◌, ◌^◌, ◌-◌};
    ghost use Rattle.thread_outside.specs.DialledDoors.{DialledState};

    ghost Value = { DialledState };

    ghost view = { λ d. record {
      calls = d.taker;
      given = d.given;
      ended = d.ended;
      plan = d.plan;
      returned = d.shelf;
    } };

    ghost invariant = { λ d. d.given ≤ 2 ^ 32 - 1 };
}

impl<R: Wait + Copy + Drop> DialledDoor<R> {
    /// A door and so many dials to it, which other threads may hold. `failing` has the numbers of the
    /// calls of `accept` that are to fail, from 1.
    pub fn open(
        runtime: R,
        alloc: Global,
        dials: u8,
        failing: Vec<u64>,
    ) -> Result<(DialledDoor<R>, Vec<DoorDial<R>>), AllocError>
        ensures door { IfOk result (λ r. r.0 ≡ new_dialled r.0.calls.queue dials failing.items) }
        ensures dials { IfOk result (λ r. (length r.1.items ≡ dials) × ((p : ℕ) → p < dials → slice_get r.1.items p ≡ Some (new_door_dial r.0.calls.queue p))) }
    {
        let (calls, pass) = Calls::open(alloc)?;
        let calls = Arc::new(alloc, calls)?;
        let mut taker = CallTaker::new(alloc, calls, pass);
        let mut made = Vec::new(alloc);
        for dial in 0..dials {
            let _ = dial;
            let next = DoorDial::new(runtime, alloc, &mut taker)?;
            made.push(next)?;
        }
        let door = DialledDoor {
            runtime,
            alloc,
            taker,
            given: 0,
            ended: false,
            plan: FaultPlan::new(failing),
            shelf: Shelf::new(),
        };
        Ok((door, made))
    }

    /// How often a call failed.
    pub fn faults(&self) -> u64
        ensures { result ≡ self.now.plan.faults }
    {
        self.plan.faults()
    }

    // The answer that is due. A link has this place.
    fn next(&mut self, place: Box<Place>) -> Accepted<MemLink<LaneEnd<R>>>
        requires { self.old.ended ≡ false }
        ensures exact { ComesNext self.old self.new result }
        ensures tale { Accepts (dialled_tale self.old) (dialled_tale self.new) (Ok result) }
        ensures new_link { GivesNew tale_of (λ l. l.plan.faults) (Ok result) }
        ensures same { (self.new.plan ≡ self.old.plan) × (self.new.returned ≡ self.old.returned) }
    {
        if self.given == MOST_LINKS {
            self.ended = true;
            return Accepted::Ended;
        }
        match self.taker.next(&self.runtime) {
            Some(ends) => {
                self.given += 1;
                let end = LaneEnd::new(self.runtime, ends);
                let content = LinkContent::new(end, Vec::new(self.alloc));
                Accepted::Link(MemLink::at(self.alloc, place, content))
            }
            None if self.taker.all_ended() => {
                self.ended = true;
                Accepted::Ended
            }
            None => Accepted::NotYet,
        }
    }
}

impl<R: Wait + Copy + Drop> Door for DialledDoor<R> {
    type Wire = MemLink<LaneEnd<R>>;

    ghost tale = { dialled_tale };

    ghost faults = { λ d. d.plan.faults };

    fn accept(&mut self) -> Result<Accepted<MemLink<LaneEnd<R>>>, Fault>
        ensures tale { Accepts (dialled_tale self.old) (dialled_tale self.new) result }
        ensures new_link { GivesNew tale_of (λ l. l.plan.faults) result }
        ensures cause { FaultHasCause self.old.plan.faults self.new.plan.faults result }
        ensures exact { AcceptsCall self.old self.new result }
    {
        if self.ended {
            return Ok(Accepted::Ended);
        }
        if self.plan.fails() {
            self.plan.count_failed_call();
            return Err(Fault::Failed);
        }
        // A dial that could not say its end would be waited for without end.
        if self.taker.is_starved() {
            return Err(Fault::Memory);
        }
        let place = Place::new(self.alloc)?;
        self.plan.count_call();
        Ok(self.next(place))
    }

    fn back(&mut self, wire: MemLink<LaneEnd<R>>)
        ensures tale { TakesBack (dialled_tale self.old) (dialled_tale self.new) (kept_link wire) }
        ensures faults { self.new.plan.faults ≡ self.old.plan.faults }
        ensures exact { self.new ≡ with_link self.old wire }
    {
        self.shelf.put(wire.into_place());
    }
}
