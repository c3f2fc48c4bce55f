//! A dial to a door in memory, which another thread may hold.
ghost use Rattle.std.specs.Prelude.{◌≡◌, ◌<◌, [], IfOk};
ghost use Rattle.gate_outside.specs.Causes.{FaultHasCause};
ghost use Rattle.gate_outside.specs.Dials.{Dials, HangsUp};
ghost use Rattle.gate_outside.specs.Houses.{no_house};
ghost use Rattle.gate_outside.specs.Links.{IsNewLink};
ghost use Rattle.thread_outside.specs.MemLinks.{tale_of};
ghost use Rattle.thread_outside.specs.DialledDoors.{new_door_dial, door_dial_tale, after_hang_up, with_dial, DialsDoor};

use crate::call::Call;
use crate::call_taker::CallTaker;
use crate::calls::{CallPass, Calls};
use crate::lane_end::LaneEnd;
use crate::link_shelf::Shelf;
use crate::mem_link::MemLink;
use crate::unused_ends::UnusedEnds;
use collections::text::Text;
use gate_outside::dials::Dial;
use gate_outside::faults::Fault;
use std::alloc::{AllocError, Global};
use std::marker::Model;
use std::sync::{Arc, Wait};

/// A dial to a door in memory. It opens links to that door, whatever the URLs, and never fails. It
/// tells the URLs, and what it keeps of the links that came back. The door is told when it is dropped.
pub struct DoorDial<R: Wait + Copy + Drop> {
    runtime: R,
    alloc: Global,
    calls: Arc<Calls, Global>,
    pass: CallPass,
    caller: u8,
    urls: Vec<Text>,
    dry_run: u64,
    shelf: Shelf,
}

impl<R: Wait + Copy + Drop> Model for DoorDial<R> {
    ghost use Rattle.thread_outside.specs.DialledDoors.{DoorDialState};
    ghost use Rattle.std.specs.Prelude.{◌≡◌, true, false};
    ghost use Rattle.crossbeam_queue.specs.SegTies.{IsSegPassOf};
    ghost use Rattle.thread_outside.specs.CallLists.{has_end};

    ghost Value = { DoorDialState };

    ghost view = { λ d. record {
      queue = d.calls.value;
      caller = d.caller;
      put = d.pass.me.view.client.put;
      urls = d.urls.items;
      dry_run = d.dry_run;
      returned = d.shelf;
    } };

    ghost invariant = { λ d. IsSegPassOf d.calls.value d.pass × (d.pass.me.view.client.calls ≡ true) × (d.pass.me.view.client.takes ≡ false)
        × (d.pass.me.view.client.caller ≡ d.caller) × (has_end d.pass.me.view.client.put ≡ false) };
}

impl<R: Wait + Copy + Drop> Drop for DoorDial<R> {
    fn drop(self) {
        let Self {
            runtime,
            alloc: _,
            calls,
            pass,
            caller,
            urls: _,
            dry_run: _,
            shelf: _,
        } = self;
        let mut pass = pass;
        let call = Call { caller, ends: None };
        if calls.put(&runtime, &mut pass, call).is_err() {
            calls.starve();
        }
    }
}

impl<R: Wait + Copy + Drop> DoorDial<R> {
    // The next dial to the door of that taker.
    pub(crate) fn new(
        runtime: R,
        alloc: Global,
        taker: &mut CallTaker,
    ) -> Result<DoorDial<R>, AllocError>
        requires { (taker.old.dials < 256) × (taker.old.taken ≡ []) }
        ensures dial { IfOk result (λ d. d ≡ new_door_dial taker.old.queue taker.old.dials) }
        ensures taker { IfOk result (λ _. taker.new ≡ with_dial taker.old) }
    {
        let (calls, pass, caller) = taker.admit()?;
        Ok(DoorDial {
            runtime,
            alloc,
            calls,
            pass,
            caller,
            urls: Vec::new(alloc),
            dry_run: 0,
            shelf: Shelf::new(),
        })
    }

    /// The URLs that were dialled, in order.
    pub fn urls(&self) -> &[Text]
        ensures { result.now ≡ self.now.urls }
    {
        self.urls.as_slice()
    }

    /// How many links failed, one after another, since one gave a text.
    pub fn dry_run(&self) -> u64
        ensures { result ≡ self.now.dry_run }
    {
        self.dry_run
    }
}

impl<R: Wait + Copy + Drop> Dial for DoorDial<R> {
    type Wire = MemLink<LaneEnd<R>>;

    ghost tale = { door_dial_tale };

    ghost faults = { λ _. 0 };

    ghost house_tale = { λ _. no_house };

    fn dial(&mut self, url: &str) -> Result<MemLink<LaneEnd<R>>, Fault>
        ensures tale { Dials (door_dial_tale self.old) (door_dial_tale self.new) url.now result }
        ensures new_link { IfOk result (λ l. IsNewLink (tale_of l) l.plan.faults) }
        ensures cause { FaultHasCause 0 0 result }
        ensures exact { DialsDoor self.old self.new url.now result }
    {
        let url = Text::new(self.alloc, url)?;
        self.urls.reserve(1)?;
        let (near, far) = UnusedEnds::joined(self.alloc)?;
        let near = LaneEnd::new(self.runtime, near);
        let link = MemLink::new(self.alloc, near, Vec::new(self.alloc))?;
        let call = Call {
            caller: self.caller,
            ends: Some(far),
        };
        if self.calls.put(&self.runtime, &mut self.pass, call).is_err() {
            return Err(Fault::Memory);
        }
        self.urls.push_reserved(url);
        Ok(link)
    }

    fn back(&mut self, wire: MemLink<LaneEnd<R>>)
        ensures tale { HangsUp (door_dial_tale self.old) (door_dial_tale self.new) (tale_of wire) wire.plan.faults }
        ensures exact { self.new ≡ after_hang_up self.old wire }
    {
        if wire.gave_text() {
            self.dry_run = 0;
        }
        if wire.faults() > 0 {
            self.dry_run = self.dry_run.saturating_add(1);
        }
        self.shelf.put(wire.into_place());
    }
}
