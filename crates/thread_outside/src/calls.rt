//! What dials put at their door, under the rule that of each dial it is taken in its order.
ghost use Rattle.std.specs.Prelude.{◌≡◌, ◌<◌, true, false, MatchOption, MatchResult, IfOk};
ghost use Rattle.crossbeam_queue.specs.SegTies.{IsSegPassOf};
ghost use Rattle.thread_outside.specs.CallLists.{has_end};
ghost use Rattle.thread_outside.specs.CallRule.{after_put, after_take, opening, with_caller, new_caller, spent, with_empty_take, took_after_all, WasEmpty};

use crate::call::Call;
use crate::call_view::CallView;
use crossbeam_queue::protocol::{Lesson, Outcome, Protocol, Split};
use crossbeam_queue::{RuledSegQueue, SegPass};
use std::alloc::{AllocError, Global};
use std::marker::Model;
use std::sync::Wait;
use std::sync::atomic::{AtomicBool, Ordering};

// The rule of a door's queue.
pub(crate) struct InTurn;

impl Protocol<Call, CallView> for InTurn {
    ghost use Rattle.thread_outside.specs.CallRule.{opening, KeepsCalls};

    ghost holds = { KeepsCalls };

    ghost first = { opening };
}

struct Puts;

impl Outcome<Call, CallView> for Puts {
    ghost then = { λ before call after. after ≡ after_put before call };
}

struct Takes;

impl Outcome<Call, CallView> for Takes {
    ghost then = { λ before call after. (after ≡ after_take before call) × (call.caller < before.made) };
}

impl Lesson<Call, CallView> for Takes {
    ghost use Rattle.std.specs.Prelude.{⊤};

    ghost fact = { λ mine items. ⊤ };
}

// A take that has found nothing at first, and has counted itself.
struct TakesAfterAll;

impl Outcome<Call, CallView> for TakesAfterAll {
    ghost then = { λ before call after. (after ≡ took_after_all before call)
        × (call.caller < before.made) };
}

impl Lesson<Call, CallView> for TakesAfterAll {
    ghost use Rattle.std.specs.Prelude.{◌≡◌, ℕ, List};
    ghost use mathlib.Core.Option.{some};
    ghost use lib.ListN.{get_elem?};
    ghost use Rattle.thread_outside.specs.declared.call_view.CallView.{CallView};
    ghost use Rattle.thread_outside.specs.CallRule.{KeepsCalls};

    ghost fact = { λ mine items. (views : List CallView) × (port : ℕ) × KeepsCalls items views × (get_elem? views port ≡ some mine) };
}

struct CountsItself;

impl Split<CallView> for CountsItself {
    ghost left = { with_empty_take };

    ghost right = { λ _. spent };
}

struct Admits;

impl Split<CallView> for Admits {
    ghost left = { with_caller };

    ghost right = { new_caller };
}

/// The right of a dial to put into a door's queue, or of the door to take from it.
pub(crate) type CallPass = SegPass<Call, CallView>;

// What waits at a door, and whether a dial could not say that it has ended. A clause sees its queue.
pub(crate) struct Calls {
    waiting: RuledSegQueue<Call, CallView, InTurn>,
    starved: AtomicBool,
}

impl Model for Calls {
    ghost use Rattle.std.specs.declared.alloc.Global.{Global};
    ghost use Rattle.crossbeam_queue.specs.SegTies.{SegId};

    ghost Value = { SegId Global };

    ghost view = { λ c. c.waiting };
}

impl Drop for Calls {
    fn drop(self) {
        let Self {
            waiting,
            starved: _,
        } = self;
        waiting.destroy();
    }
}

impl Calls {
    // An empty queue and the door's pass.
    pub(crate) fn open(alloc: Global) -> Result<(Calls, CallPass), AllocError>
        ensures { IfOk result (λ r. IsSegPassOf r.0 r.1 × (r.1.me.view.client ≡ opening)) }
    {
        let (waiting, door) = RuledSegQueue::with_rule(alloc)?;
        let calls = Calls {
            waiting,
            starved: AtomicBool::new(false),
        };
        Ok((calls, door))
    }

    // Makes a pass for the next dial. It does not allocate.
    pub(crate) fn admit(&self, door: &mut CallPass) -> CallPass
        requires calls { IsSegPassOf self.now door.old }
        requires takes { door.old.me.view.client.takes ≡ true }
        ensures calls { IsSegPassOf self.now door.new × IsSegPassOf self.now result }
        ensures door { door.new.me.view.client ≡ with_caller door.old.me.view.client }
        ensures dial { result.me.view.client ≡ new_caller door.old.me.view.client }
    {
        self.waiting.another::<Admits>(door)
    }

    // Puts a call at the back. It comes back if memory runs out.
    pub(crate) fn put<R: Wait>(
        &self,
        runtime: &R,
        pass: &mut CallPass,
        call: Call,
    ) -> Result<(), Call>
        requires calls { IsSegPassOf self.now pass.old }
        requires dial { (pass.old.me.view.client.calls ≡ true) × (pass.old.me.view.client.takes ≡ false) × (call.caller ≡ pass.old.me.view.client.caller) }
        requires unended { has_end pass.old.me.view.client.put ≡ false }
        ensures calls { IsSegPassOf self.now pass.new }
        ensures put { MatchResult result (λ _. pass.new.me.view.client ≡ after_put pass.old.me.view.client call) (λ back. (back ≡ call) × (pass.new.me.view.client ≡ pass.old.me.view.client)) }
    {
        self.waiting.push_as::<Puts, R>(runtime, pass, call)
    }

    // Takes what waits first. `None` only if nothing waited at one step of the call.
    pub(crate) fn take<R: Wait>(&self, runtime: &R, pass: &mut CallPass) -> Option<Call>
        requires calls { IsSegPassOf self.now pass.old }
        requires takes { pass.old.me.view.client.takes ≡ true }
        ensures calls { IsSegPassOf self.now pass.new }
        ensures taken { MatchOption result
            ((pass.new.me.view.client ≡ with_empty_take pass.old.me.view.client)
            × WasEmpty pass.new.me.view.client)
            (λ call. (pass.new.me.view.client ≡ after_take pass.old.me.view.client call)
            × (call.caller < pass.old.me.view.client.made)) }
    {
        match self.waiting.pop_as::<Takes, R>(runtime, pass) {
            found @ Some(_) => found,
            None => self.count_and_take(runtime, pass),
        }
    }

    // Counts this take as one that finds nothing, and only then looks, so that the step at which the
    // queue was empty is known to be one of this call.
    fn count_and_take<R: Wait>(&self, runtime: &R, pass: &mut CallPass) -> Option<Call>
        requires calls { IsSegPassOf self.now pass.old }
        requires takes { pass.old.me.view.client.takes ≡ true }
        ensures calls { IsSegPassOf self.now pass.new }
        ensures taken { MatchOption result
            ((pass.new.me.view.client ≡ with_empty_take pass.old.me.view.client)
            × WasEmpty pass.new.me.view.client)
            (λ call. (pass.new.me.view.client ≡ after_take pass.old.me.view.client call)
            × (call.caller < pass.old.me.view.client.made)) }
    {
        drop(self.waiting.another::<CountsItself>(pass));
        self.waiting.pop_as::<TakesAfterAll, R>(runtime, pass)
    }

    // Says that a dial could not say that it has ended.
    pub(crate) fn starve(&self) {
        self.starved.store(true, Ordering::SeqCst);
    }

    // Whether a dial could not say that it has ended.
    pub(crate) fn is_starved(&self) -> bool {
        self.starved.load(Ordering::SeqCst)
    }
}
