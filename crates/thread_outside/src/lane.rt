//! What goes one way between two ends in memory.
ghost use Rattle.std.specs.Prelude.{◌≡◌, true, false, [], MatchBool, MatchOption, MatchResult, IfOk};
ghost use Rattle.crossbeam_queue.specs.SegTies.{IsSegPassOf};
ghost use Rattle.thread_outside.specs.Flags.{whole, leaver, finder, leaving, view_of};
ghost use Rattle.thread_outside.specs.Lanes.{opening, putter, taker, spent, after_put, after_take, with_empty_take, took_after_all, WasEmpty};

use crate::flag::{self, Flag, FlagSeat};
use crate::lane_view::LaneView;
use crossbeam_queue::protocol::{Lesson, Outcome, Protocol, Split};
use crossbeam_queue::{RuledSegQueue, SegPass};
use gate_outside::sending::Sending;
use std::alloc::{AllocError, Global};
use std::marker::Model;
use std::sync::{Arc, Wait};

// The rule of a lane.
pub(crate) struct All;

impl Protocol<Sending, LaneView> for All {
    ghost use Rattle.thread_outside.specs.Lanes.{opening, KeepsAll};

    ghost holds = { KeepsAll };

    ghost first = { opening };
}

struct Puts;

impl Outcome<Sending, LaneView> for Puts {
    ghost then = { λ before sending after. after ≡ after_put before sending };
}

struct Takes;

impl Outcome<Sending, LaneView> for Takes {
    ghost then = { λ before sending after. after ≡ after_take before sending };
}

impl Lesson<Sending, LaneView> for Takes {
    ghost use Rattle.std.specs.Prelude.{⊤};

    ghost fact = { λ mine items. ⊤ };
}

// A take that has found nothing at first, and has counted itself.
struct TakesAfterAll;

impl Outcome<Sending, LaneView> for TakesAfterAll {
    ghost then = { λ before sending after. after ≡ took_after_all before sending };
}

impl Lesson<Sending, LaneView> for TakesAfterAll {
    ghost use Rattle.std.specs.Prelude.{◌≡◌, ℕ, List};
    ghost use mathlib.Core.Option.{some};
    ghost use lib.ListN.{get_elem?};
    ghost use Rattle.thread_outside.specs.declared.lane_view.LaneView.{LaneView};
    ghost use Rattle.thread_outside.specs.Lanes.{KeepsAll};

    ghost fact = { λ mine items. (views : List LaneView) × (port : ℕ) × KeepsAll items views × (get_elem? views port ≡ some mine) };
}

struct CountsItself;

impl Split<LaneView> for CountsItself {
    ghost left = { with_empty_take };

    ghost right = { λ _. spent };
}

struct Parts;

impl Split<LaneView> for Parts {
    ghost left = { putter };

    ghost right = { taker };
}

/// The right of one end to put into a lane, or to take from it.
pub(crate) type LanePass = SegPass<Sending, LaneView>;

// What the end that puts holds of a lane: its pass, and the seat by which it leaves.
#[derive(Drop)]
pub(crate) struct Putting {
    pub(crate) pass: LanePass,
    pub(crate) seat: FlagSeat,
}

// What the end that takes holds of a lane: its pass, and the seat by which it finds that the other left.
#[derive(Drop)]
pub(crate) struct Taking {
    pub(crate) pass: LanePass,
    pub(crate) seat: FlagSeat,
}

// What waits for one end, and the flag that is up once the end that puts it there has left. A clause
// sees its name.
pub(crate) struct Lane {
    waiting: RuledSegQueue<Sending, LaneView, All>,
    flag: Flag,
}

impl Model for Lane {
    ghost use Rattle.std.specs.Prelude.{◌≡◌};
    ghost use Rattle.thread_outside.specs.Lanes.{LaneId};

    ghost Value = { LaneId };

    ghost view = { λ l. record {
      queue = l.waiting;
      flag = l.flag.shared.table_id;
    } };

    ghost invariant = { λ l. l.flag.shared.table_id.words ≡ 1 };
}

impl Drop for Lane {
    fn drop(self) {
        let Self { waiting, flag: _ } = self;
        waiting.destroy();
    }
}

impl Lane {
    // An empty lane, which two ends may share, the rights of the end that puts, and those of the end
    // that takes.
    pub(crate) fn open(alloc: Global) -> Result<(Arc<Lane, Global>, Putting, Taking), AllocError>
        ensures queue { IfOk result (λ r. IsSegPassOf r.0.value.queue r.1.pass × IsSegPassOf r.0.value.queue r.2.pass) }
        ensures views { IfOk result (λ r. (r.1.pass.me.view.client ≡ putter opening) × (r.2.pass.me.view.client ≡ taker opening)) }
        ensures flag { IfOk result (λ r. (r.1.seat.table_id ≡ r.0.value.flag) × (r.2.seat.table_id ≡ r.0.value.flag)) }
        ensures seats { IfOk result (λ r. (r.1.seat.me ≡ (leaver whole, [])) × (r.2.seat.me ≡ (finder whole, []))) }
    {
        let (flag, leaves, finds) = flag::open(alloc)?;
        let (waiting, mut puts) = RuledSegQueue::with_rule(alloc)?;
        let takes = waiting.another::<Parts>(&mut puts);
        let lane = Arc::new(alloc, Lane { waiting, flag })?;
        let puts = Putting {
            pass: puts,
            seat: leaves,
        };
        let takes = Taking {
            pass: takes,
            seat: finds,
        };
        Ok((lane, puts, takes))
    }

    // Puts something at the back. It comes back if memory runs out.
    pub(crate) fn put<R: Wait>(
        &self,
        runtime: &R,
        pass: &mut LanePass,
        sending: Sending,
    ) -> Result<(), Sending>
        requires lane { IsSegPassOf self.now.queue pass.old }
        requires puts { pass.old.me.view.client.puts ≡ true }
        ensures lane { IsSegPassOf self.now.queue pass.new }
        ensures put { MatchResult result (λ _. pass.new.me.view.client ≡ after_put pass.old.me.view.client sending) (λ back. (back ≡ sending) × (pass.new.me.view.client ≡ pass.old.me.view.client)) }
    {
        self.waiting.push_as::<Puts, R>(runtime, pass, sending)
    }

    // Takes what waits first. `None` only if nothing waited at one step of the call.
    pub(crate) fn take<R: Wait>(&self, runtime: &R, pass: &mut LanePass) -> Option<Sending>
        requires lane { IsSegPassOf self.now.queue pass.old }
        requires takes { pass.old.me.view.client.takes ≡ true }
        ensures lane { IsSegPassOf self.now.queue pass.new }
        ensures taken { MatchOption result
            ((pass.new.me.view.client ≡ with_empty_take pass.old.me.view.client)
            × WasEmpty pass.new.me.view.client)
            (λ sending. pass.new.me.view.client ≡ after_take pass.old.me.view.client sending) }
    {
        match self.waiting.pop_as::<Takes, R>(runtime, pass) {
            found @ Some(_) => found,
            None => self.count_and_take(runtime, pass),
        }
    }

    // Counts this take as one that finds nothing, and only then looks, so that the step at which the
    // lane was empty is known to be one of this call.
    fn count_and_take<R: Wait>(&self, runtime: &R, pass: &mut LanePass) -> Option<Sending>
        requires lane { IsSegPassOf self.now.queue pass.old }
        requires takes { pass.old.me.view.client.takes ≡ true }
        ensures lane { IsSegPassOf self.now.queue pass.new }
        ensures taken { MatchOption result
            ((pass.new.me.view.client ≡ with_empty_take pass.old.me.view.client)
            × WasEmpty pass.new.me.view.client)
            (λ sending. pass.new.me.view.client ≡ after_take pass.old.me.view.client sending) }
    {
        drop(self.waiting.another::<CountsItself>(pass));
        self.waiting.pop_as::<TakesAfterAll, R>(runtime, pass)
    }

    // Says that nothing more will be put.
    pub(crate) fn leave(&self, leaves: &mut FlagSeat)
        requires flag { leaves.old.table_id ≡ self.now.flag }
        requires leaves { (leaves.old.me.0.puts ≡ true) × (leaves.old.me.0.takes ≡ false) }
        ensures { leaves.new.me ≡ (leaving leaves.old.me.0, leaves.old.me.1) }
    {
        flag::leave(&self.flag, leaves);
    }

    // Whether nothing more will be put, which the end that takes then knows.
    pub(crate) fn is_left(&self, finds: &mut FlagSeat) -> bool
        requires flag { finds.old.table_id ≡ self.now.flag }
        requires finds { (finds.old.me.0.takes ≡ true) × (finds.old.me.0.puts ≡ false) }
        ensures flag { finds.new.table_id ≡ finds.old.table_id }
        ensures found { MatchBool result
            (finds.new.me ≡ (view_of false finds.old.me.0.left true true, finds.old.me.1))
            ((finds.new.me ≡ finds.old.me) × (finds.old.me.0.found ≡ false)) }
    {
        flag::is_up(&self.flag, finds)
    }

    // Whether it may be that nothing more will be put.
    pub(crate) fn may_be_left(&self) -> bool {
        flag::may_be_up(&self.flag)
    }
}
