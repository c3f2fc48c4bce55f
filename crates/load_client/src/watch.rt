//! The watcher of a client of a load.

ghost use Rattle.std.specs.Prelude.{◌≡◌, Ok};
ghost use Rattle.load_client.specs.Watching.{IsWatch, Looks, new_watch, counted, is_drop_due, wants_of, after_want, seat_after};

use crate::name_goal::NameGoal;
use client_cache::Cache;
use client_run::{DriveFault, Driven, Wants, Watch};
use dispatch_types::Dispatch;
use std::alloc::AllocError;
use std::marker::{Brand, Model, PhantomData};
use stop_flag::StopSeat;

/// How many dispatches a client is told before it drops its link.
const DISPATCHES_PER_DROP: u64 = 200;

/// How often a client drops its link.
const MOST_DROPS: u8 = 10;

/// What a watcher begins with. Each run picks it.
pub trait Beginning {
    ghost use Rattle.stop_flag.specs.Flags.{SeatState};
    ghost use Rattle.load_client.specs.declared.name_goal.NameGoal.{NameGoal as AGoal};

    /// Its seat.
    ghost seat: { SeatState };

    /// Its goal.
    ghost goal: { AGoal };
}

impl Beginning for Brand {
    ghost use Rattle.std.specs.Prelude.{[], false};
    ghost use Rattle.stop_flag.specs.Flags.{new_seat};

    ghost seat = { new_seat (record { words = 0; slots = 0; views_name = 0; atom = 0; block = 0; offset = 0; slot_names = [] }) 0 };

    ghost goal = { record { guilds = []; name = [] } };
}

/// The watcher of a client of a load. It stops the client once it finds the stop flag set, ends it once
/// its goal is met, and has it drop its link after each 200 dispatches, ten times.
#[derive(Drop)]
pub struct LoadWatch<B: Beginning> {
    seat: StopSeat,
    goal: NameGoal,
    dispatches: u64,
    drops: u8,
    has_found: bool,
    begun: PhantomData<B>,
}

impl<B: Beginning> Model for LoadWatch<B> {
    ghost use Rattle.load_client.specs.Watching.{WatchState, IsWatch};

    ghost Value = { WatchState };

    ghost view = { λ w. record { seat = w.seat; goal = w.goal; dispatches = w.dispatches; drops = w.drops; has_found = w.has_found } };

    ghost invariant = { λ w. IsWatch B.seat B.goal (record { seat = w.seat; goal = w.goal; dispatches = w.dispatches; drops = w.drops; has_found = w.has_found }) };
}

// Whether a client that was told so many dispatches, and has dropped its link so often, drops it.
fn is_drop_due(dispatches: u64, drops: u8) -> bool
    ensures { result ≡ is_drop_due dispatches drops }
{
    dispatches % DISPATCHES_PER_DROP == 0 && drops < MOST_DROPS
}

impl<B: Beginning> LoadWatch<B> {
    /// A watcher that has not looked yet.
    pub fn new(goal: NameGoal, seat: StopSeat) -> LoadWatch<B>
        requires seat { seat ≡ B.seat }
        requires goal { goal ≡ B.goal }
        ensures { result ≡ new_watch goal seat }
    {
        LoadWatch {
            seat,
            goal,
            dispatches: 0,
            drops: 0,
            has_found: false,
            begun: PhantomData,
        }
    }

    // Looks whether the flag is set.
    fn look(&mut self) -> bool
        ensures { Looks self.old self.new result }
    {
        let is_set = self.seat.is_set();
        if is_set {
            self.has_found = true;
        }
        is_set
    }

    // Counts a dispatch, and says what it wants of a client with this cache.
    fn note(&mut self, cache: &Cache) -> Wants
        ensures wants { result ≡ wants_of (counted self.old) cache.now }
        ensures after { self.new ≡ after_want (counted self.old) result }
    {
        self.dispatches = self.dispatches.saturating_add(1);
        if self.has_found {
            return Wants::Stop;
        }
        if self.goal.is_met(cache) {
            return Wants::Finish;
        }
        if !is_drop_due(self.dispatches, self.drops) {
            return Wants::GoOn;
        }
        self.drops += 1;
        Wants::Reconnect
    }

    /// Gives the seat back, which has set the flag if the client ended by a fault.
    pub fn leave(self, driven: Result<Driven, DriveFault>) -> StopSeat
        ensures seat { result ≡ seat_after driven self.seat }
        ensures same { IsWatch B.seat B.goal self }
    {
        let LoadWatch { mut seat, .. } = self;
        if driven.is_err() {
            seat.set();
        }
        seat
    }
}

impl<B: Beginning> Watch<()> for LoadWatch<B> {
    ghost use Rattle.std.specs.Prelude.{◌≡◌, true, false};
    ghost use Rattle.client_run.specs.Watched.{no_tale};
    ghost use Rattle.load_client.specs.Names.{AllNamed};

    ghost finished = { λ w cache. AllNamed w.goal.guilds w.goal.name cache × (w.has_found ≡ false) };

    ghost stopped = { λ w. w.has_found ≡ true };

    ghost looked = { λ _ _ _. Unit {0} };

    ghost told = { λ _ _. no_tale };

    ghost reconnects = { λ w. w.drops };

    fn is_stopped(&mut self) -> bool
        ensures looks { Looks self.old self.new result }
    {
        self.look()
    }

    fn before_dispatch(&mut self, _number: u64, _dispatch: &Dispatch) -> Result<(), AllocError>
        ensures ok { result ≡ Ok tt }
        ensures same { self.new ≡ self.old }
    {
        Ok(())
    }

    fn after_dispatch(&mut self, cache: &Cache, _out: &mut ()) -> Result<Wants, AllocError>
        ensures exact { result ≡ Ok (wants_of (counted self.old) cache.now) }
        ensures after { self.new ≡ after_want (counted self.old) (wants_of (counted self.old) cache.now) }
    {
        Ok(self.note(cache))
    }
}
