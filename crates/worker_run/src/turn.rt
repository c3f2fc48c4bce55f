//! A turn: a look at each hub, the time, a new connection, and what comes over each.

ghost use Rattle.std.specs.Prelude.{◌≡◌, ◌<◌, [], true, OnOk, length, slice_get};
ghost use Rattle.gate_outside.specs.Clocks.{ClockTale};
ghost use Rattle.open_links.specs.Links.{Holding};
ghost use Rattle.open_links.specs.Calls.{IsSameDoor, Says};
ghost use Rattle.guild_places.specs.Places.{guilds_of};
ghost use Rattle.worker_run.specs.Moves.{IsReady, CountsLinks, GoesOrStops, AreLooks, AreFirstLooks, IsLookOf, IsLookOfOrNone, OpensOne, IsHeard, AreHeard, IsOneTick, IsOneTurn, IsOneTurnCut, AreAllTurns, AreAllTurnsCut, now};
ghost use Rattle.worker_run.specs.Faults.{DoorFails};

use crate::fault::WorkFault;
use crate::looks::Seen;
use crate::serving::Serving;
use edit_post::Post;
use gate_outside::clocks::Clock;
use gate_outside::doors::Door;
use gate_outside::links::Link;
use gate_outside::notes::Notes;
use open_links::{Heard, Word};
use std::sync::Wait;
use worker_core::Input;

/// Pauses, unless something came.
pub fn pause_unless<C: Clock>(clock: &mut C, came: bool)
    ensures { C.tale clock.new ≡ C.tale clock.old }
{
    if !came {
        clock.pause();
    }
}

impl<L: Link + Drop> Serving<L> {
    // Looks at one hub. Says whether there were entries.
    fn look<D: Door<Wire = L>, J: Notes<Input>, R: Wait + Drop>(
        &mut self,
        door: &mut D,
        notes: &mut J,
        posts: &[Post<R>],
        place: usize,
    ) -> Result<bool, WorkFault>
        requires place { place < length self.old.readers }
        requires ready { IsReady posts.now self.old (D.tale door.old) }
        ensures ready { IsReady posts.now self.new (D.tale door.new) }
        ensures count { CountsLinks self.old self.new (D.tale door.old) (D.tale door.new) }
        ensures cause { DoorFails (D.faults door.old) (D.faults door.new) result }
        ensures goes { (c : ClockTale) → GoesOrStops (IsLookOf (slice_get (guilds_of self.old.readers) place)) (IsLookOfOrNone (slice_get (guilds_of self.old.readers) place)) result
            (now self.old (D.tale door.old).returned (J.noted notes.old) c) (now self.new (D.tale door.new).returned (J.noted notes.new) c) }
    {
        let Seen {
            input,
            some,
            quit,
            ..
        } = self.see(place)?;
        self.handle(door, notes, posts, input)?;
        if quit {
            return Err(WorkFault::Quit);
        }
        Ok(some)
    }

    // Looks at each hub in order. Says whether there were entries.
    fn look_at_each<D: Door<Wire = L>, J: Notes<Input>, R: Wait + Drop>(
        &mut self,
        door: &mut D,
        notes: &mut J,
        posts: &[Post<R>],
    ) -> Result<bool, WorkFault>
        requires ready { IsReady posts.now self.old (D.tale door.old) }
        ensures ready { IsReady posts.now self.new (D.tale door.new) }
        ensures count { CountsLinks self.old self.new (D.tale door.old) (D.tale door.new) }
        ensures cause { DoorFails (D.faults door.old) (D.faults door.new) result }
        ensures goes { (c : ClockTale) → GoesOrStops (AreLooks (guilds_of self.old.readers)) (AreFirstLooks (guilds_of self.old.readers)) result
            (now self.old (D.tale door.old).returned (J.noted notes.old) c) (now self.new (D.tale door.new).returned (J.noted notes.new) c) }
    {
        let mut some = false;
        for place in 0..self.hub_count() {
            let looked = self.look(door, notes, posts, place)?;
            some |= looked;
        }
        Ok(some)
    }

    // The worker takes the clock's time.
    fn tick<D: Door<Wire = L>, C: Clock, J: Notes<Input>, R: Wait + Drop>(
        &mut self,
        door: &mut D,
        clock: &mut C,
        notes: &mut J,
        posts: &[Post<R>],
    ) -> Result<(), WorkFault>
        requires ready { IsReady posts.now self.old (D.tale door.old) }
        ensures ready { IsReady posts.now self.new (D.tale door.new) }
        ensures count { CountsLinks self.old self.new (D.tale door.old) (D.tale door.new) }
        ensures cause { DoorFails (D.faults door.old) (D.faults door.new) result }
        ensures goes { GoesOrStops IsOneTick IsOneTick result
            (now self.old (D.tale door.old).returned (J.noted notes.old) (C.tale clock.old)) (now self.new (D.tale door.new).returned (J.noted notes.new) (C.tale clock.new)) }
    {
        let now = clock.now_ms();
        self.handle(door, notes, posts, Input::Tick(now))
    }

    // Asks the door for a new connection, until it has ended. Says whether there is one.
    fn let_in<D: Door<Wire = L>, J: Notes<Input>, R: Wait + Drop>(
        &mut self,
        door: &mut D,
        notes: &mut J,
        posts: &[Post<R>],
    ) -> Result<bool, WorkFault>
        requires ready { IsReady posts.now self.old (D.tale door.old) }
        ensures ready { IsReady posts.now self.new (D.tale door.new) }
        ensures count { CountsLinks self.old self.new (D.tale door.old) (D.tale door.new) }
        ensures cause { DoorFails (D.faults door.old) (D.faults door.new) result }
        ensures goes { (c : ClockTale) → GoesOrStops OpensOne OpensOne result
            (now self.old (D.tale door.old).returned (J.noted notes.old) c) (now self.new (D.tale door.new).returned (J.noted notes.new) c) }
    {
        match self.let_next(door)? {
            Some(conn) => {
                self.handle(door, notes, posts, Input::Open(conn))?;
                Ok(true)
            }
            None => Ok(false),
        }
    }

    // The worker takes what a link has said. Says whether that was a text or a close.
    fn hear<D: Door<Wire = L>, J: Notes<Input>, R: Wait + Drop>(
        &mut self,
        door: &mut D,
        notes: &mut J,
        posts: &[Post<R>],
        heard: Heard,
    ) -> Result<bool, WorkFault>
        requires ready { IsReady posts.now self.old (D.tale door.old) }
        ensures ready { IsReady posts.now self.new (D.tale door.new) }
        ensures door { IsSameDoor (D.tale door.old) (D.tale door.new) }
        ensures count { self.new.links.count ≡ self.old.links.count }
        ensures cause { DoorFails (D.faults door.old) (D.faults door.new) result }
        ensures goes { (c : ClockTale) (before : Holding) → Says heard.conn heard.word before self.old.links → GoesOrStops (IsHeard heard.conn) (IsHeard heard.conn) result
            (now (record self.old { links = before }) (D.tale door.old).returned (J.noted notes.old) c) (now self.new (D.tale door.new).returned (J.noted notes.new) c) }
    {
        let Heard { conn, word } = heard;
        match word {
            Word::Text(text) => {
                self.handle(door, notes, posts, Input::Frame(conn, text))?;
                Ok(true)
            }
            Word::Closed(code) => {
                self.end_by(door, notes, posts, Input::Closed(conn, code), conn)?;
                Ok(true)
            }
            Word::Nothing => Ok(false),
            Word::Lost => {
                self.lose_failed(door, notes, posts)?;
                Ok(false)
            }
        }
    }

    // Asks each open link once, in order of arrival. Says whether a text or a close came.
    fn hear_each<D: Door<Wire = L>, J: Notes<Input>, R: Wait + Drop>(
        &mut self,
        door: &mut D,
        notes: &mut J,
        posts: &[Post<R>],
    ) -> Result<bool, WorkFault>
        requires ready { IsReady posts.now self.old (D.tale door.old) }
        ensures ready { IsReady posts.now self.new (D.tale door.new) }
        ensures count { CountsLinks self.old self.new (D.tale door.old) (D.tale door.new) }
        ensures cause { DoorFails (D.faults door.old) (D.faults door.new) result }
        ensures goes { (c : ClockTale) → GoesOrStops AreHeard AreHeard result
            (now self.old (D.tale door.old).returned (J.noted notes.old) c) (now self.new (D.tale door.new).returned (J.noted notes.new) c) }
    {
        let mut some = false;
        let mut from = 0;
        let count = self.link_count();
        while from < count {
            let Some(heard) = self.ask_from(from)? else {
                return Ok(some);
            };
            from = heard.conn + 1;
            let came = self.hear(door, notes, posts, heard)?;
            some |= came;
        }
        Ok(some)
    }

    // One turn. Says whether anything came.
    fn turn<D: Door<Wire = L>, C: Clock, J: Notes<Input>, R: Wait + Drop>(
        &mut self,
        door: &mut D,
        clock: &mut C,
        notes: &mut J,
        posts: &[Post<R>],
    ) -> Result<bool, WorkFault>
        requires ready { IsReady posts.now self.old (D.tale door.old) }
        ensures ready { IsReady posts.now self.new (D.tale door.new) }
        ensures count { CountsLinks self.old self.new (D.tale door.old) (D.tale door.new) }
        ensures cause { DoorFails (D.faults door.old) (D.faults door.new) result }
        ensures goes { GoesOrStops (IsOneTurn (guilds_of self.old.readers)) (IsOneTurnCut (guilds_of self.old.readers)) result
            (now self.old (D.tale door.old).returned (J.noted notes.old) (C.tale clock.old)) (now self.new (D.tale door.new).returned (J.noted notes.new) (C.tale clock.new)) }
    {
        let looked = self.look_at_each(door, notes, posts)?;
        self.tick(door, clock, notes, posts)?;
        let opened = self.let_in(door, notes, posts)?;
        let heard = self.hear_each(door, notes, posts)?;
        Ok(looked | opened | heard)
    }

    /// Takes turns until the door has ended and no link is open. It pauses after a turn in which nothing
    /// came.
    pub fn serve<D: Door<Wire = L>, C: Clock, J: Notes<Input>, R: Wait + Drop>(
        &mut self,
        rt: &R,
        door: &mut D,
        clock: &mut C,
        notes: &mut J,
        posts: &[Post<R>],
    ) -> Result<(), WorkFault>
        requires ready { IsReady posts.now self.old (D.tale door.old) }
        ensures ready { IsReady posts.now self.new (D.tale door.new) }
        ensures count { CountsLinks self.old self.new (D.tale door.old) (D.tale door.new) }
        ensures cause { DoorFails (D.faults door.old) (D.faults door.new) result }
        ensures over { OnOk result ((self.new.ended ≡ true) × (self.new.links.links ≡ [])) }
        ensures goes { GoesOrStops (AreAllTurns (guilds_of self.old.readers)) (AreAllTurnsCut (guilds_of self.old.readers)) result
            (now self.old (D.tale door.old).returned (J.noted notes.old) (C.tale clock.old)) (now self.new (D.tale door.new).returned (J.noted notes.new) (C.tale clock.new)) }
    {
        for _ in rt.forever() {
            let some = self.turn(door, clock, notes, posts)?;
            if self.is_over() {
                return Ok(());
            }
            pause_unless(clock, some);
        }
        unreachable!()
    }
}
