//! The turns after the last connection: a look at each hub, and the time, until every log has its seal.

ghost use Rattle.std.specs.Prelude.{◌≡◌, ◌<◌, ℕ, Option, List, [], true, MatchResult, All, IfOk, OnOk, IfSome, length, slice_get};
ghost use Rattle.gate_outside.specs.Clocks.{ClockTale};
ghost use Rattle.gate_outside.specs.Links.{ReturnedLink};
ghost use Rattle.worker_run.specs.Hubs.{IsReader, HasSeenAll};
ghost use Rattle.guild_places.specs.Places.{AreDistinct, guilds_of};
ghost use Rattle.worker_run.specs.Moves.{GoesOrStops, AreLooks, AreFirstLooks, IsLookOf, IsLookOfOrNone, IsOneTurn, IsOneTurnCut, AreAllTurns, AreAllTurnsCut, now};
ghost use Rattle.worker_run.specs.Faults.{DoorFails};
ghost use Rattle.world_law.specs.Inputs.{Input as ModelInput};
ghost use Rattle.worker_core.specs.Outputs.{IsGiven};
ghost use Rattle.worker_run.specs.Histories.{History};
ghost use Rattle.worker_run.specs.Stopping.{TakesNot};
ghost use Rattle.worker_run.specs.Running.{IsSilent, TakesQuietly, Quietly};

use crate::fault::WorkFault;
use crate::looks::Seen;
use crate::serving::Serving;
use crate::turn::pause_unless;
use gate_outside::clocks::Clock;
use gate_outside::links::Link;
use gate_outside::notes::Notes;
use std::sync::Wait;
use worker_core::Input;

// What was seen in a turn.
#[derive(Clone, Copy)]
struct Looked {
    // Whether there were entries.
    some: bool,
    // Whether each log was seen to its seal.
    sealed: bool,
}

impl<L: Link + Drop> Serving<L> {
    // The worker takes an input that comes over no connection. Nobody is there to whom its outputs would go.
    fn take_quietly<J: Notes<Input>>(
        &mut self,
        notes: &mut J,
        input: Input,
    ) -> Result<(), WorkFault>
        requires links { self.old.links.links ≡ [] }
        ensures same { self.new ≡ record self.old { worker = self.new.worker } }
        ensures takes { (i : ModelInput) → IsGiven input i → IsSilent i → MatchResult result
            (λ _. (h : History) × TakesQuietly i h self.old.worker self.new.worker (J.noted notes.old) (J.noted notes.new))
            (TakesNot i self.old.worker (J.noted notes.old) (J.noted notes.new)) }
    {
        let outputs = self.take(notes, input)?;
        drop(outputs);
        Ok(())
    }

    // Looks at one hub. Nobody is there to whom the outputs would go.
    fn look_quietly<J: Notes<Input>>(
        &mut self,
        notes: &mut J,
        place: usize,
    ) -> Result<Looked, WorkFault>
        requires place { place < length self.old.readers }
        requires readers { All IsReader self.old.readers }
        requires distinct { AreDistinct (guilds_of self.old.readers) }
        requires links { self.old.links.links ≡ [] }
        ensures readers { All IsReader self.new.readers }
        ensures same { self.new ≡ record self.old { worker = self.new.worker; readers = self.new.readers } }
        ensures sealed { IfOk result (λ looked. looked.sealed ≡ true → IfSome (slice_get self.new.readers place) HasSeenAll) }
        ensures cause { (faults : ℕ) → DoorFails faults faults result }
        ensures goes { (r : Option (List ReturnedLink)) (c : ClockTale) → GoesOrStops (Quietly (IsLookOf (slice_get (guilds_of self.old.readers) place))) (Quietly (IsLookOfOrNone (slice_get (guilds_of self.old.readers) place))) result
            (now self.old r (J.noted notes.old) c) (now self.new r (J.noted notes.new) c) }
    {
        let Seen {
            input,
            some,
            sealed,
            quit,
        } = self.see(place)?;
        self.take_quietly(notes, input)?;
        if quit {
            return Err(WorkFault::Quit);
        }
        Ok(Looked { some, sealed })
    }

    // Looks at each hub in order.
    fn look_quietly_at_each<J: Notes<Input>>(&mut self, notes: &mut J) -> Result<Looked, WorkFault>
        requires readers { All IsReader self.old.readers }
        requires distinct { AreDistinct (guilds_of self.old.readers) }
        requires links { self.old.links.links ≡ [] }
        ensures readers { All IsReader self.new.readers }
        ensures same { self.new ≡ record self.old { worker = self.new.worker; readers = self.new.readers } }
        ensures sealed { IfOk result (λ looked. looked.sealed ≡ true → All HasSeenAll self.new.readers) }
        ensures cause { (faults : ℕ) → DoorFails faults faults result }
        ensures goes { (r : Option (List ReturnedLink)) (c : ClockTale) → GoesOrStops (Quietly (AreLooks (guilds_of self.old.readers))) (Quietly (AreFirstLooks (guilds_of self.old.readers))) result
            (now self.old r (J.noted notes.old) c) (now self.new r (J.noted notes.new) c) }
    {
        let mut some = false;
        let mut sealed = true;
        for place in 0..self.hub_count() {
            let looked = self.look_quietly(notes, place)?;
            some |= looked.some;
            sealed &= looked.sealed;
        }
        Ok(Looked { some, sealed })
    }

    // One turn.
    fn turn_quietly<C: Clock, J: Notes<Input>>(
        &mut self,
        clock: &mut C,
        notes: &mut J,
    ) -> Result<Looked, WorkFault>
        requires readers { All IsReader self.old.readers }
        requires distinct { AreDistinct (guilds_of self.old.readers) }
        requires links { self.old.links.links ≡ [] }
        ensures readers { All IsReader self.new.readers }
        ensures same { self.new ≡ record self.old { worker = self.new.worker; readers = self.new.readers } }
        ensures sealed { IfOk result (λ looked. looked.sealed ≡ true → All HasSeenAll self.new.readers) }
        ensures cause { (faults : ℕ) → DoorFails faults faults result }
        ensures goes { (r : Option (List ReturnedLink)) → GoesOrStops (Quietly (IsOneTurn (guilds_of self.old.readers))) (Quietly (IsOneTurnCut (guilds_of self.old.readers))) result
            (now self.old r (J.noted notes.old) (C.tale clock.old)) (now self.new r (J.noted notes.new) (C.tale clock.new)) }
    {
        let looked = self.look_quietly_at_each(notes)?;
        let now = clock.now_ms();
        self.take_quietly(notes, Input::Tick(now))?;
        Ok(looked)
    }

    /// Goes on looking until every log has its seal. It pauses after a turn in which nothing came.
    pub fn drain<C: Clock, J: Notes<Input>, R: Wait>(
        &mut self,
        rt: &R,
        clock: &mut C,
        notes: &mut J,
    ) -> Result<(), WorkFault>
        requires readers { All IsReader self.old.readers }
        requires distinct { AreDistinct (guilds_of self.old.readers) }
        requires links { self.old.links.links ≡ [] }
        ensures readers { All IsReader self.new.readers }
        ensures same { self.new ≡ record self.old { worker = self.new.worker; readers = self.new.readers } }
        ensures sealed { OnOk result (All HasSeenAll self.new.readers) }
        ensures cause { (faults : ℕ) → DoorFails faults faults result }
        ensures goes { (r : Option (List ReturnedLink)) → GoesOrStops (Quietly (AreAllTurns (guilds_of self.old.readers))) (Quietly (AreAllTurnsCut (guilds_of self.old.readers))) result
            (now self.old r (J.noted notes.old) (C.tale clock.old)) (now self.new r (J.noted notes.new) (C.tale clock.new)) }
    {
        for _ in rt.forever() {
            let looked = self.turn_quietly(clock, notes)?;
            if looked.sealed {
                return Ok(());
            }
            pause_unless(clock, looked.some);
        }
        unreachable!()
    }
}
