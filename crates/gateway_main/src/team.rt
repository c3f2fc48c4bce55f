//! The command over a team that runs each part of a load, or of a run of `serve`, in a thread of its own.

ghost use Rattle.std.specs.Prelude.{◌≡◌};

use crate::fault::GateFault;
use crate::gate::gate;
use gate_outside::doors::Door;
use gate_outside::houses::House;
use gate_outside::spawners::Spawner;
use load_parts::{LoadPart, TeamWork};
use serve_parts::ServePart;
use std::alloc::Global;
use std::sync::Wait;
use std::time;
use thread_outside::serial_spawner::SerialSpawner;

/// How the command ended.
pub struct Ended {
    /// Its exit status.
    pub status: u8,
    /// Why it did not come to its end, if that is known.
    pub fault: Option<GateFault>,
}

/// The command, and what it needs but its teams.
pub struct GateWork<'a, R, H: House> {
    /// Where its threads wait.
    pub rt: R,
    /// Its memory.
    pub alloc: Global,
    /// Its words.
    pub words: &'a [String],
    /// Its house.
    pub house: H,
    /// Where it writes.
    pub sink: H::Out,
    /// No dial of its house has failed.
    pub ghost dry: { (H.tale house).dry_run ≡ 0 },
}

impl<'a, R: Wait + time::Clock + Copy + Drop, H: House + Drop> GateWork<'a, R, H>
where
    H::In: Drop,
    H::Out: Drop,
    H::Gate: Drop,
    H::Time: Drop,
    <H::Gate as Door>::Wire: Drop,
    H::Wire: Drop,
{
    // Does what the words say with these teams.
    fn with_teams<
        S: Spawner<LoadPart<H::Time, R>>,
        T: Spawner<ServePart<H::In, H::Gate, H::Time, R>>,
    >(self, load_team: &mut S, serve_team: &mut T) -> Ended {
        let GateWork {
            rt,
            alloc,
            words,
            mut house,
            mut sink,
        } = self;
        let mut fault = None;
        let status = gate(
            rt, alloc, words, &mut house, &mut sink, load_team, serve_team, &mut fault,
        );
        Ended { status, fault }
    }
}

/// The command over a team for the parts of a load. It is not used for a run of `serve`.
pub struct LoadWork<'a, R, H: House>(pub GateWork<'a, R, H>);

impl<'a, R: Wait + time::Clock + Copy + Drop, H: House + Drop> TeamWork<LoadPart<H::Time, R>>
    for LoadWork<'a, R, H>
where
    H::In: Drop,
    H::Out: Drop,
    H::Gate: Drop,
    H::Time: Drop,
    <H::Gate as Door>::Wire: Drop,
    H::Wire: Drop,
{
    ghost use Rattle.std.specs.Prelude.{⊤};

    type Answer = Ended;

    ghost gives = { λ _ _ _ _ _ _. ⊤ };

    fn work<S: Spawner<LoadPart<H::Time, R>>>(self, team: &mut S) -> Ended {
        let LoadWork(work) = self;
        let mut unused = SerialSpawner::new(Vec::new(work.alloc));
        work.with_teams(team, &mut unused)
    }
}

/// The command over a team for the parts of a run of `serve`. It is not used for a load.
pub struct ServeWork<'a, R, H: House>(pub GateWork<'a, R, H>);

impl<'a, R: Wait + time::Clock + Copy + Drop, H: House + Drop> TeamWork<
    ServePart<H::In, H::Gate, H::Time, R>,
> for ServeWork<'a, R, H>
where
    H::In: Drop,
    H::Out: Drop,
    H::Gate: Drop,
    H::Time: Drop,
    <H::Gate as Door>::Wire: Drop,
    H::Wire: Drop,
{
    ghost use Rattle.std.specs.Prelude.{⊤};

    type Answer = Ended;

    ghost gives = { λ _ _ _ _ _ _. ⊤ };

    fn work<T: Spawner<ServePart<H::In, H::Gate, H::Time, R>>>(self, team: &mut T) -> Ended {
        let ServeWork(work) = self;
        let mut unused = SerialSpawner::new(Vec::new(work.alloc));
        work.with_teams(&mut unused, team)
    }
}
