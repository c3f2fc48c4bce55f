//! The parts of a load run, and what they leave is sorted.

ghost use Rattle.std.specs.Prelude.{◌≡◌, ◌≤◌, ℕ, List, [], Some, None, length};
ghost use Rattle.std.specs.Vec.{vec_capacity};
ghost use Rattle.team_run.specs.Teams.{many_more};
ghost use Rattle.load_stage.specs.Stages.{IsStage};
ghost use Rattle.load_run.specs.Causes.{LoadCause};
ghost use Rattle.load_run.specs.Joined.{HasJoined};
ghost use Rattle.load_run.specs.Sorted.{AreRoomy};
ghost use Rattle.load_run.specs.declared.fault.LoadFault.{LoadFault as AFault};

use crate::fault::LoadFault;
use crate::faults::first_fault;
use crate::parts::add_parts;
use crate::rooms::Rooms;
use crate::running::{Ran, run_parts};
use crate::sorting::Ends;
use gate_outside::clocks::Clock;
use gate_outside::spawners::Spawner;
use gate_parts::Posts;
use load_parts::LoadPart;
use load_stage::Stage;
use std::sync::Wait;
use std::time;

/// What a load leaves whose parts have ended: its posts, what each kind of parts has left, and the fault that
/// it answers, if there is one.
pub struct Played<C: Drop, R: Wait + Copy + Drop> {
    pub posts: Posts<R>,
    pub ends: Ends<C, R>,
    pub fault: Option<LoadFault>,
}

/// Runs all parts by the team, and sorts what they leave. It does not allocate: the caller has made the room.
pub fn play<C: Clock + Drop, R: Wait + time::Clock + Copy + Drop, S: Spawner<LoadPart<C, R>>>(
    team: &mut S,
    stage: Stage<C, R>,
    rooms: Rooms<C, R>,
    started: Vec<S::Held>,
) -> Played<C, R>
    requires stage { (seed : ℕ) × ((clocks : List C) × IsStage seed clocks stage) }
    requires rooms { AreRoomy 21 rooms }
    requires started { (started.items ≡ []) × (21 ≤ vec_capacity started) }
    ensures posts { result.posts ≡ stage.posts }
    ensures clocks { length result.ends.clocks.items ≡ 15 }
    ensures ended { (seed : ℕ) (clocks : List C) → IsStage seed clocks stage → result.fault ≡ None → HasJoined seed stage.posts result.ends }
    ensures cause { (seed : ℕ) (clocks : List C) → IsStage seed clocks stage → (f : AFault) → result.fault ≡ Some f → (sink : ℕ) → LoadCause seed (S.faults team.old) (S.faults team.new) sink sink f }
    ensures whole { result.fault ≡ None → (S.faults team.new ≡ S.faults team.old) × ((S.starts team.new).asked ≡ many_more 21 (S.starts team.old).asked) }
    ensures late { (S.starts team.old).finished ≡ 0 → (S.starts team.new).late ≡ (S.starts team.old).late }
{
    let Stage {
        posts,
        word,
        keeper,
        seat,
        actors,
        scripts,
        workers,
        clients,
    } = stage;
    let Rooms {
        mut parts,
        back,
        dones,
        mut ends,
    } = rooms;
    drop(keeper);
    add_parts(&mut parts, actors, scripts, workers, clients);
    let Ran { dones, back } = run_parts(team, parts, started, dones, &word, seat, back);
    let fault = first_fault(back.is_empty(), &dones);
    ends.add_back(back);
    ends.add_all(dones);
    Played { posts, ends, fault }
}
