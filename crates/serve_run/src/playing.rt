//! The parts of a run run, and what they leave is sorted.

ghost use Rattle.std.specs.Prelude.{◌≡◌, ◌≤◌, ◌+◌, ℕ, List, [], length, map, string_bytes};
ghost use Rattle.std.specs.Vec.{vec_capacity};
ghost use Rattle.session_core.specs.declared.bot.Bot.{Bot};
ghost use Rattle.serve_stage.specs.Stages.{AreLent, IsStage};
ghost use Rattle.serve_stage.specs.declared.lent.Lent.{Lent};
ghost use Rattle.serve_run.specs.Services.{Service};
ghost use Rattle.serve_run.specs.StartsAll.{StartsAll};
ghost use Rattle.serve_run.specs.Causes.{ShowsFault};
ghost use Rattle.serve_run.specs.Ended.{EndsSo, MayHave};
ghost use Rattle.serve_run.specs.Lent.{IsStageOf, ReturnsAll};
ghost use Rattle.serve_run.specs.Rooms.{AreRoomy};
ghost use Rattle.serve_run.specs.Writes.{Tells};

use crate::ends::Ends;
use crate::fault::ServeFault;
use crate::faults::first_fault;
use crate::parts::add_parts;
use crate::rooms::Rooms;
use crate::setting::Ready;
use crate::telling::tell_workers;
use gate_outside::clocks::Clock;
use gate_outside::doors::Door;
use gate_outside::spawners::Spawner;
use gate_outside::streams::{Sink, Source};
use gate_parts::Posts;
use run_stage::{Begun, begin_all};
use serve_parts::ServePart;
use serve_stage::Stage;
use std::sync::Wait;
use std::time;
use team_run::finish_all;

/// What the parts of a run leave that have ended.
pub struct Played<S, D, C, R: Wait + Drop> {
    /// The posts of both actors.
    pub posts: Posts<R>,
    /// What each kind of parts has left.
    pub ends: Ends<S, D, C, R>,
    /// Whether all parts were started.
    pub started: bool,
    /// The fault of the parts that goes first, if there is one.
    pub fault: Option<ServeFault>,
    /// Why the lines of the workers did not all go out, if they did not.
    pub told: Option<ServeFault>,
}

/// Runs all parts by the team, tells where the workers listen when all were started, and sorts what they leave. It
/// does not allocate: the caller has made the room.
pub fn play<
    S: Source + Drop,
    D: Door + Drop,
    C: Clock + Drop,
    R: Wait + time::Clock + Copy + Drop,
    T: Spawner<ServePart<S, D, C, R>>,
    K: Sink,
>(team: &mut T, sink: &mut K, ready: Ready<S, D, C, R>, started: Vec<T::Held>) -> Played<S, D, C, R>
where
    D::Wire: Drop,
    requires stage { (port : ℕ) × (bots : List Bot) × (guilds : List ℕ) × (lent : Lent S D C) × AreLent lent × IsStage port bots guilds lent ready.stage }
    requires rooms { AreRoomy 18 ready.rooms }
    requires started { (started.items ≡ []) × (18 ≤ vec_capacity started) }
    ensures posts { result.posts ≡ ready.stage.posts }
    ensures tells { Tells (string_bytes ready.lines) (K.got sink.old) (K.got sink.new) (K.waits sink.old) (K.waits sink.new) (K.faults sink.old) (K.faults sink.new) result.started result.told }
    ensures starts { StartsAll (length ready.stage.actors.items + (length ready.stage.scripts.items + length ready.stage.workers.items)) (T.starts team.old) (T.starts team.new) (T.faults team.old) (T.faults team.new) result.started }
    ensures returned { (port : ℕ) (bots : List Bot) (guilds : List ℕ) (lent : Lent S D C) → AreLent lent → IsStage port bots guilds lent ready.stage → ReturnsAll lent result.ends.returned }
    ensures may { MayHave result.started result.fault }
    ensures ends { (s : Service) → IsStageOf S.left S.faults D.tale D.faults C.tale s ready.stage
        → EndsSo s ready.stage.posts result.started result.ends.actors.items result.ends.scripts.items result.ends.workers.items result.fault }
    ensures shows { (s : Service) → IsStageOf S.left S.faults D.tale D.faults C.tale s ready.stage
        → ShowsFault (map S.faults result.ends.returned.sources.items) (map D.faults result.ends.returned.doors.items) result.fault }
{
    let Ready {
        stage,
        rooms,
        lines,
    } = ready;
    let Stage {
        posts,
        word,
        keeper,
        mut seat,
        actors,
        scripts,
        workers,
    } = stage;
    let Rooms {
        mut parts,
        back,
        dones,
        mut ends,
    } = rooms;
    drop(keeper);
    add_parts(&mut parts, actors, scripts, workers);
    let Begun { started, back } = begin_all(team, parts, started, &word, &mut seat, back);
    let all = back.is_empty();
    let told = tell_workers(all, lines.as_str(), sink);
    let dones = finish_all(team, started, dones);
    ends.add_back(back);
    ends.add_all(dones);
    let fault = first_fault(all, &ends.actors, &ends.scripts, &ends.workers);
    Played {
        posts,
        ends,
        started: all,
        fault,
        told,
    }
}
