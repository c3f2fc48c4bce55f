//! A load, from its seed to its summary.

ghost use Rattle.std.specs.Prelude.{◌≡◌, ℕ, length, None, Some, Err};
ghost use Rattle.load_run.specs.Causes.{Loads, HasLoadCause, StartsParts};
ghost use Rattle.load_run.specs.Joined.{Joined, ClientsJoined, HasJoined};
ghost use Rattle.load_run.specs.declared.fault.LoadFault.{LoadFault as AFault};

use crate::fault::LoadFault;
use crate::playing::{Played, play};
use crate::rooms::PARTS;
use crate::setting::{Ready, set_up};
use crate::sorting::Ends;
use crate::summing::sum_up;
use edit_post::SendRefused;
use gate_ends::{Senders, write_out};
use gate_outside::clocks::Clock;
use gate_outside::faults::Fault;
use gate_outside::spawners::Spawner;
use gate_outside::streams::Sink;
use gate_parts::Posts;
use load_client::EndedClient;
use load_parts::LoadPart;
use std::alloc::Global;
use std::sync::Wait;
use std::time;

// The fault of a sink, as a fault of a load.
impl From<Fault> for LoadFault {
    ghost use Rattle.std.specs.Prelude.{◌≡◌};
    ghost use Rattle.load_run.specs.Faults.{by_sink};

    ghost from_gives = { λ f e. e ≡ by_sink f };

    fn from(fault: Fault) -> LoadFault {
        match fault {
            Fault::Failed => LoadFault::Write,
            Fault::Memory => LoadFault::Memory,
        }
    }
}

// Sums up what the parts have left, and writes it.
fn finish<R: Wait + Copy + Drop, K: Sink>(
    alloc: Global,
    seed: u64,
    posts: Posts<R>,
    senders: Senders<R, SendRefused>,
    clients: Vec<EndedClient>,
    sink: &mut K,
) -> Result<(), LoadFault>
    requires senders { Joined seed posts senders.actors.items senders.scripts.items senders.workers.items }
    requires clients { ClientsJoined clients.items }
    ensures loads { Loads seed (K.got sink.old) (K.got sink.new) (K.waits sink.old) result }
    ensures cause { (team : ℕ) → HasLoadCause seed team team (K.faults sink.old) (K.faults sink.new) result }
{
    let text = sum_up(alloc, seed, posts.as_slice(), senders, clients)?;
    write_out(sink, text.as_str())?;
    Ok(())
}

// The clocks of a load whose parts have ended so, and what the load answers: the fault of its parts, or what
// comes of the summary.
fn answer<C: Clock + Drop, R: Wait + Copy + Drop, K: Sink>(
    alloc: Global,
    seed: u64,
    played: Played<C, R>,
    sink: &mut K,
) -> (Vec<C>, Result<(), LoadFault>)
    requires { played.fault ≡ None → HasJoined seed played.posts played.ends }
    ensures clocks { result.0 ≡ played.ends.clocks }
    ensures loads { Loads seed (K.got sink.old) (K.got sink.new) (K.waits sink.old) result.1 }
    ensures whole { played.fault ≡ None → (team : ℕ) → HasLoadCause seed team team (K.faults sink.old) (K.faults sink.new) result.1 }
    ensures fault { (f : AFault) → played.fault ≡ Some f → (result.1 ≡ Err f) × (K.faults sink.new ≡ K.faults sink.old) }
{
    let Played { posts, ends, fault } = played;
    let Ends {
        actors,
        scripts,
        workers,
        clients,
        clocks,
    } = ends;
    let senders = Senders {
        actors,
        scripts,
        workers,
    };
    match fault {
        Some(fault) => {
            drop(senders);
            drop(clients);
            drop(posts);
            (clocks, Err(fault))
        }
        None => (clocks, finish(alloc, seed, posts, senders, clients, sink)),
    }
}

/// Runs a load with this seed: four scripts, two actors, three workers and twelve clients at once, each started
/// by the team, over doors in memory. When all have ended it writes the summary. It gives the clocks back.
///
/// # Errors
/// That of several which comes first in the order of `LoadFault`. Unless the sink failed, or memory ran out
/// while the summary was written, nothing was written.
pub fn load<
    C: Clock + Drop,
    R: Wait + time::Clock + Copy + Drop,
    S: Spawner<LoadPart<C, R>>,
    K: Sink,
>(
    rt: R,
    alloc: Global,
    seed: u64,
    clocks: Vec<C>,
    team: &mut S,
    sink: &mut K,
) -> (Vec<C>, Result<(), LoadFault>)
    requires { length clocks.items ≡ 15 }
    ensures clocks { length result.0.items ≡ 15 }
    ensures loads { Loads seed (K.got sink.old) (K.got sink.new) (K.waits sink.old) result.1 }
    ensures causes { HasLoadCause seed (S.faults team.old) (S.faults team.new) (K.faults sink.old) (K.faults sink.new) result.1 }
    ensures starts { StartsParts (S.starts team.old) (S.starts team.new) result.1 }
{
    let Ok(started) = Vec::<S::Held>::with_capacity(alloc, PARTS) else {
        return (clocks, Err(LoadFault::Memory));
    };
    let Ready { stage, rooms } = match set_up(rt, alloc, seed, clocks) {
        Ok(ready) => ready,
        Err(clocks) => {
            started.destroy_empty();
            return (clocks, Err(LoadFault::Memory));
        }
    };
    let played = play(team, stage, rooms, started);
    answer(alloc, seed, played, sink)
}
