//! How a run ends whose parts have ended.

ghost use Rattle.std.specs.Prelude.{◌≡◌, ℕ, List, Bool, None, length};
ghost use Rattle.std.specs.declared.option.Option.{Option};
ghost use Rattle.serve_run.specs.Ends.{Joined};
ghost use Rattle.serve_run.specs.Lines.{worker_lines};
ghost use Rattle.serve_run.specs.Services.{Service};
ghost use Rattle.serve_run.specs.Causes.{AnswersBy};
ghost use Rattle.serve_run.specs.Ended.{MayHave};
ghost use Rattle.serve_run.specs.Serves.{Serves};
ghost use Rattle.serve_run.specs.Writes.{Refuses, Tells};

use crate::fault::ServeFault;
use crate::faults::sooner;
use crate::lines::stop_line;
use crate::settling::sum_up;
use crate::writing::put;
use file_script::ScriptFault;
use gate_ends::Senders;
use gate_outside::streams::Sink;
use gate_parts::Posts;
use snowflake_id::Snowflake;
use std::alloc::Global;
use std::sync::Wait;

// Answers a fault of the parts. For a line that is refused it writes that line's own line.
fn refuse<K: Sink>(alloc: Global, fault: ServeFault, sink: &mut K) -> ServeFault
    ensures { Refuses fault (K.got sink.old) (K.got sink.new) (K.waits sink.old) (K.faults sink.old) (K.faults sink.new) result }
{
    let ServeFault::Line {
        file,
        line,
        fault: wrong,
    } = fault
    else {
        return fault;
    };
    match put(stop_line(alloc, file, line, wrong), sink) {
        Err(ServeFault::Memory) => ServeFault::Memory,
        _ => fault,
    }
}

/// Answers how a run ends whose parts have left this, by the first of their faults and of why the lines of the workers
/// did not all go out. It writes what is written at the end, if all lines of the workers went out.
pub fn answer<R: Wait + Drop, K: Sink>(
    alloc: Global,
    guilds: &[Snowflake],
    posts: Posts<R>,
    senders: Senders<R, ScriptFault>,
    fault: Option<ServeFault>,
    told: Option<ServeFault>,
    sink: &mut K,
) -> Result<(), ServeFault>
    requires { fault ≡ None → (s : Service) × Joined s posts senders.actors.items senders.scripts.items senders.workers.items }
    ensures { (s : Service) (got0 : Option (List ℕ)) (waits0 : List ℕ) (sink0 : ℕ) (started : Bool) → s.guilds ≡ guilds.now
        → (fault ≡ None → Joined s posts senders.actors.items senders.scripts.items senders.workers.items) → MayHave started fault
        → Tells (worker_lines s.port (length s.doors)) got0 (K.got sink.old) waits0 (K.waits sink.old) sink0 (K.faults sink.old) started told
        → Serves s got0 (K.got sink.new) waits0 sink0 (K.faults sink.new) result × AnswersBy fault sink0 (K.faults sink.new) result }
{
    if let Some(told) = told {
        drop(senders);
        drop(posts);
        return Err(sooner(fault, Some(told)).unwrap_or(told));
    }
    match fault {
        Some(fault) => {
            drop(senders);
            drop(posts);
            Err(refuse(alloc, fault, sink))
        }
        None => put(sum_up(alloc, guilds, posts.as_slice(), senders), sink),
    }
}
