//! How a client that follows a gateway ends.

ghost use Rattle.std.specs.Prelude.{◌≡◌, ◌++◌, ℕ, List, true};
ghost use Rattle.client_follow.specs.Follows.{Says, answer_of, sink_tale};
ghost use Rattle.client_follow.specs.Watching.{IsWritten, Ends, may_write};

use crate::closing::add_end;
use crate::fault::FollowFault;
use crate::writing::write_out;
use client_cache::Cache;
use client_run::{DriveFault, Driven};
use gate_outside::faults::Fault;
use gate_outside::streams::Sink;

// The answer by how a client ended.
fn answer_of(ended: Result<Driven, DriveFault>) -> Result<(), FollowFault>
    ensures { result ≡ answer_of ended }
{
    match ended {
        Ok(Driven::Finished) => Ok(()),
        Ok(Driven::Stopped) => Err(FollowFault::Write),
        Err(DriveFault::Dials) => Err(FollowFault::Dials),
        Err(DriveFault::Out(code)) => Err(FollowFault::Closed { code }),
        Err(DriveFault::BadText) => Err(FollowFault::BadText),
        Err(DriveFault::Memory) => Err(FollowFault::Memory),
    }
}

// Whether something may be written after a client that ended so: not where its sink has failed or memory ran
// out.
fn may_write(ended: Result<Driven, DriveFault>) -> bool
    ensures { result ≡ may_write ended }
{
    !matches!(ended, Ok(Driven::Stopped) | Err(DriveFault::Memory))
}

// Writes what waits here. The sink's fault is the answer only where there would be no other.
fn write_end<K: Sink>(
    answer: Result<(), FollowFault>,
    waiting: &mut Vec<u8>,
    sink: &mut K,
) -> Result<(), FollowFault>
    ensures { IsWritten answer waiting.old.items
        (sink_tale (K.got sink.old) (K.waits sink.old) (K.faults sink.old))
        (sink_tale (K.got sink.new) (K.waits sink.new) (K.faults sink.new)) result }
{
    match write_out(waiting, sink) {
        Ok(()) => answer,
        Err(Fault::Memory) => Err(FollowFault::Memory),
        Err(Fault::Failed) => answer.and(Err(FollowFault::Write)),
    }
}

// Writes what is said at the end after what still waits, and answers.
fn write_said<K: Sink>(
    ended: Result<Driven, DriveFault>,
    cache: &Cache,
    waiting: Vec<u8>,
    sink: &mut K,
) -> Result<(), FollowFault>
    requires { may_write ended ≡ true }
    ensures { (said : List ℕ) × Says cache.now ended said × Ends ended said
        (sink_tale (K.got sink.old) (K.waits sink.old ++ waiting.items) (K.faults sink.old))
        (sink_tale (K.got sink.new) (K.waits sink.new) (K.faults sink.new)) result }
{
    let mut waiting = waiting;
    match add_end(&mut waiting, ended, cache) {
        Ok(()) => write_end(answer_of(ended), &mut waiting, sink),
        Err(_) => Err(FollowFault::Memory),
    }
}

/// Ends a client that has ended so and holds this: writes what is said at the end after what still waits, and
/// answers. Where the sink has failed or memory ran out before, it writes nothing more.
pub fn end<K: Sink>(
    ended: Result<Driven, DriveFault>,
    cache: &Cache,
    waiting: Vec<u8>,
    sink: &mut K,
) -> Result<(), FollowFault>
    ensures { (said : List ℕ) × Says cache.now ended said × Ends ended said
        (sink_tale (K.got sink.old) (K.waits sink.old ++ waiting.items) (K.faults sink.old))
        (sink_tale (K.got sink.new) (K.waits sink.new) (K.faults sink.new)) result }
{
    if may_write(ended) {
        return write_said(ended, cache, waiting, sink);
    }
    answer_of(ended)
}
