//! Turns on a link.

ghost use Rattle.std.specs.Prelude.{◌≡◌, ◌++◌, ◌+◌, [], true, false, List};
ghost use Rattle.client_run.specs.Histories.{Told, StepsAll, events};
ghost use Rattle.client_run.specs.Drives.{seen};
ghost use Rattle.client_run.specs.Turns.{Meets, Moves, Turns, Visits, Beats, IsAsked, TellsPart, TellsEnd, dropped_part, dropped_end, may_hear};

use crate::acting::act_on;
use crate::ending::Ending;
use crate::fault::DriveFault;
use crate::hearing::hear;
use crate::losing::lose;
use crate::watch::Watch;
use crate::wire::Wire;
use client_session::Client;
use gate_outside::clocks::Clock;
use gate_outside::faults::Fault;
use gate_outside::incoming::Incoming;
use gate_outside::links::Link;
use std::alloc::Global;
use std::sync::Wait;

// Sends a heartbeat, if one is due.
fn beat<L: Link + Drop>(client: &mut Client, wire: &mut Wire<L>, now: u64) -> Result<(), Fault>
    ensures { (before : List Told) → Meets before [] wire.old →
        (ts : List Told) × (StepsAll client.old ts client.new × (IsAsked now ts result × Beats (before ++ ts) result wire.new)) }
{
    match client.next(now) {
        Ok(Some(act)) => act_on(wire, &act),
        Ok(None) => Ok(()),
        Err(_) => Err(Fault::Memory),
    }
}

// The client hears what its link gives. Where nothing waits, the clock pauses.
fn listen<L: Link + Drop, C: Clock, K, W: Watch<K>>(
    alloc: Global,
    client: &mut Client,
    wire: &mut Wire<L>,
    clock: &mut C,
    watch: &mut W,
    out: &mut K,
    now: u64,
) -> Result<Option<Ending>, DriveFault>
    ensures clock { C.tale clock.new ≡ C.tale clock.old }
    ensures moves { (before : List Told) → may_hear false (events before) ≡ true → Meets before [] wire.old → Moves now before [] client.old client.new (W.told watch.old out.old) (W.told watch.new out.new) result wire.new }
    ensures tells { TellsPart (W.finished watch.new client.new.kept) (W.stopped watch.new) result }
    ensures counts { W.reconnects watch.new ≡ W.reconnects watch.old + dropped_part result }
{
    match wire.recv() {
        Ok(Incoming::Text(text)) => hear(alloc, client, wire, watch, out, text.as_str(), now),
        Ok(Incoming::Closed(code)) => lose(client, Some(code)),
        Ok(Incoming::NotYet) => {
            clock.pause();
            Ok(None)
        }
        Err(Fault::Failed) => lose(client, None),
        Err(Fault::Memory) => Err(DriveFault::Memory),
    }
}

// One turn: a heartbeat if one is due, then what the link gives.
fn turn<L: Link + Drop, C: Clock, K, W: Watch<K>>(
    alloc: Global,
    client: &mut Client,
    wire: &mut Wire<L>,
    clock: &mut C,
    watch: &mut W,
    out: &mut K,
) -> Result<Option<Ending>, DriveFault>
    ensures turns { (before : List Told) → Meets before [] wire.old → Turns before client.old client.new (seen (C.tale clock.old) (W.told watch.old out.old)) (seen (C.tale clock.new) (W.told watch.new out.new)) result wire.new }
    ensures tells { TellsPart (W.finished watch.new client.new.kept) (W.stopped watch.new) result }
    ensures counts { W.reconnects watch.new ≡ W.reconnects watch.old + dropped_part result }
{
    let now = clock.now_ms();
    match beat(client, wire, now) {
        Ok(()) => listen(alloc, client, wire, clock, watch, out, now),
        Err(Fault::Failed) => lose(client, None),
        Err(Fault::Memory) => Err(DriveFault::Memory),
    }
}

/// Takes turns until the connection ends.
pub fn visit<L: Link + Drop, C: Clock, K, W: Watch<K>, R: Wait + Drop>(
    rt: &R,
    alloc: Global,
    client: &mut Client,
    wire: &mut Wire<L>,
    clock: &mut C,
    watch: &mut W,
    out: &mut K,
) -> Result<Ending, DriveFault>
    requires { Meets [] [] wire.old }
    ensures visits { Visits client.old client.new (seen (C.tale clock.old) (W.told watch.old out.old)) (seen (C.tale clock.new) (W.told watch.new out.new)) result wire.new }
    ensures tells { TellsEnd (W.finished watch.new client.new.kept) (W.stopped watch.new) result }
    ensures counts { W.reconnects watch.new ≡ W.reconnects watch.old + dropped_end result }
{
    for _ in rt.forever() {
        if watch.is_stopped() {
            return Ok(Ending::Stopped);
        }
        match turn(alloc, client, wire, clock, watch, out) {
            Ok(Some(ending)) => return Ok(ending),
            Ok(None) => {}
            Err(fault) => return Err(fault),
        }
    }
    unreachable!()
}
