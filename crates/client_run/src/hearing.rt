//! What comes over a link.

ghost use Rattle.std.specs.Prelude.{◌≡◌, ◌∷◌, ◌++◌, ◌+◌, [], ℕ, true, false, None, List, MatchResult};
ghost use Rattle.gate_outside.specs.declared.sending.Sending.TheVariants as sending;
ghost use Rattle.dispatch_types.specs.declared.dispatch.Dispatch.{Dispatch as ADispatch};
ghost use Rattle.dispatch_types.specs.Kinds.{kind_of};
ghost use Rattle.client_session.specs.declared.received.Received.TheVariants as payload;
ghost use Rattle.client_session.specs.Received.{IsTextOf};
ghost use Rattle.client_session.specs.Step.{Event, Receives, StepsTo, Keeps};
ghost use Rattle.client_run.specs.Histories.{Told, told, events, dial_in};
ghost use Rattle.client_run.specs.Watched.{WatchTale, dispatch_line};
ghost use Rattle.client_run.specs.Turns.{Meets, IsAnswered, Moves, IsUnasked, TellsPart, dropped_part, is_orderly, closed_by, may_hear};

use crate::acting::{act_on_all, close, next_target};
use crate::ending::Ending;
use crate::fault::DriveFault;
use crate::losing::{lose, lose_dropped};
use crate::watch::{Wants, Watch};
use crate::wire::Wire;
use client_session::{Act, Client, ClientFault, Received};
use dispatch_types::Dispatch;
use gate_outside::faults::Fault;
use gate_outside::links::Link;
use gateway_frames::Out;
use std::alloc::Global;

/// Normal closure, which ends the session (RFC 6455, Defined Status Codes).
const NORMAL_CLOSURE: u16 = 1000;

// Asks the watcher after the dispatch that it has looked at.
fn ask<L: Link + Drop, K, W: Watch<K>>(
    client: &mut Client,
    wire: &mut Wire<L>,
    watch: &mut W,
    out: &mut K,
) -> Result<Option<Ending>, DriveFault>
    ensures moves { (now number : ℕ) (dispatch : ADispatch) (before : List Told) → W.looked watch.old number dispatch → Meets before [] wire.old
        → Moves now before (dispatch_line number (kind_of dispatch) ∷ []) client.old client.new (W.told watch.old out.old) (W.told watch.new out.new) result wire.new }
    ensures tells { TellsPart (W.finished watch.new client.new.kept) (W.stopped watch.new) result }
    ensures counts { W.reconnects watch.new ≡ W.reconnects watch.old + dropped_part result }
{
    match watch.after_dispatch(client.cache(), out) {
        Ok(Wants::GoOn) => Ok(None),
        Ok(Wants::Reconnect) => lose_dropped(client),
        Ok(Wants::Finish) => match close(wire, NORMAL_CLOSURE) {
            Ok(()) => Ok(Some(Ending::Finished)),
            Err(_) => Err(DriveFault::Memory),
        },
        Ok(Wants::Stop) => Ok(Some(Ending::Stopped)),
        Err(_) => Err(DriveFault::Memory),
    }
}

// The client folds a dispatch, to which it says nothing.
fn fold(client: &mut Client, dispatch: Dispatch, number: u64, now: u64) -> Result<(), ClientFault>
    ensures { MatchResult result
        (λ _. StepsTo client.old (Receives (payload.Dispatch dispatch number) now) client.new [])
        (Keeps client.old client.new) }
{
    client.on_received(Received::Dispatch(dispatch, number), now)?;
    Ok(())
}

// The watcher looks at a dispatch, the client folds it, and the watcher is asked.
fn hear_dispatch<L: Link + Drop, K, W: Watch<K>>(
    client: &mut Client,
    wire: &mut Wire<L>,
    watch: &mut W,
    out: &mut K,
    dispatch: Dispatch,
    number: u64,
    now: u64,
) -> Result<Option<Ending>, DriveFault>
    ensures moves { (before : List Told) (text : List ℕ) → IsTextOf text (payload.Dispatch dispatch number) → may_hear false (events before) ≡ true → Meets before (sending.Text text ∷ []) wire.old
        → Moves now before [] client.old client.new (W.told watch.old out.old) (W.told watch.new out.new) result wire.new }
    ensures tells { TellsPart (W.finished watch.new client.new.kept) (W.stopped watch.new) result }
    ensures counts { W.reconnects watch.new ≡ W.reconnects watch.old + dropped_part result }
{
    match watch.before_dispatch(number, &dispatch) {
        Ok(()) => {}
        Err(_) => return Err(DriveFault::Memory),
    }
    match fold(client, dispatch, number, now) {
        Ok(()) => ask(client, wire, watch, out),
        Err(fault) => Err(DriveFault::from(fault)),
    }
}

// Does what a client says to a payload that is no dispatch.
fn answer<L: Link + Drop>(
    client: &mut Client,
    wire: &mut Wire<L>,
    acts: &[Act],
) -> Result<Option<Ending>, DriveFault>
    requires orderly { is_orderly false acts.now ≡ true }
    requires closes { dial_in acts.now ≡ None → closed_by false acts.now ≡ false }
    ensures moves { (now : ℕ) (before : List Told) (event : Event) (known : WatchTale) → IsAnswered before event acts.now wire.old
        → Moves now (before ++ told event acts.now ∷ []) [] client.old client.new known known result wire.new }
    ensures unasked { IsUnasked result }
{
    match act_on_all(wire, acts) {
        Err(Fault::Memory) => return Err(DriveFault::Memory),
        Err(Fault::Failed) => return lose(client, None),
        Ok(()) => {}
    }
    match next_target(acts) {
        Some(target) => Ok(Some(Ending::Left(target))),
        None => Ok(None),
    }
}

// The client takes a payload that is no dispatch, and what it says is done.
fn hear_other<L: Link + Drop>(
    client: &mut Client,
    wire: &mut Wire<L>,
    out: Out,
    now: u64,
) -> Result<Option<Ending>, DriveFault>
    ensures moves { (before : List Told) (text : List ℕ) (known : WatchTale) → IsTextOf text (payload.Other out) → may_hear false (events before) ≡ true → Meets before (sending.Text text ∷ []) wire.old
        → Moves now before [] client.old client.new known known result wire.new }
    ensures unasked { IsUnasked result }
{
    match client.on_received(Received::Other(out), now) {
        Ok(acts) => answer(client, wire, &acts),
        Err(fault) => Err(DriveFault::from(fault)),
    }
}

/// The client takes a text that its link gave, and what it says is done. A dispatch is shown to the watcher,
/// which is then asked.
pub fn hear<L: Link + Drop, K, W: Watch<K>>(
    alloc: Global,
    client: &mut Client,
    wire: &mut Wire<L>,
    watch: &mut W,
    out: &mut K,
    text: &str,
    now: u64,
) -> Result<Option<Ending>, DriveFault>
    ensures moves { (before : List Told) → may_hear false (events before) ≡ true → Meets before (sending.Text text.now ∷ []) wire.old
        → Moves now before [] client.old client.new (W.told watch.old out.old) (W.told watch.new out.new) result wire.new }
    ensures tells { TellsPart (W.finished watch.new client.new.kept) (W.stopped watch.new) result }
    ensures counts { W.reconnects watch.new ≡ W.reconnects watch.old + dropped_part result }
{
    match Received::read(alloc, text) {
        Ok(Received::Dispatch(dispatch, number)) => {
            hear_dispatch(client, wire, watch, out, dispatch, number, now)
        }
        Ok(Received::Other(out)) => hear_other(client, wire, out, now),
        Err(fault) => Err(DriveFault::from(fault)),
    }
}
