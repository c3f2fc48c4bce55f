//! Sends dispatches to a session.

ghost use Rattle.std.specs.Prelude.{◌≡◌, ◌∷◌, [], ◌++◌, ◌<◌, ℕ, Some, length, map, position, IfOk, MatchResult, OnOk};
ghost use Rattle.world_law.specs.Wants.{is_numbered};
ghost use Rattle.worker_core.specs.Telling.{TellsAt, FailsAt, mark_at, sent_to};
ghost use Rattle.event_json.specs.Text.{envelope_of};

use crate::io::{Output, StepFault, put};
use dispatch_types::Dispatch;
use event_json::envelope_of;
use payload_text::{Envelope, Payload};
use session_core::{Mark, Sessions};
use std::alloc::{AllocError, Global};

/// Sends a text to a connection, if there is one.
fn send_to(conn: Option<u32>, text: &Payload, out: &mut Vec<Output>) -> Result<(), AllocError>
    ensures { OnOk result (out.new.items ≡ out.old.items ++ sent_to conn text.now) }
{
    let Some(conn) = conn else {
        return Ok(());
    };
    put(out, Output::Send(conn, text.share()?))?;
    Ok(())
}

/// Keeps the next dispatch of the session at an index, and sends it if the session is attached.
fn tell_one(
    sessions: &mut Sessions,
    index: usize,
    dispatch: &Dispatch,
    envelope: &Envelope,
    out: &mut Vec<Output>,
) -> Result<(), StepFault>
    requires index { index < length sessions.old.sessions }
    requires envelope { envelope.now ≡ envelope_of dispatch.now }
    ensures { MatchResult result (λ _. TellsAt index (λ x. dispatch.now ∷ []) sessions.old sessions.new out.old.items out.new.items) (FailsAt index (λ x. dispatch.now ∷ []) sessions.old) }
{
    let number = sessions.next_at(index)?;
    let text = Payload::numbered(envelope, number)?;
    send_to(sessions.conn_at(index), &text, out)?;
    sessions.push_at(index, text);
    Ok(())
}

/// The same of dispatches in order, whose texts were written.
pub fn tell_written(
    sessions: &mut Sessions,
    index: usize,
    dispatches: &[Dispatch],
    envelopes: &[Envelope],
    out: &mut Vec<Output>,
) -> Result<(), StepFault>
    requires index { index < length sessions.old.sessions }
    requires envelopes { envelopes.now ≡ map envelope_of dispatches.now }
    ensures { MatchResult result (λ _. TellsAt index (λ x. dispatches.now) sessions.old sessions.new out.old.items out.new.items) (FailsAt index (λ x. dispatches.now) sessions.old) }
{
    for next in 0..dispatches.len() {
        tell_one(sessions, index, &dispatches[next], &envelopes[next], out)?;
    }
    Ok(())
}

/// The texts of dispatches without their numbers.
pub fn envelopes_of(alloc: Global, dispatches: &[Dispatch]) -> Result<Vec<Envelope>, AllocError>
    ensures { IfOk result (λ envelopes. envelopes.items ≡ map envelope_of dispatches.now) }
{
    let mut envelopes = Vec::with_capacity(alloc, dispatches.len())?;
    for dispatch in dispatches {
        envelopes.push(envelope_of(alloc, dispatch)?)?;
    }
    Ok(envelopes)
}

/// Keeps the next dispatch of a session, and sends it if the session is attached. Does nothing if the
/// session is not live.
fn tell_next(
    alloc: Global,
    sessions: &mut Sessions,
    session: u32,
    mark: Mark,
    dispatch: &Dispatch,
    out: &mut Vec<Output>,
) -> Result<(), StepFault>
    ensures { (index : ℕ) → position (is_numbered session) sessions.old.sessions ≡ Some index
        → MatchResult result (λ _. TellsAt index (λ x. dispatch.now ∷ []) sessions.old sessions.new out.old.items out.new.items) (FailsAt index (λ x. dispatch.now ∷ []) sessions.old) }
{
    let Some(number) = sessions.next_number(session) else {
        return Ok(());
    };
    let envelope = envelope_of(alloc, dispatch)?;
    let text = Payload::numbered(&envelope, number)?;
    let conn = sessions.push(session, mark, text.share()?)?;
    send_to(conn, &text, out)?;
    Ok(())
}

/// The mark of the dispatch at an index, where the first has a mark: each chunk has its own.
fn mark_at(first: &Mark, index: usize) -> Mark
    ensures { result ≡ mark_at first.now index }
{
    match first {
        Mark::Start => Mark::Start,
        Mark::Entry(guild, position) => Mark::Entry(*guild, *position),
        Mark::Chunk(number) => Mark::Chunk(number.saturating_add(index as u64)),
    }
}

/// The same of dispatches in order, which are made for one reason, the first under a mark.
pub fn tell(
    alloc: Global,
    sessions: &mut Sessions,
    session: u32,
    first: &Mark,
    dispatches: &[Dispatch],
    out: &mut Vec<Output>,
) -> Result<(), StepFault>
    ensures { (index : ℕ) → position (is_numbered session) sessions.old.sessions ≡ Some index
        → MatchResult result (λ _. TellsAt index (λ x. dispatches.now) sessions.old sessions.new out.old.items out.new.items) (FailsAt index (λ x. dispatches.now) sessions.old) }
{
    for next in 0..dispatches.len() {
        let mark = mark_at(first, next);
        tell_next(alloc, sessions, session, mark, &dispatches[next], out)?;
    }
    Ok(())
}
