//! The texts that a client sends (Gateway Events, Send Events).

ghost use Rattle.std.specs.Prelude.{◌≡◌, IfOk};
ghost use Rattle.std.specs.Option.{option_copied};
ghost use Rattle.client_session.specs.Table.{frame_text, identify, resume, heartbeat};

use crate::session::Session;
use collections::Text;
use gateway_frames::{Frame, Identify, Resume};
use intent_set::Intents;
use std::alloc::{AllocError, Global};

fn text_of(alloc: Global, frame: &Frame) -> Result<Text, AllocError>
    ensures { IfOk result (λ text. text ≡ frame_text frame.now) }
{
    Ok(Text::from_string(frame.text(alloc)?))
}

/// Begins a session (Gateway Events, Identify).
pub(crate) fn identify(alloc: Global, token: &Text, intents: Intents) -> Result<Text, AllocError>
    ensures { IfOk result (λ text. text ≡ frame_text (identify token.now intents)) }
{
    let frame = Frame::Identify(Identify {
        token: token.copy(alloc)?,
        intents: intents.bits(),
        large_threshold: None,
        shard: None,
    });
    text_of(alloc, &frame)
}

/// Resumes a session (Gateway Events, Resume).
pub(crate) fn resume(alloc: Global, token: &Text, session: &Session) -> Result<Text, AllocError>
    ensures { IfOk result (λ text. text ≡ frame_text (resume token.now session.now)) }
{
    let frame = Frame::Resume(Resume {
        token: token.copy(alloc)?,
        session: session.id.copy(alloc)?,
        seq: session.number,
    });
    text_of(alloc, &frame)
}

/// A heartbeat with the number of the last dispatch that was read (Gateway Events, Heartbeat).
pub(crate) fn heartbeat(alloc: Global, session: Option<&Session>) -> Result<Text, AllocError>
    ensures { IfOk result (λ text. text ≡ frame_text (heartbeat (option_copied session.entry))) }
{
    let frame = Frame::Heartbeat(session.map(|session| session.number));
    text_of(alloc, &frame)
}
