//! What texts between the two ends say.

use dispatch_types::Dispatch;
use event_json::DispatchFault;
use gate_outside::sending::Sending;
use gateway_frames::close::INVALID_SEQ;
use gateway_frames::{Frame, Out};
use payload_text::Payload;
use std::alloc::{AllocError, Global};
use worker_core::Output;

/// What a client sends.
#[derive(Clone, Copy, PartialEq, Eq)]
pub enum Said {
    Identify,
    Resume,
    /// With the number of the last dispatch that the client has.
    Heartbeat(Option<u64>),
    Other,
}

/// How a worker answers a resume.
#[derive(Clone, Copy, PartialEq, Eq)]
pub enum Answer {
    /// With RESUMED.
    Accepted,
    /// With Invalid Session.
    Refused,
    /// With close code 4007.
    Ahead,
    /// Not at all.
    None,
}

/// What a text of a client says.
pub fn said_in(alloc: Global, text: &str) -> anyhow::Result<Said> {
    let frame = Frame::read(alloc, text)?;
    let said = match &frame {
        Frame::Identify(_) => Said::Identify,
        Frame::Resume(_) => Said::Resume,
        Frame::Heartbeat(number) => Said::Heartbeat(*number),
        _ => Said::Other,
    };
    drop(frame);
    Ok(said)
}

// The dispatch in a text, with its number.
fn dispatch_in(alloc: Global, text: &str) -> Result<Option<(Dispatch, u64)>, AllocError> {
    match event_json::read(alloc, text) {
        Ok(read) => Ok(Some(read)),
        Err(DispatchFault::Memory) => Err(AllocError),
        Err(_) => Ok(None),
    }
}

fn number_in(alloc: Global, text: &str) -> Result<Option<u64>, AllocError> {
    match dispatch_in(alloc, text)? {
        Some((dispatch, number)) => {
            drop(dispatch);
            Ok(Some(number))
        }
        None => Ok(None),
    }
}

/// The number of the last dispatch among what a worker has sent.
pub fn last_number(alloc: Global, sent: &[Sending]) -> Result<Option<u64>, AllocError> {
    for sending in sent.iter().rev() {
        if let Sending::Text(text) = sending {
            let number = number_in(alloc, text.as_str())?;
            if number.is_some() {
                return Ok(number);
            }
        }
    }
    Ok(None)
}

fn is_resumed(alloc: Global, text: &str) -> Result<bool, AllocError> {
    match dispatch_in(alloc, text)? {
        Some((dispatch, _)) => {
            let is_resumed = matches!(&dispatch, Dispatch::Resumed);
            drop(dispatch);
            Ok(is_resumed)
        }
        None => Ok(false),
    }
}

fn is_invalid(alloc: Global, text: &str) -> Result<bool, AllocError> {
    let out = Out::read(alloc, text)?;
    Ok(matches!(out, Some(Out::Invalid(_))))
}

fn answer_in(alloc: Global, text: &Payload) -> Result<Answer, AllocError> {
    let text = text.to_text(alloc)?;
    if is_resumed(alloc, text.as_str())? {
        return Ok(Answer::Accepted);
    }
    if is_invalid(alloc, text.as_str())? {
        return Ok(Answer::Refused);
    }
    Ok(Answer::None)
}

/// How a worker answers a resume by these outputs, of which the last says it.
pub fn answer_of(alloc: Global, outputs: &[Output]) -> Result<Answer, AllocError> {
    match outputs.last() {
        Some(Output::Send(_, text)) => answer_in(alloc, text),
        Some(Output::Close(_, INVALID_SEQ)) => Ok(Answer::Ahead),
        _ => Ok(Answer::None),
    }
}
