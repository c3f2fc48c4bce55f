//! Reads the frames of clients (Gateway Events, Send Events).

ghost use Rattle.std.specs.Prelude.{◌≡◌};
ghost use Rattle.serde_json.specs.View.{view};
ghost use Rattle.gateway_frames.specs.Fault.{UnlessMemory};
ghost use Rattle.gateway_frames.specs.Read.{shape_of, frame_of};

use crate::fields::whole_at;
use crate::shapes::{
    ask_from, heartbeat_from, identify_from, presence_from, resume_from, voice_from,
};
use crate::{Frame, FrameFault};
use json_view::value_of;
use serde_json::Value;
use std::alloc::Global;

/// The most bytes that a frame of a client may have (Gateway, Sending Events).
pub const MAX_FRAME_BYTES: usize = 4096;

/// The frame of this opcode.
fn shape_of(alloc: Global, op: u64, frame: &Value) -> Result<Frame, FrameFault>
    ensures { UnlessMemory result (shape_of op (view frame.now)) }
{
    let null = Value::Null;
    let payload = frame.get("d").unwrap_or(&null);
    match op {
        1 => heartbeat_from(frame),
        2 => Ok(Frame::Identify(identify_from(alloc, payload)?)),
        3 => Ok(Frame::Presence(presence_from(payload)?)),
        4 => Ok(Frame::Voice(voice_from(payload)?)),
        6 => Ok(Frame::Resume(resume_from(alloc, payload)?)),
        8 => Ok(Frame::Ask(ask_from(alloc, payload)?)),
        _ => Err(FrameFault::UnknownOp),
    }
}

impl Frame {
    /// Reads what a client sent. Further keys are ignored, and a missing `d` or optional key is
    /// the same as null.
    #[tactic(auto, unfolding(crate::specs::Read::frame_of))]
    pub fn read(alloc: Global, text: &str) -> Result<Frame, FrameFault>
        ensures { UnlessMemory result (frame_of text.now) }
    {
        if text.len() > MAX_FRAME_BYTES {
            return Err(FrameFault::TooLong);
        }
        let Some(value) = value_of(alloc, text.as_bytes())? else {
            return Err(FrameFault::NotJson);
        };
        let op = whole_at(&value, "op")?;
        shape_of(alloc, op, &value)
    }
}
