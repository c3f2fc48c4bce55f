//! The shape of `d` by opcode.

ghost use Rattle.std.specs.Prelude.{◌≡◌, IfOk, nat_lt};
ghost use Rattle.serde_json.specs.Events.{items_len};
ghost use Rattle.serde_json.specs.View.{view, items_view};
ghost use Rattle.gateway_frames.specs.Fault.{UnlessMemory};
ghost use Rattle.gateway_frames.specs.Shape.{heartbeat_from, identify_from, status_from, presence_from, voice_from, resume_from, ids_from, one_id, users_from, query_from, find_from, nonce_from, ask_from};

use crate::fields::{
    flag_or_false, id_at, nullable_id_at, optional_flag, optional_pair, optional_whole, text_at,
    whole_at,
};
use crate::{Ask, Find, Frame, FrameFault, Identify, Resume, Status, VoiceAsk};
use collections::{Seq, Text};
use json_view::{given_of, id_from};
use serde_json::Value;
use snowflake_id::Snowflake;
use std::alloc::{AllocError, Global};

/// The most ids that a request for members may name (Gateway Events, Request Guild Members).
pub const MAX_USERS: usize = 100;

/// Heartbeat (op 1): `d` is a number or null.
pub fn heartbeat_from(frame: &Value) -> Result<Frame, FrameFault>
    ensures { result ≡ heartbeat_from (view frame.now) }
{
    let number = optional_whole(frame, "d")?;
    Ok(Frame::Heartbeat(number))
}

/// Identify (op 2).
pub fn identify_from(alloc: Global, object: &Value) -> Result<Identify, FrameFault>
    ensures { UnlessMemory result (identify_from (view object.now)) }
{
    let token = text_at(object, "token")?;
    let intents = whole_at(object, "intents")?;
    let _compress = optional_flag(object, "compress")?;
    let large_threshold = optional_whole(object, "large_threshold")?;
    let shard = optional_pair(object, "shard")?;
    let token = Text::new(alloc, token)?;
    Ok(Identify {
        token,
        intents,
        large_threshold,
        shard,
    })
}

/// A status by its name.
fn status_from(text: &str) -> Result<Status, FrameFault>
    ensures { result ≡ status_from text.now }
{
    Status::of_name(text).ok_or(FrameFault::BadShape)
}

/// Update Presence (op 3).
pub fn presence_from(object: &Value) -> Result<Status, FrameFault>
    ensures { result ≡ presence_from (view object.now) }
{
    status_from(text_at(object, "status")?)
}

/// Update Voice State (op 4).
pub fn voice_from(object: &Value) -> Result<VoiceAsk, FrameFault>
    ensures { result ≡ voice_from (view object.now) }
{
    let guild = id_at(object, "guild_id")?;
    let channel = nullable_id_at(object, "channel_id")?;
    let self_mute = flag_or_false(object, "self_mute")?;
    let self_deaf = flag_or_false(object, "self_deaf")?;
    Ok(VoiceAsk {
        guild,
        channel,
        self_mute,
        self_deaf,
    })
}

/// Resume (op 6).
pub fn resume_from(alloc: Global, object: &Value) -> Result<Resume, FrameFault>
    ensures { UnlessMemory result (resume_from (view object.now)) }
{
    let token = text_at(object, "token")?;
    let session = text_at(object, "session_id")?;
    let seq = whole_at(object, "seq")?;
    let token = Text::new(alloc, token)?;
    let session = Text::new(alloc, session)?;
    Ok(Resume {
        token,
        session,
        seq,
    })
}

fn ids_from(alloc: Global, list: &[Value]) -> Result<Seq<Snowflake>, FrameFault>
    ensures { UnlessMemory result (ids_from (items_view list.now)) }
{
    let mut ids = Seq::new(alloc);
    for value in list {
        ids.push(Snowflake(id_from(value)?))?;
    }
    Ok(ids)
}

fn one_id(alloc: Global, value: &Value) -> Result<Seq<Snowflake>, FrameFault>
    ensures { UnlessMemory result (one_id (view value.now)) }
{
    let id = id_from(value)?;
    let mut ids = Seq::new(alloc);
    ids.push(Snowflake(id))?;
    Ok(ids)
}

#[tactic(auto, using(crate::proofs::Lists::items_view_len))]
fn too_many(list: &[Value]) -> bool
    ensures { result ≡ nat_lt 100 (items_len (items_view list.now)) }
{
    list.len() > MAX_USERS
}

fn users_from(alloc: Global, value: &Value) -> Result<Seq<Snowflake>, FrameFault>
    ensures { UnlessMemory result (users_from (view value.now)) }
{
    match value.as_array() {
        None => one_id(alloc, value),
        Some(list) => {
            if too_many(list.as_slice()) {
                return Err(FrameFault::BadShape);
            }
            ids_from(alloc, list.as_slice())
        }
    }
}

fn query_from(alloc: Global, object: &Value) -> Result<Find, FrameFault>
    ensures { UnlessMemory result (query_from (view object.now)) }
{
    let query = text_at(object, "query")?;
    let limit = optional_whole(object, "limit")?;
    let query = Text::new(alloc, query)?;
    Ok(Find::Query { query, limit })
}

fn find_from(alloc: Global, object: &Value) -> Result<Find, FrameFault>
    ensures { UnlessMemory result (find_from (view object.now)) }
{
    match given_of(object, "user_ids") {
        None => query_from(alloc, object),
        Some(value) => {
            let users = users_from(alloc, value)?;
            Ok(Find::Users(users))
        }
    }
}

fn nonce_from(alloc: Global, object: &Value) -> Result<Option<Text>, AllocError>
    ensures { IfOk result (λ nonce. nonce ≡ nonce_from (view object.now)) }
{
    match object.get("nonce").and_then(Value::as_str) {
        None => Ok(None),
        Some(text) => {
            let nonce = Text::new(alloc, text)?;
            Ok(Some(nonce))
        }
    }
}

/// Request Guild Members (op 8).
pub fn ask_from(alloc: Global, object: &Value) -> Result<Ask, FrameFault>
    ensures { UnlessMemory result (ask_from (view object.now)) }
{
    let guild = id_at(object, "guild_id")?;
    let find = find_from(alloc, object)?;
    let presences = optional_flag(object, "presences")?;
    let nonce = nonce_from(alloc, object)?;
    Ok(Ask {
        guild,
        find,
        presences,
        nonce,
    })
}
