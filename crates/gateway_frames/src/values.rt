//! Frames as JSON values.

ghost use Rattle.std.specs.Prelude.{◌≡◌, IfOk, OnOk, option_map};
ghost use Rattle.serde_json.specs.Data.{string};
ghost use Rattle.serde_json.specs.View.{view, members_view};
ghost use Rattle.gateway_frames.specs.Fits.{IdFits, IdsFit, ChannelFits, VoiceFits, FindFits, AskFits, FrameFits};
ghost use Rattle.gateway_frames.specs.Written.{put_given, id_data, nullable_id_data, nullable_count, ids_data, pair_data, identify_data, presence_data, voice_data, resume_data, limit_in, query_in, users_in, ask_data, payload_data, frame_data};

use crate::{Ask, Find, Frame, Identify, Resume, Status, VoiceAsk};
use collections::Text;
use serde_json::{Map, Value, json};
use snowflake_id::Snowflake;
use std::alloc::{AllocError, Global};

fn put_given(
    alloc: Global,
    members: &mut Map<String, Value>,
    name: &str,
    value: Option<Value>,
) -> Result<(), AllocError>
    ensures { OnOk result (members_view members.new.entries ≡ put_given name.now (option_map view value) (members_view members.old.entries)) }
{
    match value {
        None => Ok(()),
        Some(value) => serde_json::put(members, alloc, name, value),
    }
}

fn id_value(alloc: Global, id: Snowflake) -> Result<Value, AllocError>
    ensures value { IfOk result (λ v. view v ≡ id_data id) }
    ensures fits { OnOk result (IdFits id) }
{
    Ok(Value::String(id.text(alloc)?))
}

fn text_value(alloc: Global, text: &str) -> Result<Value, AllocError>
    ensures { IfOk result (λ v. view v ≡ string text.now) }
{
    Ok(Value::String(String::from_str(alloc, text)?))
}

fn ids_value(alloc: Global, ids: &[Snowflake]) -> Result<Value, AllocError>
    ensures value { IfOk result (λ v. view v ≡ ids_data ids.now) }
    ensures fits { OnOk result (IdsFit ids.now) }
{
    let mut list = Vec::new(alloc);
    for id in ids {
        let value = id_value(alloc, *id)?;
        serde_json::push(&mut list, value)?;
    }
    Ok(Value::Array(list))
}

fn pair_value(alloc: Global, pair: Option<(u64, u64)>) -> Result<Option<Value>, AllocError>
    ensures { IfOk result (λ o. option_map view o ≡ option_map pair_data pair) }
{
    match pair {
        None => Ok(None),
        Some((first, second)) => {
            let value = json!(in alloc; [first, second])?;
            Ok(Some(value))
        }
    }
}

fn identify_value(alloc: Global, identify: &Identify) -> Result<Value, AllocError>
    ensures { IfOk result (λ v. view v ≡ identify_data identify.now) }
{
    let mut members = Map::new(alloc);
    put_given(
        alloc,
        &mut members,
        "intents",
        Some(Value::from(identify.intents)),
    )?;
    put_given(
        alloc,
        &mut members,
        "large_threshold",
        identify.large_threshold.map(Value::from),
    )?;
    put_given(
        alloc,
        &mut members,
        "properties",
        Some(Value::Object(Map::new(alloc))),
    )?;
    put_given(
        alloc,
        &mut members,
        "shard",
        pair_value(alloc, identify.shard)?,
    )?;
    let token = text_value(alloc, identify.token.as_str())?;
    put_given(alloc, &mut members, "token", Some(token))?;
    Ok(Value::Object(members))
}

fn presence_value(alloc: Global, status: Status) -> Result<Value, AllocError>
    ensures { IfOk result (λ v. view v ≡ presence_data status) }
{
    json!(in alloc; {"status": status.name()})
}

fn channel_value(alloc: Global, channel: Option<Snowflake>) -> Result<Value, AllocError>
    ensures value { IfOk result (λ v. view v ≡ nullable_id_data channel) }
    ensures fits { OnOk result (ChannelFits channel) }
{
    match channel {
        None => Ok(Value::Null),
        Some(id) => id_value(alloc, id),
    }
}

fn voice_value(alloc: Global, voice: &VoiceAsk) -> Result<Value, AllocError>
    ensures value { IfOk result (λ v. view v ≡ voice_data voice.now) }
    ensures fits { OnOk result (VoiceFits voice.now) }
{
    let channel = channel_value(alloc, voice.channel)?;
    let guild = id_value(alloc, voice.guild)?;
    json!(in alloc; {
        "channel_id": channel,
        "guild_id": guild,
        "self_deaf": voice.self_deaf,
        "self_mute": voice.self_mute,
    })
}

fn resume_value(alloc: Global, resume: &Resume) -> Result<Value, AllocError>
    ensures { IfOk result (λ v. view v ≡ resume_data resume.now) }
{
    json!(in alloc; {
        "seq": resume.seq,
        "session_id": resume.session.as_str(),
        "token": resume.token.as_str(),
    })
}

fn limit_value(find: &Find) -> Option<Value>
    ensures { option_map view result ≡ limit_in find.now }
{
    match find {
        Find::Query {
            limit: Some(limit),
            ..
        } => Some(Value::from(*limit)),
        _ => None,
    }
}

fn query_value(alloc: Global, find: &Find) -> Result<Option<Value>, AllocError>
    ensures { IfOk result (λ o. option_map view o ≡ query_in find.now) }
{
    match find {
        Find::Users(_) => Ok(None),
        Find::Query { query, .. } => Ok(Some(text_value(alloc, query.as_str())?)),
    }
}

fn users_value(alloc: Global, find: &Find) -> Result<Option<Value>, AllocError>
    ensures value { IfOk result (λ o. option_map view o ≡ users_in find.now) }
    ensures fits { OnOk result (FindFits find.now) }
{
    match find {
        Find::Query { .. } => Ok(None),
        Find::Users(ids) => Ok(Some(ids_value(alloc, ids.as_slice())?)),
    }
}

fn nonce_value(alloc: Global, nonce: &Option<Text>) -> Result<Option<Value>, AllocError>
    ensures { IfOk result (λ o. option_map view o ≡ option_map string nonce.now) }
{
    match nonce {
        None => Ok(None),
        Some(text) => Ok(Some(text_value(alloc, text.as_str())?)),
    }
}

fn ask_value(alloc: Global, ask: &Ask) -> Result<Value, AllocError>
    ensures value { IfOk result (λ v. view v ≡ ask_data ask.now) }
    ensures fits { OnOk result (AskFits ask.now) }
{
    let guild = id_value(alloc, ask.guild)?;
    let nonce = nonce_value(alloc, &ask.nonce)?;
    let query = query_value(alloc, &ask.find)?;
    let users = users_value(alloc, &ask.find)?;
    let mut members = Map::new(alloc);
    put_given(alloc, &mut members, "guild_id", Some(guild))?;
    put_given(alloc, &mut members, "limit", limit_value(&ask.find))?;
    put_given(alloc, &mut members, "nonce", nonce)?;
    put_given(
        alloc,
        &mut members,
        "presences",
        ask.presences.map(Value::from),
    )?;
    put_given(alloc, &mut members, "query", query)?;
    put_given(alloc, &mut members, "user_ids", users)?;
    Ok(Value::Object(members))
}

fn payload_value(alloc: Global, op: u64, body: Value) -> Result<Value, AllocError>
    ensures { IfOk result (λ v. view v ≡ payload_data op (view body)) }
{
    json!(in alloc; {"d": body, "op": op})
}

fn number_value(number: Option<u64>) -> Value
    ensures { view result ≡ nullable_count number }
{
    match number {
        None => Value::Null,
        Some(number) => Value::from(number),
    }
}

/// The frame as a JSON value.
pub fn frame_value(alloc: Global, frame: &Frame) -> Result<Value, AllocError>
    ensures value { IfOk result (λ v. view v ≡ frame_data frame.now) }
    ensures fits { OnOk result (FrameFits frame.now) }
{
    match frame {
        Frame::Heartbeat(number) => payload_value(alloc, 1, number_value(*number)),
        Frame::Identify(identify) => payload_value(alloc, 2, identify_value(alloc, identify)?),
        Frame::Presence(status) => payload_value(alloc, 3, presence_value(alloc, *status)?),
        Frame::Voice(voice) => payload_value(alloc, 4, voice_value(alloc, voice)?),
        Frame::Resume(resume) => payload_value(alloc, 6, resume_value(alloc, resume)?),
        Frame::Ask(ask) => payload_value(alloc, 8, ask_value(alloc, ask)?),
    }
}
