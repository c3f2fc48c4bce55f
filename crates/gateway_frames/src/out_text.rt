//! The texts of what a server sends beside dispatches, both ways.

ghost use Rattle.std.specs.Prelude.{◌≡◌, ◌≢◌, ◌≤◌, true, false, Some, None, IfOk, IfSome, string_bytes};
ghost use Rattle.serde_json.specs.Data.{depth, null};
ghost use Rattle.serde_json.specs.Read.{max_depth};
ghost use Rattle.serde_json.specs.View.{view};
ghost use Rattle.serde_json.specs.Written.{compact_text};
ghost use Rattle.json_view.specs.Reading.{reading};
ghost use Rattle.gateway_frames.specs.declared.out.Out.{Out as AnOut};
ghost use Rattle.gateway_frames.specs.declared.out.Out.TheVariants.{Hello, Resumed};
ghost use Rattle.gateway_frames.specs.Candidate.{candidate, by_opcode};
ghost use Rattle.gateway_frames.specs.Out.{envelope, out_data, IsNoDispatch};

use crate::Out;
use json_view::value_of;
use serde_json::{Value, json};
use std::alloc::{AllocError, Global};

fn payload(alloc: Global, op: u64, body: Value) -> Result<Value, AllocError>
    ensures { IfOk result (λ v. view v ≡ envelope (view body) op null null) }
{
    json!(in alloc; {"d": body, "op": op, "s": null, "t": null})
}

fn resumed(alloc: Global, number: u64) -> Result<Value, AllocError>
    ensures { IfOk result (λ v. view v ≡ out_data (Resumed number)) }
{
    json!(in alloc; {"d": {}, "op": 0, "s": number, "t": "RESUMED"})
}

fn hello(alloc: Global, interval: u64) -> Result<Value, AllocError>
    ensures { IfOk result (λ v. view v ≡ out_data (Hello interval)) }
{
    let body = json!(in alloc; {"heartbeat_interval": interval})?;
    payload(alloc, 10, body)
}

fn out_value(alloc: Global, out: Out) -> Result<Value, AllocError>
    ensures { IfOk result (λ v. view v ≡ out_data out) }
{
    match out {
        Out::Hello(interval) => hello(alloc, interval),
        Out::Ack => payload(alloc, 11, Value::Null),
        Out::Invalid(resumable) => payload(alloc, 9, Value::Bool(resumable)),
        Out::Reconnect => payload(alloc, 7, Value::Null),
        Out::Resumed(number) => resumed(alloc, number),
    }
}

fn by_opcode(op: u64, body: &Value) -> Option<Out>
    ensures value { result ≡ by_opcode op (view body.now) }
    ensures no_dispatch { IfSome result IsNoDispatch }
{
    match op {
        7 => Some(Out::Reconnect),
        9 => body.as_bool().map(Out::Invalid),
        10 => body
            .get("heartbeat_interval")
            .and_then(Value::as_u64)
            .map(Out::Hello),
        11 => Some(Out::Ack),
        _ => None,
    }
}

// Which payload the value can be, by its opcode and its one field.
fn candidate(value: &Value) -> Option<Out>
    ensures value { result ≡ candidate (view value.now) }
    ensures no_dispatch { IfSome result IsNoDispatch }
{
    let body = value.get("d")?;
    let op = value.get("op").and_then(Value::as_u64)?;
    by_opcode(op, body)
}

// Whether the value is that of the payload.
fn is_of(alloc: Global, value: &Value, out: Out) -> Result<bool, AllocError>
    requires { depth (view value.now) ≤ max_depth }
    ensures yes { IfOk result (λ b. b ≡ true → view value.now ≡ out_data out) }
    ensures no { IfOk result (λ b. b ≡ false → view value.now ≢ out_data out) }
{
    let found = value.to_string(alloc)?;
    let wanted = out.text(alloc)?;
    Ok(found.as_str() == wanted.as_str())
}

impl Out {
    /// The text of the payload.
    pub fn text(&self, alloc: Global) -> Result<String, AllocError>
        ensures text { IfOk result (λ text. string_bytes text ≡ compact_text (out_data self.now)) }
        ensures reads_back { IfOk result (λ text. reading (string_bytes text) ≡ Some (out_data self.now)) }
    {
        let value = out_value(alloc, *self)?;
        value.to_string(alloc)
    }

    /// Reads a payload, whatever its spaces and the order of its keys. RESUMED is read as a
    /// dispatch, and so is nothing here.
    pub fn read(alloc: Global, text: &str) -> Result<Option<Out>, AllocError>
        ensures value { IfOk result (λ o. IfSome o (λ out. reading text.now ≡ Some (out_data out))) }
        ensures no_dispatch { IfOk result (λ o. IfSome o IsNoDispatch) }
        ensures none { IfOk result (λ o. o ≡ None → (out : AnOut) → IsNoDispatch out → reading text.now ≢ Some (out_data out)) }
    {
        let Some(value) = value_of(alloc, text.as_bytes())? else {
            return Ok(None);
        };
        let Some(out) = candidate(&value) else {
            return Ok(None);
        };
        if is_of(alloc, &value, out)? {
            Ok(Some(out))
        } else {
            Ok(None)
        }
    }
}
