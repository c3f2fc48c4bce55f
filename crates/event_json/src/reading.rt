//! Reading a dispatch from its text.

ghost use Rattle.std.specs.Prelude.{◌≡◌, ◌≢◌, ◌⊎◌, ℕ, true, false, Ok, Some, IfOk, IfErr, OnOk, codes, option_map};
ghost use Rattle.std.specs.Option.{ok_or};
ghost use Rattle.serde_json.specs.Data.{Data};
ghost use Rattle.serde_json.specs.Written.{compact_text};
ghost use Rattle.written_json.specs.Writable.{IsWritable};
ghost use Rattle.json_view.specs.Fields.{and_then};
ghost use Rattle.json_view.specs.Nodes.{view};
ghost use Rattle.json_view.specs.Reading.{reading};
ghost use Rattle.object_json.specs.Reading.{value_at};
ghost use Rattle.dispatch_types.specs.declared.dispatch.Dispatch.{Dispatch as ADispatch};
ghost use Rattle.event_json.specs.declared.fault.DispatchFault.TheVariants.{Memory, NotJson};
ghost use Rattle.event_json.specs.Body.{body_from, DispatchFits};
ghost use Rattle.event_json.specs.Text.{data_of};
ghost use Rattle.event_json.specs.Read.{IsTextOf, name_in, kind_in, fault_of, UnlessMemory, faulted, candidate};

use crate::body::read_body;
use crate::fault::DispatchFault;
use crate::text::write;
use dispatch_types::Dispatch;
use intent_set::Kind;
use json_view::{JsonValue, Node, Scratch, node_of, value_of};
use object_json::reading::{field_at, number_at};
use std::alloc::{AllocError, Global};
use written_json::is_written_as;

fn name_in<'a>(value: &'a Node<'_>) -> Option<&'a str>
    ensures { option_map (λ s. s.now) result ≡ name_in (view value.now) }
{
    let op = value.member("op").and_then(|op| op.whole());
    if op != Some(0) {
        return None;
    }
    let _number = value.member("s").and_then(|number| number.whole())?;
    value.member("t").and_then(|name| name.text())
}

fn kind_in(value: &Node<'_>) -> Result<Kind, DispatchFault>
    ensures { result ≡ kind_in (view value.now) }
{
    let name = name_in(value).ok_or(DispatchFault::NotDispatch)?;
    Kind::of_name(name).ok_or(DispatchFault::UnknownName)
}

fn body_in(alloc: Global, kind: Kind, value: &Node<'_>) -> Result<Dispatch, DispatchFault>
    ensures { UnlessMemory result (faulted (value_at (body_from kind) (codes "d") (view value.now))) }
{
    let body = field_at(value, "d")?;
    Ok(read_body(alloc, kind, body)?)
}

// The one dispatch that the value can be.
fn candidate(alloc: Global, value: &Node<'_>) -> Result<(Dispatch, u64), DispatchFault>
    ensures { UnlessMemory result (candidate (view value.now)) }
{
    let kind = kind_in(value)?;
    let number = number_at(value, "s")?;
    let dispatch = body_in(alloc, kind, value)?;
    Ok((dispatch, number))
}

// The one dispatch that the text can be of.
fn candidate_in(alloc: Global, text: &str) -> Result<(Dispatch, u64), DispatchFault>
    ensures { UnlessMemory result (and_then (ok_or (reading text.now) NotJson) candidate) }
{
    let mut scratch = Scratch::new(alloc);
    let Some(value) = node_of(alloc, text.as_bytes(), &mut scratch)? else {
        return Err(DispatchFault::NotJson);
    };
    candidate(alloc, &value)
}

// Whether a text's JSON is that for which a compact text was written.
fn is_read_as(alloc: Global, text: &str, written: &str) -> Result<bool, AllocError>
    ensures yes { (d : Data) → IsWritable d → written.now ≡ compact_text d → IfOk result (λ same. same ≡ true → reading text.now ≡ Some d) }
    ensures no { (d : Data) → IsWritable d → written.now ≡ compact_text d → IfOk result (λ same. same ≡ false → reading text.now ≢ Some d) }
{
    match value_of(alloc, text.as_bytes())? {
        Some(value) => is_written_as(alloc, &value, written),
        None => Ok(false),
    }
}

// Whether the text's JSON is that of the dispatch. A text as [`write`] gives it is not read again.
fn is_of(alloc: Global, text: &str, dispatch: &Dispatch, number: u64) -> Result<bool, AllocError>
    ensures yes { IfOk result (λ same. same ≡ true → reading text.now ≡ Some (data_of dispatch.now number)) }
    ensures no { IfOk result (λ same. same ≡ false → reading text.now ≢ Some (data_of dispatch.now number)) }
    ensures fits { OnOk result (DispatchFits dispatch.now) }
{
    let written = write(alloc, dispatch, number)?;
    if written.as_str() == text {
        return Ok(true);
    }
    is_read_as(alloc, text, written.as_str())
}

/// Reads a dispatch and its number from a text, whatever its spaces and the order of its keys.
///
/// The answer is `Ok` exactly if the text's JSON is that which [`write`] gives for the answer.
/// The lists of Thread Members Update, and the ids that are not found in Guild Members Chunk, are
/// then not empty where they are there, since an empty one is left out.
pub fn read(alloc: Global, text: &str) -> Result<(Dispatch, u64), DispatchFault>
    ensures one { IfOk result (λ read. IsTextOf text.now read.0 read.1) }
    ensures each { (dispatch : ADispatch) → (number : ℕ) → IsTextOf text.now dispatch number → UnlessMemory result (Ok (dispatch, number)) }
    ensures fault { IfErr result (λ fault. (fault ≡ Memory) ⊎ (fault ≡ fault_of (reading text.now))) }
{
    let (dispatch, number) = candidate_in(alloc, text)?;
    let Ok(is_exact) = is_of(alloc, text, &dispatch, number) else {
        drop(dispatch);
        return Err(DispatchFault::Memory);
    };
    if is_exact {
        Ok((dispatch, number))
    } else {
        drop(dispatch);
        Err(DispatchFault::BadField)
    }
}

/// What is written for a dispatch and a number is read as these.
pub fn reads_back(
    alloc: Global,
    dispatch: &Dispatch,
    number: u64,
) -> Result<(Dispatch, u64), DispatchFault>
    ensures { UnlessMemory result (Ok (dispatch.now, number)) }
{
    let text = write(alloc, dispatch, number)?;
    read(alloc, text.as_str())
}
