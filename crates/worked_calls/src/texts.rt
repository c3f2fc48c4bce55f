//! Calls on frames, payloads and JSON.

use gateway_frames::{Frame, Out};
use json_view::Scratch;
use std::alloc::{AllocError, Global};
use written_json::is_written_as;

// The text of the frame that a text is, or the name of its fault.
fn frame(alloc: Global, text: &str) -> Result<String, AllocError> {
    match Frame::read(alloc, text) {
        Ok(frame) => frame.text(alloc),
        Err(fault) => format!(in alloc; "{fault:?}"),
    }
}

fn payload(alloc: Global, text: &str) -> Result<String, AllocError> {
    match Out::read(alloc, text)? {
        Some(out) => {
            let written = out.text(alloc)?;
            format!(in alloc; "{out:?} {written}")
        }
        None => String::from_str(alloc, "no payload"),
    }
}

// Reads the field `a` of an object in each way, by the reader that owns its values.
fn fields(alloc: Global, text: &str) -> Result<String, AllocError> {
    let Some(object) = json_view::value_of(alloc, text.as_bytes())? else {
        return String::from_str(alloc, "no JSON");
    };
    let id = json_view::id_of(&object, "a");
    let number = json_view::number_of(&object, "a");
    let flag = json_view::flag_of(&object, "a");
    let text = json_view::text_of(&object, "a");
    let is_given = json_view::given_of(&object, "a").is_some();
    format!(in alloc; "{id:?} {number:?} {flag:?} {text:?}, given {is_given}")
}

// The same by the reader that borrows from the text.
fn line_fields(alloc: Global, text: &str) -> Result<String, AllocError> {
    let mut scratch = Scratch::new(alloc);
    let Some(object) = json_view::node_of(alloc, text.as_bytes(), &mut scratch)? else {
        return String::from_str(alloc, "no JSON");
    };
    let id = json_view::id_of(&object, "a");
    let number = json_view::number_of(&object, "a");
    let flag = json_view::flag_of(&object, "a");
    let text = json_view::text_of(&object, "a");
    let is_given = json_view::given_of(&object, "a").is_some();
    format!(in alloc; "{id:?} {number:?} {flag:?} {text:?}, given {is_given}")
}

// Whether the text before a tab has the value for which the text after it was written.
fn written(alloc: Global, given: &str) -> Result<String, AllocError> {
    let (text, written) = given.split_once('\t').unwrap_or((given, ""));
    let Some(value) = json_view::value_of(alloc, text.as_bytes())? else {
        return String::from_str(alloc, "no JSON");
    };
    let same = is_written_as(alloc, &value, written)?;
    format!(in alloc; "{same}")
}

/// What a call of this file answers, where one has that name.
pub fn answer(alloc: Global, name: &str, given: &str) -> anyhow::Result<Option<String>> {
    let answer = match name {
        "frame" => frame(alloc, given)?,
        "payload" => payload(alloc, given)?,
        "fields" => fields(alloc, given)?,
        "line_fields" => line_fields(alloc, given)?,
        "written" => written(alloc, given)?,
        _ => return Ok(None),
    };
    Ok(Some(answer))
}
