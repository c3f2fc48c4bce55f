//! The text of a dispatch.

ghost use Rattle.std.specs.Prelude.{◌≡◌, ◌++◌, codes, IfOk, OnOk, string_bytes};
ghost use Rattle.serde_json.specs.Written.{compact_text};
ghost use Rattle.event_json.specs.Body.{body_data, DispatchFits};
ghost use Rattle.event_json.specs.Text.{data_of, envelope_of, head_of, tail_of};

use crate::body::write_body;
use collections::Text;
use dispatch_types::Dispatch;
use itoa::Buffer;
use json::Writer;
use payload_text::Envelope;
use std::alloc::{AllocError, Global};

// Most heads fit into this, and most texts with their number.
const HEAD_ROOM: usize = 384;

// The bytes round a name, and a few more.
const TAIL_ROOM: usize = 20;

// What stands before the number. The body is written where it stays, behind the bytes before it.
fn head_of(alloc: Global, of: &Dispatch) -> Result<String, AllocError>
    ensures text { IfOk result (λ head. string_bytes head ≡ head_of (compact_text (body_data of.now))) }
    ensures fits { OnOk result (DispatchFits of.now) }
{
    let mut begun = String::with_capacity(alloc, HEAD_ROOM)?;
    begun.push_str("{\"d\":")?;
    let mut out = Writer::new(begun.into_bytes());
    write_body(alloc, &mut out, of)?;
    // A second look at the bytes would cost a tenth of the text: that they are UTF-8 is proved.
    let mut head = unsafe { String::from_utf8_unchecked(out.into_inner()) };
    head.push_str(",\"op\":0,\"s\":")?;
    Ok(head)
}

// Adds what stands after the number.
fn push_tail(text: &mut String, name: &str) -> Result<(), AllocError>
    ensures { OnOk result (string_bytes text.new ≡ string_bytes text.old ++ tail_of name.now) }
{
    text.push_str(",\"t\":\"")?;
    text.push_str(name)?;
    text.push_str("\"}")?;
    Ok(())
}

fn tail_of(alloc: Global, name: &str) -> Result<Text, AllocError>
    ensures { IfOk result (λ tail. tail ≡ tail_of name.now) }
{
    let mut text = String::with_capacity(alloc, name.len().saturating_add(TAIL_ROOM))?;
    push_tail(&mut text, name)?;
    Ok(Text::from_string(text))
}

/// What stands before and after the number in the text of a dispatch (Gateway, Payload Structure). It
/// serves for every session that is sent the dispatch: with a number in it, it is the text that
/// [`write`] gives.
pub fn envelope_of(alloc: Global, of: &Dispatch) -> Result<Envelope, AllocError>
    ensures envelope { IfOk result (λ envelope. envelope ≡ envelope_of of.now) }
    ensures fits { OnOk result (DispatchFits of.now) }
{
    let head = Text::from_string(head_of(alloc, of)?);
    Envelope::new(alloc, head, tail_of(alloc, of.kind().name())?)
}

/// The text of a dispatch with its number: compact, with the keys in byte order (Gateway, Payload
/// Structure).
pub fn write(alloc: Global, of: &Dispatch, number: u64) -> Result<String, AllocError>
    ensures text { IfOk result (λ text. string_bytes text ≡ compact_text (data_of of.now number)) }
    ensures fits { OnOk result (DispatchFits of.now) }
{
    let mut text = head_of(alloc, of)?;
    let mut buffer = Buffer::new();
    text.push_str(buffer.format(number))?;
    push_tail(&mut text, of.kind().name())?;
    Ok(text)
}
