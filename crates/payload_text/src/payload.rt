//! The text of a payload, shared by all who are sent it; only the number is their own.

ghost use Rattle.std.specs.Prelude.{◌≡◌, ◌+◌, ◌++◌, Some, decimal, length, is_ok, IfOk, IfSome, if◌then◌else◌};
ghost use Rattle.payload_text.specs.Around.{text_around};

use crate::append::append_all;
use crate::envelope::{Envelope, Parts};
use collections::Text;
use itoa::Buffer;
use std::alloc::{AllocError, Global};
use std::marker::Model;
use std::sync::Arc;

/// What stands before a number, the number, and what stands after it.
#[derive(Clone, Copy)]
pub struct Pieces<'a> {
    pub head: &'a str,
    pub number: &'a str,
    pub tail: &'a str,
}

/// The text of a payload, as it goes to a connection and as it is kept for a resume. A clause sees the
/// text.
pub struct Payload {
    parts: Arc<Parts>,
    number: Option<u64>,
    len: usize,
}

impl Drop for Payload {
    fn drop(self) {
        let Payload {
            parts,
            number: _,
            len: _,
        } = self;
        drop(parts);
    }
}

impl Model for Payload {
    ghost use Rattle.std.specs.Prelude.{◌≡◌, ℕ, List, length};
    ghost use Rattle.std.specs.Arc.{arc_value};
    ghost use Rattle.payload_text.specs.Around.{text_around};

    ghost Value = { List ℕ };

    ghost view = { λ p. text_around (arc_value p.parts) p.number };

    ghost invariant = { λ p. p.len ≡ length (text_around (arc_value p.parts) p.number) };
}

// How many digits a number has.
fn digits(number: u64) -> usize
    ensures { result ≡ length (decimal number) }
{
    let mut buffer = Buffer::new();
    buffer.format(number).len()
}

// How many bytes a text with a number has, where so many can be counted.
fn len_around(parts: &Parts, number: u64) -> Option<usize>
    ensures { IfSome result (λ len. len ≡ length (text_around parts.now (Some number))) }
{
    let len = parts.head.len().checked_add(digits(number))?;
    len.checked_add(parts.tail.len())
}

impl Payload {
    /// A text that is sent once.
    pub fn plain(alloc: Global, text: Text) -> Result<Payload, AllocError>
        ensures { IfOk result (λ payload. payload ≡ text) }
    {
        let len = text.len();
        let parts = Parts {
            head: text,
            tail: Text::empty(),
        };
        Ok(Payload {
            parts: Arc::new(alloc, parts)?,
            number: None,
            len,
        })
    }

    /// The text of a dispatch with this sequence number. It takes no room but that of the number.
    pub fn numbered(envelope: &Envelope, number: u64) -> Result<Payload, AllocError>
        ensures { IfOk result (λ payload. payload ≡ text_around envelope.now (Some number)) }
    {
        let parts = envelope.share()?;
        let len = len_around(&parts, number).ok_or(AllocError)?;
        Ok(Payload {
            parts,
            number: Some(number),
            len,
        })
    }

    /// The same text, for one more owner.
    pub fn share(&self) -> Result<Payload, AllocError>
        ensures { IfOk result (λ payload. payload ≡ self.now) }
    {
        Ok(Payload {
            parts: Arc::try_clone(&self.parts)?,
            number: self.number,
            len: self.len,
        })
    }

    /// How many bytes there are.
    pub fn len(&self) -> usize
        ensures { result ≡ length self.now }
    {
        self.len
    }

    /// The text in pieces, of which the number is written into a buffer of the caller's.
    pub fn pieces<'a>(&'a self, buffer: &'a mut Buffer) -> Pieces<'a>
        ensures { result.head.now ++ (result.number.now ++ result.tail.now) ≡ self.now }
    {
        Pieces {
            head: self.parts.head.as_str(),
            number: match self.number {
                Some(number) => buffer.format(number),
                None => "",
            },
            tail: self.parts.tail.as_str(),
        }
    }

    /// Adds the text to bytes. An `Err` leaves the bytes as they were.
    pub fn append(&self, out: &mut Vec<u8>) -> Result<(), AllocError>
        ensures { out.new.items ≡ (if is_ok result then out.old.items ++ self.now else out.old.items) }
    {
        let mut buffer = Buffer::new();
        let pieces = self.pieces(&mut buffer);
        append_all(out, &[pieces.head, pieces.number, pieces.tail])
    }

    /// The text in one piece.
    pub fn to_text(&self, alloc: Global) -> Result<Text, AllocError>
        ensures { IfOk result (λ text. text ≡ self.now) }
    {
        let mut buffer = Buffer::new();
        let pieces = self.pieces(&mut buffer);
        let mut text = String::with_capacity(alloc, self.len)?;
        text.push_str(pieces.head)?;
        text.push_str(pieces.number)?;
        text.push_str(pieces.tail)?;
        Ok(Text::from_string(text))
    }
}
