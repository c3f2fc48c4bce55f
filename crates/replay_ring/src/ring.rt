//! The replay buffer of a session.

ghost use Rattle.std.specs.Prelude.{◌≡◌, ◌+◌, ◌-◌, ◌^◌, ◌<◌, ◌≤◌, ◌↔◌, length, sum_by, IsTrue, IfOk};
ghost use Rattle.circular_buffer.specs.Buffer.{buffer};
ghost use Rattle.replay_ring.specs.Replay.{longest_suffix, fresh, pushed, texts_after};

use crate::after::After;
use circular_buffer::HeapCircularBuffer;
use payload_text::Payload;
use std::alloc::{AllocError, Global};
use std::marker::Model;

/// The replay buffer of a session (Gateway, Resuming). The texts are numbered from 1, and it holds
/// the longest suffix of them within two limits. A clause sees it as the number of the last text,
/// the texts held and the two limits.
pub struct Ring {
    texts: HeapCircularBuffer<Payload>,
    bytes: usize,
    limit: usize,
    last: u64,
}

impl Drop for Ring {
    fn drop(self) {
        let Ring {
            texts,
            bytes: _,
            limit: _,
            last: _,
        } = self;
        drop(texts);
    }
}

impl Model for Ring {
    ghost use Rattle.replay_ring.specs.Replay.{Replay, replay_code, IsCounted};

    ghost Value = { Replay };

    ghost coded = { replay_code };

    ghost view = { λ r. record { last = r.last; held = r.texts.items; items = r.texts.capacity; bytes = r.limit } };

    ghost invariant = { λ r. IsCounted r.texts r.bytes r.limit r.last };
}

impl Ring {
    /// An empty buffer that holds at most so many texts, of at most so many bytes in all. It takes
    /// its room for texts here.
    pub fn new(alloc: Global, items: usize, bytes: usize) -> Result<Ring, AllocError>
        ensures { IfOk result (λ ring. ring ≡ fresh items bytes) }
    {
        Ok(Ring {
            texts: HeapCircularBuffer::with_capacity(alloc, items)?,
            bytes: 0,
            limit: bytes,
            last: 0,
        })
    }

    /// Gives the text the next number, and drops from the front what is past a limit. A text of
    /// more bytes than the limit leaves nothing, nor does a limit of no texts. It does not allocate,
    /// and its time goes into this text and those that it drops alone.
    pub fn push(&mut self, text: Payload)
        requires { self.old.last < 2 ^ 64 - 1 }
        ensures { self.new ≡ pushed self.old text }
    {
        self.last += 1;
        if self.limit < text.len() || self.texts.capacity() == 0 {
            self.texts.clear();
            self.bytes = 0;
            return;
        }
        let left = make_room(&mut self.texts, self.bytes, self.limit - text.len());
        self.bytes = left + text.len();
        self.texts.push_back(text);
    }

    /// The number of the last text, which is 0 before the first push.
    pub fn last(&self) -> u64
        ensures { result ≡ self.now.last }
    {
        self.last
    }

    /// Whether every text with a number above `q` is held and `q` is no number to come.
    pub fn covers(&self, q: u64) -> bool
        ensures { IsTrue result ↔ ((self.now.last - length self.now.held ≤ q) × (q ≤ self.now.last)) }
    {
        q <= self.last && self.last - q <= self.texts.len() as u64
    }

    /// The texts with numbers above `q`, in order.
    pub fn after(&self, q: u64) -> After<'_>
        requires held { self.now.last - length self.now.held ≤ q }
        requires past { q ≤ self.now.last }
        ensures { result ≡ texts_after self.now q }
    {
        let (front, back) = self.texts.as_slices();
        let skipped = self.texts.len() - (self.last - q) as usize;
        After::from(front, back, skipped)
    }
}

// Drops texts from the front until one more fits beside them and they have at most `room` bytes.
// Gives the bytes that are left.
fn make_room(texts: &mut HeapCircularBuffer<Payload>, mut bytes: usize, room: usize) -> usize
    requires counted { bytes ≡ sum_by length texts.old.items }
    requires holds { 0 < texts.old.capacity }
    ensures kept { texts.new ≡ buffer (longest_suffix (texts.old.capacity - 1) room texts.old.items) texts.old.capacity }
    ensures counted { result ≡ sum_by length texts.new.items }
    ensures within { result ≤ room }
{
    while texts.len() == texts.capacity() || room < bytes {
        let Some(text) = texts.pop_front() else {
            break;
        };
        bytes -= text.len();
    }
    bytes
}
