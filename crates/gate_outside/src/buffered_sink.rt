//! A sink with a buffer, which passes small pieces on in large ones.
ghost use Rattle.std.specs.Prelude.{◌≡◌, ◌+◌, ◌<◌, ◌≤◌, ◌++◌, [], length, drop, Ok, IfOk, OnOk, vec_capacity};
ghost use Rattle.gate_outside.specs.Causes.{FaultHasCause};
ghost use Rattle.gate_outside.specs.Streams.{Carries, Takes};
ghost use Rattle.gate_outside.specs.BufferedSinks.{waits_of};
ghost use Rattle.gate_outside.specs.declared.buffered_sink.TheConstants.{BUFFER_BYTES};

use crate::faults::Fault;
use crate::streams::{Sink, offer};
use std::alloc::{AllocError, Global};
use std::marker::Model;

/// The most bytes that wait in a buffer.
pub const BUFFER_BYTES: usize = 65_536;

/// A buffer before another sink. A piece that fits waits there; one that does not lets all that waits
/// go on first. Its memory is made once, so no write allocates but that of the other sink.
#[derive(Drop)]
pub struct BufferedSink<K: Sink + Drop> {
    sink: K,
    buffer: Vec<u8>,
}

impl<K: Sink + Drop> Model for BufferedSink<K> {
    ghost use Rattle.std.specs.Prelude.{◌≡◌, ◌≤◌, length, vec_capacity};
    ghost use Rattle.gate_outside.specs.BufferedSinks.{BufferedState};
    ghost use Rattle.gate_outside.specs.declared.buffered_sink.TheConstants.{BUFFER_BYTES};

    ghost Value = { BufferedState };

    ghost view = { λ s. record {
      got = K.got s.sink;
      behind = K.waits s.sink;
      held = s.buffer.items;
      faults = K.faults s.sink;
    } };

    ghost invariant = { λ s. (length s.buffer.items ≤ BUFFER_BYTES) × (BUFFER_BYTES ≤ vec_capacity s.buffer) };
}

// Removes so many bytes at the front; most often all, which costs nothing.
fn remove_front(bytes: &mut Vec<u8>, count: usize)
    requires { count ≤ length bytes.old.items }
    ensures items { bytes.new.items ≡ drop count bytes.old.items }
    ensures capacity { vec_capacity bytes.new ≡ vec_capacity bytes.old }
{
    if count == bytes.len() {
        bytes.clear();
        return;
    }
    bytes.drain(..count);
}

impl<K: Sink + Drop> BufferedSink<K> {
    /// An empty buffer before that sink.
    pub fn new(alloc: Global, sink: K) -> Result<BufferedSink<K>, AllocError>
        ensures { IfOk result (λ s. s ≡ record {
          got = K.got sink;
          behind = K.waits sink;
          held = [];
          faults = K.faults sink;
        }) }
    {
        Ok(BufferedSink {
            sink,
            buffer: Vec::with_capacity(alloc, BUFFER_BYTES)?,
        })
    }

    /// The sink behind the buffer.
    pub fn sink(&self) -> &K
        ensures got { K.got result.now ≡ self.now.got }
        ensures waits { K.waits result.now ≡ self.now.behind }
        ensures faults { K.faults result.now ≡ self.now.faults }
    {
        &self.sink
    }

    /// The bytes that wait in the buffer.
    pub fn held(&self) -> &[u8]
        ensures { result.now ≡ self.now.held }
    {
        self.buffer.as_slice()
    }

    // Takes a piece that fits, and says how many bytes it has.
    fn hold(&mut self, piece: &[u8]) -> usize
        requires { length self.old.held + length piece.now ≤ BUFFER_BYTES }
        ensures count { result ≡ length piece.now }
        ensures held { self.new ≡ record self.old { held = self.old.held ++ piece.now } }
    {
        let Ok(()) = self.buffer.extend_from_slice(piece) else {
            unreachable!()
        };
        piece.len()
    }

    // Lets what the buffer holds go on. What the sink behind it refuses stays.
    fn pass_on(&mut self) -> Result<(), Fault>
        ensures bytes { Carries self.old.got self.new.got (waits_of self.new) (waits_of self.old) }
        ensures none { OnOk result (self.new.held ≡ []) }
        ensures cause { FaultHasCause self.old.faults self.new.faults result }
    {
        let (count, passed) = offer(&mut self.sink, self.buffer.as_slice());
        remove_front(&mut self.buffer, count);
        passed
    }

    // Passes a piece on that is larger than the buffer.
    fn pass_by(&mut self, piece: &[u8]) -> Result<usize, Fault>
        requires { self.old.held ≡ [] }
        ensures bound { IfOk result (λ n. n ≤ length piece.now) }
        ensures some { IfOk result (λ n. 0 < length piece.now → 0 < n) }
        ensures bytes { Takes self.old.got self.new.got (waits_of self.old) (waits_of self.new) result piece.now }
        ensures cause { FaultHasCause self.old.faults self.new.faults result }
    {
        self.sink.write(piece)
    }
}

impl<K: Sink + Drop> Sink for BufferedSink<K> {
    ghost got = { λ s. s.got };

    ghost waits = { waits_of };

    ghost faults = { λ s. s.faults };

    fn write(&mut self, from: &[u8]) -> Result<usize, Fault>
        ensures bound { IfOk result (λ n. n ≤ length from.now) }
        ensures some { IfOk result (λ n. 0 < length from.now → 0 < n) }
        ensures bytes { Takes self.old.got self.new.got (waits_of self.old) (waits_of self.new) result from.now }
        ensures cause { FaultHasCause self.old.faults self.new.faults result }
        ensures holds { length self.old.held + length from.now ≤ BUFFER_BYTES
            → (result ≡ Ok (length from.now)) × (self.new ≡ record self.old { held = self.old.held ++ from.now }) }
    {
        if from.len() <= BUFFER_BYTES - self.buffer.len() {
            return Ok(self.hold(from));
        }
        self.pass_on()?;
        if from.len() <= BUFFER_BYTES {
            return Ok(self.hold(from));
        }
        self.pass_by(from)
    }

    fn flush(&mut self) -> Result<(), Fault> {
        self.pass_on()?;
        self.sink.flush()
    }
}
