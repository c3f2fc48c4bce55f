//! Where bytes come from, and where they go.
ghost use Rattle.std.specs.Prelude.{◌≡◌, ◌<◌, ◌≤◌, ◌++◌, ℕ, List, Bool, [], length, take, IfOk, OnOk, OnErr};
ghost use Rattle.std.specs.declared.option.Option.{Option};
ghost use Rattle.std.specs.Io.{ReadsAtMost};
ghost use Rattle.std.specs.Io.KnownBytes.{Appends, ReadConsumes};
ghost use Rattle.gate_outside.specs.Causes.{HasCause, FaultHasCause};
ghost use Rattle.gate_outside.specs.Streams.{EndsOnce, Carries, CarriesPart, Takes};

use crate::faults::{Failed, Fault};

/// A source of bytes that counts its faults.
pub trait Source {
    /// The bytes that are left, where the source tells.
    ghost left: { Self → Option (List ℕ) };

    /// Whether a read has found the end of input.
    ghost ended: { Self → Bool };

    /// How often it has failed. The count stays at its last value.
    ghost faults: { Self → ℕ };

    /// Reads the next bytes that are left into the front of the piece, and says how many they are.
    /// 0 for a piece that is not empty is the end of input, and every later read gives 0.
    fn read(&mut self, into: &mut [u8]) -> Result<usize, Failed>
        ensures bound { ReadsAtMost result into.new }
        ensures bytes { ReadConsumes (left self.old) (left self.new) result into.new }
        ensures end { EndsOnce (ended self.old) (ended self.new) result into.new }
        ensures cause { HasCause (faults self.old) (faults self.new) result };
}

/// A sink of bytes that counts its faults. What it takes may wait before it goes out.
pub trait Sink {
    /// The bytes that went out, where the sink tells.
    ghost got: { Self → Option (List ℕ) };

    /// The bytes that it took, and that have not gone out yet.
    ghost waits: { Self → List ℕ };

    /// How often it has failed. The count stays at its last value.
    ghost faults: { Self → ℕ };

    /// Takes the first bytes of the piece, and says how many it took: at least one of a piece that is
    /// not empty. A refusal takes none, and no byte that waits is lost.
    fn write(&mut self, from: &[u8]) -> Result<usize, Fault>
        ensures bound { IfOk result (λ n. n ≤ length from.now) }
        ensures some { IfOk result (λ n. 0 < length from.now → 0 < n) }
        ensures bytes { Takes (got self.old) (got self.new) (waits self.old) (waits self.new)
            result from.now }
        ensures cause { FaultHasCause (faults self.old) (faults self.new) result };

    /// Lets all that waits go out. After a refusal a front of it did, and the rest waits.
    fn flush(&mut self) -> Result<(), Fault>
        ensures ok { OnOk result (Appends (got self.old) (got self.new) (waits self.old)) }
        ensures none { OnOk result (waits self.new ≡ []) }
        ensures err { OnErr result
            (Carries (got self.old) (got self.new) (waits self.new) (waits self.old)) }
        ensures cause { FaultHasCause (faults self.old) (faults self.new) result };
}

// Offers the bytes to the sink, and then again the rest that was not taken, until all are taken or the
// sink refuses. It says how many were taken.
pub(crate) fn offer<K: Sink>(sink: &mut K, bytes: &[u8]) -> (usize, Result<(), Fault>)
    ensures bound { result.0 ≤ length bytes.now }
    ensures all { OnOk result.1 (result.0 ≡ length bytes.now) }
    ensures some { OnErr result.1 (result.0 < length bytes.now) }
    ensures bytes { Carries (K.got sink.old) (K.got sink.new) (K.waits sink.new)
        (K.waits sink.old ++ take result.0 bytes.now) }
    ensures cause { FaultHasCause (K.faults sink.old) (K.faults sink.new) result.1 }
{
    let mut taken = 0;
    while taken < bytes.len() {
        match sink.write(&bytes[taken..]) {
            Ok(count) => taken += count,
            Err(fault) => return (taken, Err(fault)),
        }
    }
    (taken, Ok(()))
}

/// Offers the piece to the sink, and then again the rest that was not taken, until the whole is taken
/// or the sink refuses. After a refusal the sink took a front of the piece, and not the whole.
pub fn write_all<K: Sink>(sink: &mut K, piece: &[u8]) -> Result<(), Fault>
    ensures ok { OnOk result (Carries (K.got sink.old) (K.got sink.new) (K.waits sink.new)
        (K.waits sink.old ++ piece.now)) }
    ensures err { OnErr result (CarriesPart (K.got sink.old) (K.got sink.new)
        (K.waits sink.old) (K.waits sink.new) piece.now) }
    ensures cause { FaultHasCause (K.faults sink.old) (K.faults sink.new) result }
{
    offer(sink, piece).1
}
