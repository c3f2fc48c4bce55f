//! Bytes go out.

ghost use Rattle.std.specs.Prelude.{◌≡◌, ◌≤◌, ◌++◌, [], length, drop, OnOk};
ghost use Rattle.std.specs.Io.KnownBytes.{Appends};
ghost use Rattle.gate_outside.specs.Causes.{FaultHasCause};
ghost use Rattle.gate_outside.specs.Streams.{Carries};

use gate_outside::faults::Fault;
use gate_outside::streams::Sink;

// Removes so many bytes at the front.
fn remove_front(bytes: &mut Vec<u8>, count: usize)
    requires { count ≤ length bytes.old.items }
    ensures { bytes.new.items ≡ drop count bytes.old.items }
{
    bytes.drain(..count);
}

/// Writes all bytes that wait here, and lets them go out. What the sink does not take still waits here.
///
/// # Errors
/// `Failed` only if the sink failed, and out of memory. A front of the bytes was taken then.
pub fn write_out<K: Sink>(waiting: &mut Vec<u8>, sink: &mut K) -> Result<(), Fault>
    ensures bytes { Carries (K.got sink.old) (K.got sink.new) (K.waits sink.new ++ waiting.new.items)
        (K.waits sink.old ++ waiting.old.items) }
    ensures none { OnOk result (waiting.new.items ≡ []) }
    ensures gone { OnOk result (K.waits sink.new ≡ []) }
    ensures cause { FaultHasCause (K.faults sink.old) (K.faults sink.new) result }
{
    while !waiting.is_empty() {
        let count = sink.write(waiting.as_slice())?;
        remove_front(waiting, count);
    }
    sink.flush()
}
