//! A text goes out.

ghost use Rattle.std.specs.Prelude.{◌≡◌, ◌++◌, [], OnOk, OnErr};
ghost use Rattle.std.specs.Io.KnownBytes.{Appends};
ghost use Rattle.gate_outside.specs.Causes.{FaultHasCause};
ghost use Rattle.gate_outside.specs.Streams.{AppendsFront};

use gate_outside::faults::Fault;
use gate_outside::streams::{Sink, write_all};

/// Writes a text, after what waited before the sink, and lets all of it go out.
///
/// # Errors
/// `Failed` only if the sink failed, and out of memory. A front of what waited and of the text went out then.
pub fn write_out<K: Sink>(sink: &mut K, text: &str) -> Result<(), Fault>
    ensures ok { OnOk result (Appends (K.got sink.old) (K.got sink.new) (K.waits sink.old ++ text.now)) }
    ensures none { OnOk result (K.waits sink.new ≡ []) }
    ensures err { OnErr result (AppendsFront (K.got sink.old) (K.got sink.new) (K.waits sink.old ++ text.now)) }
    ensures cause { FaultHasCause (K.faults sink.old) (K.faults sink.new) result }
{
    write_all(sink, text.as_bytes())?;
    sink.flush()
}
