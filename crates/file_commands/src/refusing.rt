//! What is told if the words are not in the grammar.

ghost use Rattle.std.specs.Prelude.{◌≡◌, ◌++◌, OnOk, OnErr};
ghost use Rattle.std.specs.Io.KnownBytes.{Appends};
ghost use Rattle.gate_outside.specs.Causes.{FaultHasCause};
ghost use Rattle.gate_outside.specs.Streams.{AppendsFront};
ghost use Rattle.file_commands.specs.Usage.{usage, TellsUsage};

use crate::statuses::usage_status;
use gate_outside::faults::Fault;
use gate_outside::streams::{Sink, write_all};

/// The words that the command takes.
pub const USAGE: &str =
    "usage: gate run FILE | serve PORT WORKERS ACCEPTS FILES | client URL TOKEN INTENTS COUNT | load SEED | lift FILE\n";

// Writes the usage line, and lets it go out.
fn write_usage<K: Sink>(sink: &mut K) -> Result<(), Fault>
    ensures ok { OnOk result (Appends (K.got sink.old) (K.got sink.new) (K.waits sink.old ++ usage)) }
    ensures err { OnErr result (AppendsFront (K.got sink.old) (K.got sink.new) (K.waits sink.old ++ usage)) }
    ensures cause { FaultHasCause (K.faults sink.old) (K.faults sink.new) result }
{
    write_all(sink, USAGE.as_bytes())?;
    sink.flush()
}

/// Tells how to call the program, and answers the exit status.
pub fn refuse<K: Sink>(sink: &mut K) -> u8
    ensures { TellsUsage (K.got sink.old) (K.got sink.new) (K.waits sink.old) (K.faults sink.old) (K.faults sink.new) result }
{
    usage_status(write_usage(sink))
}
