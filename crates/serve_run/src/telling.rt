//! Where the workers listen is told.

ghost use Rattle.serve_run.specs.Writes.{Tells};

use crate::fault::ServeFault;
use gate_ends::write_out;
use gate_outside::streams::Sink;

/// Writes the lines of the workers, if all parts were started, and lets them go out. It gives why they did not all
/// go out.
pub fn tell_workers<K: Sink>(started: bool, lines: &str, sink: &mut K) -> Option<ServeFault>
    ensures { Tells lines.now (K.got sink.old) (K.got sink.new) (K.waits sink.old) (K.waits sink.new) (K.faults sink.old) (K.faults sink.new) started result }
{
    if !started {
        return None;
    }
    match write_out(sink, lines) {
        Ok(()) => None,
        Err(fault) => Some(ServeFault::from(fault)),
    }
}
