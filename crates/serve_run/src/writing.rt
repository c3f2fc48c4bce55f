//! A text goes out, if there was memory to make it.

ghost use Rattle.serve_run.specs.Writes.{Puts};

use crate::fault::ServeFault;
use gate_ends::write_out;
use gate_outside::streams::Sink;
use std::alloc::AllocError;

/// Writes a text, if there was memory to make it, and lets all of it go out.
///
/// # Errors
/// Out of memory, or the sink failed.
pub fn put<K: Sink>(text: Result<String, AllocError>, sink: &mut K) -> Result<(), ServeFault>
    ensures { Puts text (K.got sink.old) (K.got sink.new) (K.waits sink.old) (K.faults sink.old) (K.faults sink.new) result }
{
    let text = text?;
    write_out(sink, text.as_str())?;
    Ok(())
}
