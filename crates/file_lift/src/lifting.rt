//! Lifts a step file from a source to a sink.
ghost use Rattle.std.specs.Prelude.{◌≡◌, [], ℕ, List, OnOk};
ghost use Rattle.std.specs.declared.option.Option.{Option};
ghost use Rattle.std.specs.Io.KnownBytes.{Appends};
ghost use Rattle.gate_outside.specs.Streams.{AppendsFront, Carries, CarriesFront};
ghost use Rattle.file_lift.specs.Lifting.{Lifts, LiftCause};

use crate::fault::LiftFault;
use crate::lifter::Lifter;
use gate_outside::faults::Fault;
use gate_outside::streams::{Sink, Source};
use std::alloc::Global;

// Lifts the lines of a source, to its end. What is written may wait in the sink.
fn lift_lines<S: Source, K: Sink>(
    alloc: Global,
    source: &mut S,
    sink: &mut K,
) -> Result<(), LiftFault>
    ensures lifts { Lifts (S.left source.old) (S.left source.new) (K.waits sink.old)
        (Carries (K.got sink.old) (K.got sink.new) (K.waits sink.new)) (CarriesFront (K.got sink.old) (K.got sink.new) (K.waits sink.new)) result }
    ensures cause { LiftCause (S.faults source.old) (S.faults source.new) (K.faults sink.old) (K.faults sink.new) result }
{
    let mut lifter = Lifter::new(alloc)?;
    while lifter.read_line(source)? {
        lifter.lift_line(sink)?;
    }
    lifter.lift_last(sink)
}

// Lets what waits go out, but not after a write that failed.
fn flush_after<K: Sink>(sink: &mut K, lifted: Result<(), LiftFault>) -> Result<(), LiftFault>
    ensures lifts { (left0 left1 got : Option (List ℕ)) (before : List ℕ)
        → Lifts left0 left1 before (Carries got (K.got sink.old) (K.waits sink.old)) (CarriesFront got (K.got sink.old) (K.waits sink.old)) lifted
        → Lifts left0 left1 before (Appends got (K.got sink.new)) (AppendsFront got (K.got sink.new)) result }
    ensures none { OnOk result (K.waits sink.new ≡ []) }
    ensures cause { (read0 read1 before : ℕ) → LiftCause read0 read1 before (K.faults sink.old) lifted → LiftCause read0 read1 before (K.faults sink.new) result }
{
    match lifted {
        Err(LiftFault::Write) => Err(LiftFault::Write),
        _ => match sink.flush() {
            Ok(()) => lifted,
            Err(Fault::Failed) => Err(LiftFault::Write),
            Err(Fault::Memory) => Err(LiftFault::Memory),
        },
    }
}

/// Writes each line of a step file in its newest version, from its source to its end, and an empty line for
/// a blank one. A line that a reader of `run` refuses ends it, and so does one whose text in its newest version
/// is longer than a line may be. What was lifted before has gone out then, with a line that says so, and also
/// if the source failed.
///
/// With `Ok` the sink got what waited there before and the whole lifted file, which says, line by line, what
/// the file says. After `Read` it got what is written of the whole lines that were read, after `Line` all with the
/// line that says why, and else a front of all this.
pub fn lift<S: Source, K: Sink>(
    alloc: Global,
    source: &mut S,
    sink: &mut K,
) -> Result<(), LiftFault>
    ensures lifts { Lifts (S.left source.old) (S.left source.new) (K.waits sink.old)
        (Appends (K.got sink.old) (K.got sink.new)) (AppendsFront (K.got sink.old) (K.got sink.new)) result }
    ensures none { OnOk result (K.waits sink.new ≡ []) }
    ensures cause { LiftCause (S.faults source.old) (S.faults source.new) (K.faults sink.old) (K.faults sink.new) result }
{
    let lifted = lift_lines(alloc, source, sink);
    flush_after(sink, lifted)
}
