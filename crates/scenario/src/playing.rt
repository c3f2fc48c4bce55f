//! Plays a step file from a source to a sink.
ghost use Rattle.std.specs.Prelude.{◌≡◌, [], true, OnOk, MatchResult};
ghost use Rattle.world_law.specs.TheLaw.{TheLaw};
ghost use Rattle.scenario.specs.Played.{PlaysAll, PlaysTo, PlayCause};

use crate::fault::PlayFault;
use crate::file_runner::FileRunner;
use gate_outside::piece::Piece;
use gate_outside::streams::{Sink, Source};
use std::alloc::Global;
use world_law::the_law;

// Plays a step file on a sink where nothing waits.
fn play_on<S: Source, K: Sink>(alloc: Global, source: &mut S, sink: &mut K) -> Result<(), PlayFault>
    requires { K.waits sink.old ≡ [] }
    ensures plays { MatchResult result
        (λ _. PlaysAll (S.left source.old) (S.left source.new) (K.got sink.old) (K.got sink.new) [])
        (PlaysTo (S.left source.old) (S.left source.new) (K.got sink.old) (K.got sink.new) []) }
    ensures none { OnOk result (K.waits sink.new ≡ []) }
    ensures ended { OnOk result (S.ended source.new ≡ true) }
    ensures cause { PlayCause (S.faults source.old) (S.faults source.new) (K.faults sink.old) (K.faults sink.new) result }
{
    let mut piece = Piece::new(alloc)?;
    let mut play = FileRunner::new(alloc);
    piece.fill(source)?;
    while !piece.bytes().is_empty() {
        play.feed(sink, piece.bytes())?;
        piece.fill(source)?;
    }
    play.finish(sink)
}

/// Plays a step file on four workers, from its source to its end, and writes its transcript: a line
/// for each text that goes out, for each edit that is refused, and for a line that is refused, which
/// ends the play. Each line is offered to the sink with its line feed as one piece. What waits there
/// goes out first, before each read, at the end, and at a fault but for a write that failed.
///
/// With `Ok` the sink got what waited there before and the transcript of the whole file. After `Read`
/// it got the first and the transcript of the whole lines that were read, after `Line` that of the
/// file, which ends with the line that was refused, and else a front of all this.
pub fn play<S: Source, K: Sink>(
    alloc: Global,
    source: &mut S,
    sink: &mut K,
) -> Result<(), PlayFault>
    ensures plays { MatchResult result
        (λ _. PlaysAll (S.left source.old) (S.left source.new) (K.got sink.old) (K.got sink.new) (K.waits sink.old))
        (PlaysTo (S.left source.old) (S.left source.new) (K.got sink.old) (K.got sink.new) (K.waits sink.old)) }
    ensures none { OnOk result (K.waits sink.new ≡ []) }
    ensures ended { OnOk result (S.ended source.new ≡ true) }
    ensures cause { PlayCause (S.faults source.old) (S.faults source.new) (K.faults sink.old) (K.faults sink.new) result }
    ensures law { TheLaw }
{
    the_law();
    sink.flush()?;
    play_on(alloc, source, sink)
}
