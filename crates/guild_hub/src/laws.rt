//! What holds of what readers have seen. These functions do nothing.

ghost use Rattle.guild_hub.specs.Logs.{Published, GoesOn};
ghost use Rattle.guild_hub.specs.Sights.{Segment, Fits};

/// What a reader has seen of a log, also before its last rebase, stays a part of the log.
pub fn seen_stays_a_part()
    ensures { (s : Segment) (earlier later : Published) → Fits s earlier → GoesOn earlier later → Fits s later }
{}
