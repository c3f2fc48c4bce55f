//! The law of a flag, as a function whose contract is the statement.

ghost use Rattle.std.specs.Prelude.{ℕ, List};
ghost use Rattle.stop_flag.specs.declared.seat_end.SeatEnd.{SeatEnd as AnEnd};
ghost use Rattle.stop_flag.specs.Ended.{IsFair, HaveEnded, NoneHasSet, NoneHasFound};

/// Where every seat has ended and none has set the flag, none has found it set.
pub fn nobody_stopped()
    ensures { (seats : ℕ) (ended : List AnEnd) → IsFair seats ended → HaveEnded seats ended → NoneHasSet ended → NoneHasFound ended }
{}
