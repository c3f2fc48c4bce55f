//! How a part uses its seat at the stop flag.
ghost use Rattle.std.specs.Prelude.{false};
ghost use Rattle.gate_parts.specs.Seats.{SeatEnds};

use stop_flag::StopSeat;

/// Whether another part has set the flag. The call does not allocate.
pub(crate) fn finds_stop(seat: &mut StopSeat) -> bool
    ensures { SeatEnds false result seat.old seat.new }
{
    seat.is_set()
}

/// Sets the flag if the part has failed. The call does not allocate.
pub(crate) fn set_after(seat: &mut StopSeat, failed: bool)
    ensures { SeatEnds failed false seat.old seat.new }
{
    if failed {
        seat.set();
    }
}
