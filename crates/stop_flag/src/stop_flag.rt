//! The keeper of a flag, who makes its seats and takes them back.
ghost use Rattle.std.specs.Prelude.{◌≡◌, ℕ, ◌<◌, Some, length, slice_get, IfOk};
ghost use Rattle.stop_flag.specs.Flags.{new_keeper, new_seat, with_seat, after_join};
ghost use Rattle.stop_flag.specs.Ended.{IsFair};

use crate::flags::{self, FlagSeat, Flags};
use crate::stop_seat::StopSeat;
use std::alloc::{AllocError, Global};
use std::marker::Model;
use std::sync::Arc;

/// The keeper of a flag. A clause sees it as its flag, how many seats it has, and what those told that
/// have ended.
#[derive(Drop)]
pub struct StopFlag {
    pub(crate) flags: Arc<Flags, Global>,
    pub(crate) seat: FlagSeat,
}

impl Model for StopFlag {
    ghost use Rattle.stop_flag.specs.Flags.{KeeperState};
    ghost use Rattle.stop_flag.specs.Inside.{keeper_of, IsKeeper};

    ghost Value = { KeeperState };

    ghost view = { keeper_of };

    ghost invariant = { IsKeeper };
}

impl StopFlag {
    /// A flag that is not set, with so many seats, in order.
    ///
    /// # Errors
    /// Out of memory.
    pub fn make(alloc: Global, seats: u8) -> Result<(StopFlag, Vec<StopSeat>), AllocError>
        ensures keeper { IfOk result (λ r. r.0 ≡ new_keeper r.0.flag seats) }
        ensures seats { IfOk result (λ r. (length r.1.items ≡ seats) × ((n : ℕ) → n < seats → slice_get r.1.items n ≡ Some (new_seat r.0.flag n))) }
    {
        let (flags, seat) = flags::open(alloc)?;
        let flags = Arc::new(alloc, flags)?;
        let mut keeper = StopFlag { flags, seat };
        let mut made = Vec::new(alloc);
        for number in 0..seats {
            made.push(keeper.admit(number)?)?;
        }
        Ok((keeper, made))
    }

    // Makes the next seat, which has this number.
    fn admit(&mut self, number: u8) -> Result<StopSeat, AllocError>
        requires { self.old.seats ≡ number }
        ensures keeper { IfOk result (λ _. self.new ≡ with_seat self.old) }
        ensures seat { IfOk result (λ seat. seat ≡ new_seat self.old.flag number) }
    {
        let flags = Arc::try_clone(&self.flags)?;
        let seat = flags::admit(&self.flags, &mut self.seat);
        Ok(StopSeat {
            flags,
            seat,
            number,
        })
    }

    /// Takes back the seat of a part that has ended. What the ended seats tell fits: where one has found
    /// the flag set by another, that one has set it. The call does not allocate.
    pub fn join(&mut self, seat: StopSeat)
        requires { seat.flag ≡ self.old.flag }
        ensures joined { self.new ≡ after_join self.old seat }
        ensures fair { IsFair self.new.seats self.new.ended }
    {
        seat.join(self);
    }
}
