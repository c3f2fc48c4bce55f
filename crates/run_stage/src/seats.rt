//! The seats of the parts of a run at its stop flag.

ghost use Rattle.std.specs.Prelude.{◌≡◌, ◌<◌, ◌∷◌, length, IfOk};
ghost use Rattle.run_stage.specs.Seats.{HasSeats};

use crate::dealing::take_next;
use std::alloc::{AllocError, Global};
use std::collections::VecDeque;
use stop_flag::{StopFlag, StopSeat};

/// The keeper of a stop flag, and the seats that are left.
pub struct Seats {
    /// The keeper.
    pub keeper: StopFlag,
    /// The seats that are left, in order.
    pub left: VecDeque<StopSeat>,
}

// One call drops them, so that no crate above proves the drop of what they hold again.
impl Drop for Seats {
    fn drop(self) {
        let Seats { keeper, left } = self;
        drop(keeper);
        drop(left);
    }
}

impl Seats {
    /// All seats of a flag that is not set.
    ///
    /// # Errors
    /// Out of memory.
    pub fn all(alloc: Global, count: u8) -> Result<Seats, AllocError>
        ensures { IfOk result (HasSeats count 0 count) }
    {
        let (keeper, seats) = StopFlag::make(alloc, count)?;
        Ok(Seats {
            keeper,
            left: VecDeque::from(seats),
        })
    }

    /// Takes the next of the seats that are left. It does not allocate.
    pub fn take_next(&mut self) -> StopSeat
        requires { 0 < length self.old.left.items }
        ensures keeper { self.new.keeper ≡ self.old.keeper }
        ensures left { self.old.left.items ≡ result ∷ self.new.left.items }
    {
        take_next(&mut self.left)
    }

    /// The keeper. The seats that are left are dropped. It does not allocate.
    pub fn into_keeper(self) -> StopFlag
        ensures { result ≡ self.keeper }
    {
        let Seats { keeper, left } = self;
        drop(left);
        keeper
    }
}
