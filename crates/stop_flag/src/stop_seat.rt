//! A part's seat at a flag.
ghost use Rattle.std.specs.Prelude.{◌≡◌, ℕ, true, false, MatchBool};
ghost use Rattle.stop_flag.specs.Flags.{after_set, after_look, after_finding, after_join, WasNotSet};
ghost use Rattle.stop_flag.specs.Ended.{IsFair};

use crate::flags::{self, FlagSeat, Flags};
use crate::stop_flag::StopFlag;
use std::alloc::Global;
use std::marker::Model;
use std::sync::Arc;

/// The seat of one part at a flag, which one thread holds at a time. A clause sees it as its flag, its
/// number, whether it has set the flag, by which seat it has found it set, and how often it has looked.
pub struct StopSeat {
    pub(crate) flags: Arc<Flags, Global>,
    pub(crate) seat: FlagSeat,
    pub(crate) number: u8,
}

impl Drop for StopSeat {
    fn drop(self) {
        let StopSeat {
            flags,
            seat,
            number: _,
        } = self;
        drop(flags);
        drop(seat);
    }
}

impl Model for StopSeat {
    ghost use Rattle.stop_flag.specs.Flags.{SeatState};
    ghost use Rattle.stop_flag.specs.Inside.{seat_of, IsSeat};

    ghost Value = { SeatState };

    ghost view = { seat_of };

    ghost invariant = { IsSeat };
}

impl StopSeat {
    /// Sets the flag. It stays set. The call does not allocate.
    pub fn set(&mut self)
        ensures { self.new ≡ after_set self.old }
    {
        flags::set(&self.flags, &mut self.seat, self.number);
    }

    /// Whether the flag is set. If it is, a seat that has set it is known from then on; if it is not, it
    /// was not set at one step of this call. The call does not allocate.
    pub fn is_set(&mut self) -> bool
        ensures { MatchBool result
            ((by : ℕ) × (self.new ≡ after_finding self.old by))
            ((self.new ≡ after_look self.old) × WasNotSet self.new) }
    {
        flags::find(&self.flags, &mut self.seat) != 0
    }

    // Ends the seat; the keeper knows from then on what it told.
    pub(crate) fn join(self, keeper: &mut StopFlag)
        requires { self.flag ≡ keeper.old.flag }
        ensures joined { keeper.new ≡ after_join keeper.old self }
        ensures fair { IsFair keeper.new.seats keeper.new.ended }
    {
        let StopSeat {
            flags,
            seat,
            number: _,
        } = self;
        drop(flags);
        flags::settle(&keeper.flags, &mut keeper.seat, seat);
    }

    /// The seat's number, from 0. The call does not allocate.
    pub fn number(&self) -> u8
        ensures { result ≡ self.now.number }
    {
        self.number
    }
}
