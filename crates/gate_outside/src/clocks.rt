//! Clocks, which answer milliseconds.
ghost use Rattle.std.specs.Prelude.{◌≡◌, ℕ};
ghost use Rattle.gate_outside.specs.Clocks.{ClockTale, Ticks};

/// A clock, which answers milliseconds and never goes back.
pub trait Clock {
    /// What the clock tells: always its latest answer; where it can, also the moments that it was made
    /// from and how many answers it has given.
    ghost tale: { Self → ClockTale };

    /// The moment now, in milliseconds. It is never less than before.
    fn now_ms(&mut self) -> u64
        ensures { Ticks (tale self.old) (tale self.new) result };

    /// Gives up the processor for a moment.
    fn pause(&mut self)
        ensures { tale self.new ≡ tale self.old };
}
