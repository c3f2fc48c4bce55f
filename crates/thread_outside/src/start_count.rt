//! The numbers of a spawner.
ghost use Rattle.std.specs.Prelude.{◌≡◌};
ghost use Rattle.gate_outside.specs.Spawners.{no_starts, after_start, after_finish};

use std::marker::Model;

/// How many starts a spawner was asked for, how many finishes, and how many starts after a finish.
/// Each count stays at its last value.
#[derive(Drop)]
pub struct StartCount {
    asked: u64,
    finished: u64,
    late: u64,
}

impl Model for StartCount {
    ghost use Rattle.gate_outside.specs.Spawners.{Starts};

    ghost Value = { Starts };

    ghost view = { λ c. record {
      asked = c.asked;
      finished = c.finished;
      late = c.late;
    } };
}

impl StartCount {
    /// Nothing was asked for yet.
    pub fn new() -> StartCount
        ensures { result ≡ no_starts }
    {
        StartCount {
            asked: 0,
            finished: 0,
            late: 0,
        }
    }

    /// Counts a start.
    pub fn start(&mut self)
        ensures { self.new ≡ after_start self.old }
    {
        self.asked = self.asked.saturating_add(1);
        if self.finished > 0 {
            self.late = self.late.saturating_add(1);
        }
    }

    /// Counts a finish.
    pub fn finish(&mut self)
        ensures { self.new ≡ after_finish self.old }
    {
        self.finished = self.finished.saturating_add(1);
    }
}
