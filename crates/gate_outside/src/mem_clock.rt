//! A clock in memory.
ghost use Rattle.std.specs.Prelude.{◌≡◌, ◌<◌, Some, IfOk, vec_len};
ghost use Rattle.std.specs.List.Sorted.{IsNonDecreasing};
ghost use Rattle.std.specs.Option.{option_map};

use crate::clocks::Clock;
use std::alloc::{AllocError, Global};
use std::marker::Model;

/// A clock in memory. It answers the moments that it was made from, then the last of them again.
#[derive(Drop)]
pub struct MemClock {
    moments: Vec<u64>,
    answers: usize,
    latest: u64,
}

impl Model for MemClock {
    ghost use Rattle.std.specs.Prelude.{◌<◌, ◌≤◌, Some, length};
    ghost use Rattle.std.specs.List.Sorted.{IsNonDecreasing};
    ghost use Rattle.gate_outside.specs.Clocks.{ClockTale, moment_at};

    ghost Value = { ClockTale };

    ghost view = { λ c. record {
      latest = c.latest;
      moments = Some (record {
        moments = c.moments.items;
        answers = c.answers;
      });
    } };

    ghost invariant = { λ c. (0 < length c.moments.items) × IsNonDecreasing c.moments.items × (c.latest ≤ moment_at c.moments.items c.answers) };
}

impl MemClock {
    /// A clock of these moments in milliseconds, at least one, which never fall.
    pub fn new(moments: Vec<u64>) -> MemClock
        requires some { 0 < vec_len moments }
        requires order { IsNonDecreasing moments.items }
        ensures { result ≡ record {
          latest = 0;
          moments = Some (record {
            moments = moments.items;
            answers = 0;
          });
        } }
    {
        MemClock {
            moments,
            answers: 0,
            latest: 0,
        }
    }

    /// A clock of the same moments, before its first answer.
    pub fn again(&self, alloc: Global) -> Result<MemClock, AllocError>
        ensures { IfOk result (λ c. (c.latest ≡ 0)
            × (c.moments ≡ option_map (λ m. record { moments = m.moments; answers = 0 }) self.now.moments)) }
    {
        let moments = self.moments.as_slice().to_vec(alloc)?;
        Ok(MemClock {
            moments,
            answers: 0,
            latest: 0,
        })
    }

    /// How many answers it has given. The count stays at its last value.
    pub fn answers(&self) -> usize
        ensures { Some result ≡ option_map (λ m. m.answers) self.now.moments }
    {
        self.answers
    }
}

impl Clock for MemClock {
    ghost tale = { λ c. c };

    fn now_ms(&mut self) -> u64 {
        let last = self.moments.len() - 1;
        let moment = self.moments[self.answers.min(last)];
        self.answers = self.answers.saturating_add(1);
        self.latest = moment;
        moment
    }

    fn pause(&mut self) {}
}
