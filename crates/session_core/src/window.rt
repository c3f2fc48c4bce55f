//! The rate limit of a connection (Gateway, Rate Limiting).

ghost use Rattle.std.specs.Prelude.{◌≡◌, [], IfOk};
ghost use Rattle.session_core.specs.Rate.{with_time, is_crowded};

use circular_buffer::HeapCircularBuffer;
use std::alloc::{AllocError, Global};
use std::marker::Model;

/// The most frames that a connection may send in a minute (Gateway, Rate Limiting).
const MAX_FRAMES: usize = 120;

/// The milliseconds in which they count.
const MINUTE_MS: u64 = 60_000;

/// The moments of the latest frames of a connection, seen as their list.
pub struct Window {
    times: HeapCircularBuffer<u64>,
}

impl Drop for Window {
    fn drop(self) {
        let Window { times } = self;
        drop(times);
    }
}

impl Model for Window {
    ghost use Rattle.std.specs.Prelude.{◌≡◌, ℕ, List};

    ghost Value = { List ℕ };

    ghost view = { λ w. w.times.items };

    ghost invariant = { λ w. w.times.capacity ≡ 120 };
}

impl Window {
    /// No frame.
    pub fn new(alloc: Global) -> Result<Window, AllocError>
        ensures { IfOk result (λ window. window ≡ []) }
    {
        Ok(Window {
            times: HeapCircularBuffer::with_capacity(alloc, MAX_FRAMES)?,
        })
    }

    /// Counts a frame.
    pub fn count_frame(&mut self, now: u64)
        ensures { self.new ≡ with_time now self.old }
    {
        self.times.push_back(now);
    }

    /// Whether another frame is one too many.
    #[tactic(auto, using(crate::proofs::Rates::crowded_is))]
    pub fn is_crowded(&self, now: u64) -> bool
        ensures { result ≡ is_crowded now self.now }
    {
        let Some(first) = self.times.front() else {
            return false;
        };
        self.times.len() == MAX_FRAMES && now.saturating_sub(*first) < MINUTE_MS
    }
}
