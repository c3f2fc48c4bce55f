//! The machine's clock.
ghost use Rattle.std.specs.Prelude.{◌≡◌, None};

use crate::clocks::Clock;
use std::marker::Model;
use std::thread;
use std::time::{Clock as MachineTime, Duration};

/// How long a pause is, in milliseconds.
pub const PAUSE_MS: u64 = 1;

/// The machine's clock, which counts milliseconds from an arbitrary start. It answers the latest
/// moment again where the machine cannot be read or has gone back.
#[derive(Drop)]
pub struct MachineClock<R: MachineTime + Drop> {
    runtime: R,
    latest: u64,
}

impl<R: MachineTime + Drop> Model for MachineClock<R> {
    ghost use Rattle.std.specs.Prelude.{ℕ};

    ghost Value = { ℕ };

    ghost view = { λ c. c.latest };
}

impl<R: MachineTime + Drop> MachineClock<R> {
    /// A clock over that runtime, which has answered nothing.
    pub fn new(runtime: R) -> MachineClock<R>
        ensures { result ≡ 0 }
    {
        MachineClock { runtime, latest: 0 }
    }

    // What the machine says, in milliseconds.
    fn reading(&self) -> Option<u64> {
        let since_start = self.runtime.monotonic().ok()?;
        u64::try_from(since_start.as_millis()).ok()
    }
}

impl<R: MachineTime + Drop> Clock for MachineClock<R> {
    ghost tale = { λ c. record {
      latest = c;
      moments = None;
    } };

    fn now_ms(&mut self) -> u64 {
        if let Some(now) = self.reading() {
            self.latest = self.latest.max(now);
        }
        self.latest
    }

    fn pause(&mut self) {
        thread::sleep(&self.runtime, Duration::from_millis(PAUSE_MS));
    }
}
