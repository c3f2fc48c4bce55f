//! A clock whose pauses a bell ends.
ghost use Rattle.std.specs.Prelude.{◌≡◌};

use gate_outside::clocks::Clock;
use gate_outside::machine_clock::PAUSE_MS;
use std::sync::Wait;
use std::time::Duration;
use wake_bell::Bell;

/// A clock that answers what another one does. Its pauses are not those of that clock: one ends when a
/// bell is rung, or has been since the last pause.
pub(crate) struct BellClock<'a, C, R> {
    clock: C,
    rt: &'a R,
    bell: &'a Bell,
    heard: u64,
}

impl<'a, C, R> BellClock<'a, C, R> {
    /// That clock, with the pauses of this bell.
    pub(crate) fn new(clock: C, rt: &'a R, bell: &'a Bell) -> BellClock<'a, C, R>
        ensures { result.clock ≡ clock }
    {
        BellClock {
            clock,
            rt,
            bell,
            heard: bell.heard(),
        }
    }

    /// The clock that answers.
    pub(crate) fn into_clock(self) -> C
        ensures { result ≡ self.entry.clock }
    {
        let BellClock {
            clock,
            rt: _,
            bell: _,
            heard: _,
        } = self;
        clock
    }
}

impl<'a, C: Clock, R: Wait> Clock for BellClock<'a, C, R> {
    ghost tale = { λ b. C.tale b.clock };

    fn now_ms(&mut self) -> u64 {
        self.clock.now_ms()
    }

    fn pause(&mut self) {
        self.bell
            .rest(self.rt, self.heard, Duration::from_millis(PAUSE_MS));
        self.heard = self.bell.heard();
    }
}
