//! A moment in milliseconds since 1970.

ghost use Rattle.std.specs.Prelude.{◌≡◌, ◌↔◌, ◌<◌, ◌≤◌, IfOk, IsErr};
ghost use Rattle.guild_model.specs.declared.moment.TheConstants.{END_OF_TIME};

use std::marker::Model;

/// The first millisecond of 9999-01-01, with which the moments end.
pub const END_OF_TIME: u64 = 253_370_764_800_000;

/// A moment in milliseconds since 1970, before 9999-01-01 (API Reference, ISO8601 Date/Time).
#[derive(Clone, Copy, PartialEq, Eq, PartialOrd, Ord, Debug)]
pub struct Moment(u64);

impl Model for Moment {
    ghost use Rattle.std.specs.Prelude.{ℕ, ◌<◌};
    ghost use Rattle.guild_model.specs.declared.moment.TheConstants.{END_OF_TIME};

    ghost Value = { ℕ };

    ghost view = { λ m. m.0 };

    ghost invariant = { λ m. m.0 < END_OF_TIME };

    ghost inverse = { λ millis. record { 0 = millis } };
}

/// The milliseconds are at the end of the moments or past it.
#[derive(Clone, Copy, PartialEq, Eq, Debug)]
pub struct BadMoment;

impl Moment {
    /// The moment of these milliseconds since 1970.
    pub fn of_millis(millis: u64) -> Result<Moment, BadMoment>
        ensures value { IfOk result (λ m. m ≡ millis) }
        ensures refused { IsErr result ↔ (END_OF_TIME ≤ millis) }
    {
        if millis < END_OF_TIME {
            Ok(Moment(millis))
        } else {
            Err(BadMoment)
        }
    }

    /// The milliseconds since 1970.
    pub fn millis(self) -> u64
        ensures value { result ≡ self }
        ensures within { result < END_OF_TIME }
    {
        self.0
    }
}
