//! Reads a printed moment.

ghost use Rattle.std.specs.Prelude.{ℕ, ◌≡◌, ◌<◌, ◌↔◌, ◌+◌, ◌-◌, ◌*◌, ◌%◌, pos, Some, IsOk, IfOk, IfSome, length, slice_index};
ghost use Rattle.guild_model.specs.declared.moment.TheConstants.{END_OF_TIME};
ghost use Rattle.jiff.specs.Words.{IsDate, IsYmd, IsTime, IsHms};
ghost use Rattle.moment_text.specs.Text.{time_text};
ghost use Rattle.moment_text.specs.Named.{two_at, year_at, milliseconds_at, moment_of};

use crate::writing::moment_text;
use guild_model::Moment;
use jiff::civil::{Date, Time};
use jiff::tz::Offset;
use jiff::{Error, Timestamp};
use std::alloc::{AllocError, Global};

// The digit that a byte is; some digit where it is none.
fn digit(byte: u8) -> u8
    ensures value { result ≡ (byte - 48) % 10 }
    ensures within { result < 10 }
{
    byte.saturating_sub(48) % 10
}

fn two_at(bytes: &[u8], index: usize) -> u8
    requires { index + 1 < length bytes.now }
    ensures value { result ≡ two_at bytes.now index }
    ensures within { result < 100 }
{
    digit(bytes[index]) * 10 + digit(bytes[index + 1])
}

fn year_at(bytes: &[u8]) -> i16
    requires { length bytes.now ≡ 32 }
    ensures { result ≡ pos (year_at bytes.now) }
{
    i16::from(two_at(bytes, 0)) * 100 + i16::from(two_at(bytes, 2))
}

fn milliseconds_at(bytes: &[u8]) -> i32
    requires { length bytes.now ≡ 32 }
    ensures value { result ≡ pos (milliseconds_at bytes.now) }
    ensures within { milliseconds_at bytes.now < 1000 }
{
    i32::from(digit(bytes[20])) * 100 + i32::from(two_at(bytes, 21))
}

fn date_at(bytes: &[u8]) -> Result<Date, Error>
    requires { length bytes.now ≡ 32 }
    ensures succeeds { IsOk result ↔ IsDate (pos (year_at bytes.now)) (pos (two_at bytes.now 5)) (pos (two_at bytes.now 8)) }
    ensures value { IfOk result (IsYmd (pos (year_at bytes.now)) (pos (two_at bytes.now 5)) (pos (two_at bytes.now 8))) }
{
    Date::new(
        year_at(bytes),
        two_at(bytes, 5) as i8,
        two_at(bytes, 8) as i8,
    )
}

fn time_at(bytes: &[u8]) -> Result<Time, Error>
    requires { length bytes.now ≡ 32 }
    ensures succeeds { IsOk result ↔ IsTime (pos (two_at bytes.now 11)) (pos (two_at bytes.now 14)) (pos (two_at bytes.now 17)) (pos (milliseconds_at bytes.now * 1_000_000)) }
    ensures value { IfOk result (IsHms (pos (two_at bytes.now 11)) (pos (two_at bytes.now 14)) (pos (two_at bytes.now 17)) (pos (milliseconds_at bytes.now * 1_000_000))) }
{
    Time::new(
        two_at(bytes, 11) as i8,
        two_at(bytes, 14) as i8,
        two_at(bytes, 17) as i8,
        milliseconds_at(bytes) * 1_000_000,
    )
}

fn moment_at(instant: Timestamp) -> Option<Moment>
    ensures value { (m : ℕ) → m < END_OF_TIME → instant.nanosecond ≡ pos (m * 1_000_000) → result ≡ Some m }
    ensures within { IfSome result (λ m. m < END_OF_TIME) }
{
    let Ok(millis) = u64::try_from(instant.as_millisecond()) else {
        return None;
    };
    match Moment::of_millis(millis) {
        Ok(moment) => Some(moment),
        Err(_) => None,
    }
}

// The one moment whose text the bytes can be, by their digits alone.
fn candidate(bytes: &[u8]) -> Option<Moment>
    ensures value { (m : ℕ) → m < END_OF_TIME → bytes.now ≡ time_text m → result ≡ Some m }
    ensures within { IfSome result (λ m. m < END_OF_TIME) }
{
    if bytes.len() != 32 {
        return None;
    }
    let Ok(date) = date_at(bytes) else {
        return None;
    };
    let Ok(time) = time_at(bytes) else {
        return None;
    };
    let Ok(instant) = Offset::UTC.to_timestamp(date.to_datetime(time)) else {
        return None;
    };
    moment_at(instant)
}

/// The moment whose text this is, as [`moment_text`] writes it, and nothing for any other text.
pub fn moment_of(alloc: Global, text: &str) -> Result<Option<Moment>, AllocError>
    ensures { IfOk result (λ moment. moment ≡ moment_of text.now) }
{
    let Some(moment) = candidate(text.as_bytes()) else {
        return Ok(None);
    };
    let written = moment_text(alloc, moment)?;
    if written.as_str() == text {
        Ok(Some(moment))
    } else {
        Ok(None)
    }
}
