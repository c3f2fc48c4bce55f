//! Prints a moment.

ghost use Rattle.std.specs.Prelude.{◌≡◌, ◌<◌, ◌≤ℤ◌, ◌++◌, ◌*◌, ◌/◌, ◌%◌, pos, IfOk, OnOk, string_bytes, codes};
ghost use Rattle.jiff.specs.Words.{civil_nanos};
ghost use Rattle.jiff_core.specs.Time.{time_seconds};
ghost use Rattle.moment_text.specs.Text.{date_text, clock_text, three, time_text};
ghost use Rattle.moment_text.specs.Shown.{date_shown, IsShort};

use crate::civil::Civil;
use crate::digits::{push_four, push_three, push_two};
use guild_model::Moment;
use jiff::Timestamp;
use jiff::civil::DateTime;
use jiff::tz::Offset;
use std::alloc::{AllocError, Global};

// What a clock at UTC shows at a moment.
fn shown(moment: Moment) -> DateTime
    ensures { civil_nanos result ≡ pos (moment * 1_000_000) }
{
    let instant = Timestamp::from_millisecond(moment.millis() as i64).unwrap();
    Offset::UTC.to_datetime(instant)
}

fn date_of(at: DateTime) -> Civil
    requires { pos 0 ≤ℤ at.date.year }
    ensures value { result ≡ date_shown at.date }
    ensures within { IsShort result }
{
    Civil {
        year: at.year() as u16,
        month: at.month() as u16,
        day: at.day() as u16,
    }
}

fn milliseconds(at: DateTime) -> u16
    ensures value { result ≡ at.time.subsec_nanosecond / 1_000_000 }
    ensures within { result < 1000 }
{
    at.millisecond() as u16
}

fn push_date(text: &mut String, date: Civil) -> Result<(), AllocError>
    requires { IsShort date }
    ensures { OnOk result (string_bytes text.new ≡ string_bytes text.old ++ date_text date) }
{
    push_four(text, date.year)?;
    text.push_str("-")?;
    push_two(text, date.month)?;
    text.push_str("-")?;
    push_two(text, date.day)?;
    Ok(())
}

fn push_clock(text: &mut String, at: DateTime) -> Result<(), AllocError>
    ensures { OnOk result (string_bytes text.new ≡ string_bytes text.old ++ clock_text (time_seconds at.time)) }
{
    push_two(text, at.hour() as u16)?;
    text.push_str(":")?;
    push_two(text, at.minute() as u16)?;
    text.push_str(":")?;
    push_two(text, at.second() as u16)?;
    Ok(())
}

fn push_fraction(text: &mut String, milliseconds: u16) -> Result<(), AllocError>
    requires { milliseconds < 1000 }
    ensures { OnOk result (string_bytes text.new ≡ string_bytes text.old ++ (codes "." ++ (three milliseconds ++ codes "000+00:00"))) }
{
    text.push_str(".")?;
    push_three(text, milliseconds)?;
    text.push_str("000+00:00")?;
    Ok(())
}

/// The text of a moment, in UTC: `2015-01-01T00:00:00.000000+00:00` (API Reference, ISO8601
/// Date/Time).
pub fn moment_text(alloc: Global, moment: Moment) -> Result<String, AllocError>
    ensures { IfOk result (λ text. string_bytes text ≡ time_text moment) }
{
    let at = shown(moment);
    let mut text = String::with_capacity(alloc, 32)?;
    push_date(&mut text, date_of(at))?;
    text.push_str("T")?;
    push_clock(&mut text, at)?;
    push_fraction(&mut text, milliseconds(at))?;
    Ok(text)
}
