//! A date of the calendar.

/// A date of the Gregorian calendar, from the year 0 on; the month and the day count from 1.
#[derive(Clone, Copy, Debug)]
pub struct Civil {
    pub year: u16,
    pub month: u16,
    pub day: u16,
}
