// Moments in UTC, by the calendar.
ghost use Rattle.std.specs.Prelude.{◌≤◌, MatchOption};
ghost use Rattle.monitor_rule.specs.Moments.{IsAt};

use jiff_core::civil::DateTime;

/// A moment in UTC, to the thousandth of a second. Months and days count from 1.
#[derive(Clone, Copy, Debug, PartialEq, Eq)]
pub struct Moment {
    pub year: u16,
    pub month: u8,
    pub day: u8,
    pub hour: u8,
    pub minute: u8,
    pub second: u8,
    pub millisecond: u16,
}

impl Moment {
    /// The moment that comes so many seconds after the beginning of 1970, without leap seconds, and so many
    /// thousandths. None once the year 9999 has passed. Takes no memory.
    pub fn at(seconds: u64, millisecond: u16) -> Option<Moment>
        ensures { MatchOption result (253402300800 ≤ seconds) (IsAt seconds millisecond) }
    {
        match DateTime::from_nanosecond(seconds as i128 * 1_000_000_000) {
            Ok(shown) => Some(Moment {
                year: shown.date.year.unsigned_abs(),
                month: shown.date.month,
                day: shown.date.day,
                hour: shown.time.hour,
                minute: shown.time.minute,
                second: shown.time.second,
                millisecond,
            }),
            Err(_) => None,
        }
    }
}
