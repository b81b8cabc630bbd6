// The civil parts of a time, and the moment that they mean.
ghost use Rattle.std.specs.Prelude.{◌≡◌, ◌≤◌, ◌<◌, ◌^◌, IfSome, option_and_then};
ghost use Rattle.jiff_core.specs.Calendar.{IsEpochDay};
ghost use Rattle.event_times.specs.Moments as spec;
ghost use Rattle.event_times.specs.Reading as read;

use crate::item::TimeField;
use jiff_core::civil::{Date, DateTime};
use plain_data::Instant;

/// The parts of a time, as a text writes them: a civil date and a time of day, and the offset from UTC at which a clock
/// shows them.
#[derive(Clone, Copy)]
pub struct TimeParts {
    /// None where the text writes no year.
    pub year: Option<u32>,
    pub month: u32,
    pub day: u32,
    pub hour: u32,
    pub minute: u32,
    pub second: u32,
    /// The nanoseconds of the second.
    pub nanos: u32,
    /// In seconds, positive east of Greenwich; none where the text writes none.
    pub offset: Option<i32>,
}

/// The nanoseconds of one unit of the last of so many decimals.
const SCALES: [u32; 10] = [
    1_000_000_000,
    100_000_000,
    10_000_000,
    1_000_000,
    100_000,
    10_000,
    1000,
    100,
    10,
    1,
];

impl TimeParts {
    /// Before any item of a format: 1 January at midnight.
    pub const START: TimeParts = TimeParts {
        year: None,
        month: 1,
        day: 1,
        hour: 0,
        minute: 0,
        second: 0,
        nanos: 0,
        offset: None,
    };

    /// The moment that the parts mean, with this offset in seconds where they have none. It is none exactly where they
    /// have no year, where the proleptic Gregorian calendar of ISO 8601 has no such date, where the time of day has
    /// hour 24 or more, minute 60 or more or second 60 or more, or where the moment is outside the years 0001 to 9999.
    pub fn moment(&self, offset: i32) -> Option<Instant>
        ensures { result ≡ spec.moment_of self.now offset }
    {
        let Some(shown) = self.shown() else {
            return None;
        };
        Instant::from_nanos(shown - i128::from(self.offset_or(offset)) * 1_000_000_000)
    }

    pub(crate) fn with_year(self, year: u32) -> TimeParts
        ensures { result ≡ read.with_year year self }
    {
        let mut parts = self;
        parts.year = Some(year);
        parts
    }

    pub(crate) fn with_offset(self, offset: i32) -> TimeParts
        ensures { result ≡ read.with_offset offset self }
    {
        let mut parts = self;
        parts.offset = Some(offset);
        parts
    }

    pub(crate) fn with_field(self, field: TimeField, number: u32) -> TimeParts
        ensures { result ≡ read.with_field field number self }
    {
        let mut parts = self;
        match field {
            TimeField::Month => parts.month = number,
            TimeField::Day => parts.day = number,
            TimeField::Hour => parts.hour = number,
            TimeField::Minute => parts.minute = number,
            TimeField::Second => parts.second = number,
        }
        parts
    }

    /// With the decimals of the second that so many digits write.
    pub(crate) fn with_decimals(self, count: usize, number: u32) -> TimeParts
        requires few { count ≤ 9 }
        requires within { number < 10 ^ count }
        ensures { result ≡ read.with_decimals count number self }
    {
        let mut parts = self;
        parts.nanos = number * SCALES[count];
        parts
    }

    /// The offset, or this one where there is none.
    fn offset_or(&self, offset: i32) -> i32
        ensures { result ≡ spec.offset_or offset self.now.offset }
    {
        match self.offset {
            Some(own) => own,
            None => offset,
        }
    }

    /// The nanoseconds from 1970 to the date and time of day, on a clock without an offset.
    fn shown(&self) -> Option<i128>
        ensures value { result ≡ option_and_then (spec.shown_in self.now) self.now.year }
        ensures bound { IfSome result spec.IsShown }
    {
        let Some(year) = self.year else {
            return None;
        };
        let Some(day) = day_number(year, self.month, self.day) else {
            return None;
        };
        let Some(nanos) = self.clock() else {
            return None;
        };
        Some(i128::from(day) * 86_400_000_000_000 + i128::from(nanos))
    }

    /// The nanoseconds since midnight.
    fn clock(&self) -> Option<u64>
        ensures value { result ≡ spec.clock_of self.now }
        ensures bound { IfSome result (λ nanos. nanos < 86400000000000) }
    {
        if self.hour >= 24
            || self.minute >= 60
            || self.second >= 60
            || self.nanos >= 1_000_000_000
        {
            return None;
        }
        let seconds = self.hour * 3600 + self.minute * 60 + self.second;
        Some(u64::from(seconds) * 1_000_000_000 + u64::from(self.nanos))
    }
}

/// The day of a date, counted from 1970-01-01, if the calendar has it in the years 0 to 9999.
fn day_number(year: u32, month: u32, day: u32) -> Option<i32>
    ensures value { result ≡ spec.day_number year month day }
    ensures bound { IfSome result IsEpochDay }
{
    if year > 9999 || month > 12 || day > 31 {
        return None;
    }
    match Date::new(year as i16, month as i8, day as i8) {
        Ok(date) => Some(date.to_unix_epoch_day()),
        Err(_) => None,
    }
}

/// The year of a moment, in UTC.
pub fn year_of(moment: Instant) -> u32
    ensures { result ≡ spec.year_of moment }
{
    DateTime::from_nanosecond_in_range(moment.nanos())
        .date
        .year
        .unsigned_abs()
        .into()
}
