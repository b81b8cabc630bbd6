// Moments written by ISO 8601.
ghost use Rattle.std.specs.Prelude.{◌≡◌};
ghost use Rattle.event_times.specs.Iso8601 as spec;

use crate::item::{TimeField, TimeItem};
use crate::moment::TimeParts;
use crate::reading::read_time;
use plain_data::Instant;

/// The moment that a text of ISO 8601 names, at this offset from UTC, in seconds, where it has none of its own. It is none
/// exactly where [`iso8601_parts`] reads none of the text, or they mean no moment.
pub fn read_iso8601(text: &str, offset: i32) -> Option<Instant>
    ensures { result ≡ spec.iso_moment offset text.now }
{
    iso8601_parts(text)?.moment(offset)
}

/// The parts of a text of ISO 8601: a date as `2024-01-31`, `T` or a blank, hours and minutes as `23:59`, and then, each of
/// them or not, seconds as `:59`, one to nine decimals of the second behind `.` or `,`, and `Z` or an offset as `+02:00` or
/// `+0200`. It is none exactly where the text is none such; whether the calendar has the date is not asked here.
pub fn iso8601_parts(text: &str) -> Option<TimeParts>
    ensures { result ≡ spec.iso_parts text.now }
{
    read_time(
        &[
            TimeItem::Year,
            TimeItem::Plain(b'-'),
            TimeItem::Two(TimeField::Month),
            TimeItem::Plain(b'-'),
            TimeItem::Two(TimeField::Day),
            TimeItem::Mark,
            TimeItem::Two(TimeField::Hour),
            TimeItem::Plain(b':'),
            TimeItem::Two(TimeField::Minute),
            TimeItem::MaybeSecond,
            TimeItem::MaybeFraction,
            TimeItem::MaybeZone,
        ],
        text,
    )
}
