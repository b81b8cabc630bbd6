// The text of a moment by RFC 3339.
ghost use Rattle.std.specs.Prelude.{◌≡◌, ◌+◌, ◌/◌, ◌%◌, ◌<◌, ◌≤◌, ◌≤ℤ◌, pos, unsigned_abs, take};
ghost use Rattle.plain_data.specs.Calendar.{IsMoment};
ghost use Rattle.event_json.specs.TimeText.{digit, date_text, clock_text, nine_digits, decimals_of, time_text_of, moment_in};

use jiff_core::civil::{Date, DateTime, Time};
use plain_data::Instant;

/// The text of an instant: a date-time of RFC 3339, section 5.6, in UTC, as
/// `2024-01-01T00:00:00.000Z`, with three, six or nine decimals, the least that hold its
/// nanoseconds. The answer is a buffer and how many of its bytes count: 24, 27 or 30. Read as a date-time, the text
/// names the instant again.
pub fn time_text(moment: Instant) -> ([u8; 30], usize)
    ensures text { take result.1 result.0 ≡ time_text_of moment }
    ensures within { result.1 ≤ 30 }
    ensures reads_back { moment_in (take result.1 result.0) ≡ moment }
    ensures moment { IsMoment moment }
{
    let shown = DateTime::from_nanosecond_in_range(moment.nanos());
    let nanos = shown.time.subsec_nanosecond;
    let mut text = [b'T'; 30];
    text[..10].copy_from_slice(&date_bytes(&shown.date));
    text[11..19].copy_from_slice(&clock_bytes(&shown.time));
    text[19] = b'.';
    text[20..29].copy_from_slice(&fraction_bytes(nanos));
    let decimals = decimals(nanos);
    text[20 + decimals] = b'Z';
    (text, 21 + decimals)
}

fn date_bytes(date: &Date) -> [u8; 10]
    requires { pos 1 ≤ℤ date.now.year }
    ensures { result ≡ date_text (unsigned_abs date.now.year) date.now.month date.now.day }
{
    let year = date.year.unsigned_abs() as u32;
    let month = date.month as u32;
    let day = date.day as u32;
    [
        digit_at(1000, year),
        digit_at(100, year),
        digit_at(10, year),
        digit_at(1, year),
        b'-',
        digit_at(10, month),
        digit_at(1, month),
        b'-',
        digit_at(10, day),
        digit_at(1, day),
    ]
}

fn clock_bytes(time: &Time) -> [u8; 8]
    ensures { result ≡ clock_text time.now.hour time.now.minute time.now.second }
{
    let hour = time.hour as u32;
    let minute = time.minute as u32;
    let second = time.second as u32;
    [
        digit_at(10, hour),
        digit_at(1, hour),
        b':',
        digit_at(10, minute),
        digit_at(1, minute),
        b':',
        digit_at(10, second),
        digit_at(1, second),
    ]
}

fn fraction_bytes(nanos: u32) -> [u8; 9]
    ensures { result ≡ nine_digits nanos }
{
    [
        digit_at(100_000_000, nanos),
        digit_at(10_000_000, nanos),
        digit_at(1_000_000, nanos),
        digit_at(100_000, nanos),
        digit_at(10_000, nanos),
        digit_at(1000, nanos),
        digit_at(100, nanos),
        digit_at(10, nanos),
        digit_at(1, nanos),
    ]
}

/// How many decimals hold the nanoseconds.
fn decimals(nanos: u32) -> usize
    ensures value { result ≡ decimals_of nanos }
    ensures within { result ≤ 9 }
{
    if nanos % 1_000_000 == 0 {
        3
    } else if nanos % 1000 == 0 {
        6
    } else {
        9
    }
}

/// The digit at a place, which is a power of ten.
fn digit_at(place: u32, n: u32) -> u8
    requires { 0 < place }
    ensures { result ≡ digit place n }
{
    b'0' + (n / place % 10) as u8
}
