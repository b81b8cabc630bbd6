// Moments of UTC in the years 0001 to 9999, to the nanosecond.
ghost use Rattle.std.specs.Prelude.{◌≡◌, pos, SomeIff};
ghost use Rattle.plain_data.specs.Calendar.{IsMoment};

use std::marker::Model;

/// A moment of UTC, counted in nanoseconds from 1970-01-01T00:00:00Z.
///
/// It lies in the years 0001 to 9999 of the proleptic Gregorian calendar (ISO 8601; the years of
/// RFC 3339). Each day has 86,400 seconds: leap seconds are not counted. A contract sees the number
/// of nanoseconds, and `==`, `<` and `cmp` compare that number.
#[derive(Clone, Copy, Debug, PartialEq, Eq, PartialOrd, Ord, Hash)]
pub struct Instant {
    nanos: i128,
}

impl Model for Instant {
    ghost use Rattle.std.specs.Prelude.{ℤ};
    ghost use Rattle.std.specs.Coded.{coded_ℤ};
    ghost use Rattle.plain_data.specs.Calendar.{IsMoment};

    ghost Value = { ℤ };

    ghost coded = { coded_ℤ };

    ghost view = { λ a. a.nanos };

    ghost invariant = { λ a. IsMoment a.nanos };

    ghost inverse = { λ d. record { nanos = d } };
}

// 0001-01-01T00:00:00Z
const FIRST: i128 = -62_135_596_800_000_000_000;

// 9999-12-31T23:59:59.999999999Z
const LAST: i128 = 253_402_300_799_999_999_999;

impl Instant {
    /// 1970-01-01T00:00:00Z.
    pub fn epoch() -> Instant
        ensures { result ≡ pos 0 }
    {
        Instant { nanos: 0 }
    }

    /// The moment so many nanoseconds after 1970-01-01T00:00:00Z, or before it where the number is
    /// negative. It is None exactly where that moment is outside the years 0001 to 9999, whose first
    /// is -62,135,596,800 seconds and whose last is 253,402,300,799.999999999 seconds.
    pub fn from_nanos(nanos: i128) -> Option<Instant>
        ensures { SomeIff result (IsMoment nanos) nanos }
    {
        if FIRST <= nanos && nanos <= LAST {
            Some(Instant { nanos })
        } else {
            None
        }
    }

    /// The nanoseconds from 1970-01-01T00:00:00Z.
    pub fn nanos(&self) -> i128
        ensures value { result ≡ self.now }
        ensures moment { IsMoment self.now }
    {
        self.nanos
    }
}
