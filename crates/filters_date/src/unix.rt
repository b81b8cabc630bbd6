// Moments written as numbers of units of time since 1970.
ghost use Rattle.std.specs.Prelude.{◌≡◌, ◌≤◌, ◌^◌, ◌*ℤ◌, pos};
ghost use Rattle.filters_date.specs.Dates as spec;

use event_tree::Number;
use plain_data::Instant;

/// The moment so many units of time after 1970, or before it, where ten to the power `places` nanoseconds are one unit. None
/// where the number has more decimals than `places`, and Some(None) where the moment is outside the years 0001 to 9999.
pub(crate) fn units(number: Number, places: u8) -> Option<Option<Instant>>
    requires { places ≤ 9 }
    ensures { result ≡ spec.units places number }
{
    if number.scale() > places {
        return None;
    }
    Some(Instant::from_nanos(raised(number.mantissa(), places - number.scale())))
}

/// The number times ten to this power.
fn raised(number: i64, power: u8) -> i128
    requires { power ≤ 9 }
    ensures { result ≡ number *ℤ pos (10 ^ power) }
{
    let number = i128::from(number);
    match power {
        0 => number,
        1 => number * 10,
        2 => number * 100,
        3 => number * 1000,
        4 => number * 10_000,
        5 => number * 100_000,
        6 => number * 1_000_000,
        7 => number * 10_000_000,
        8 => number * 100_000_000,
        _ => number * 1_000_000_000,
    }
}
