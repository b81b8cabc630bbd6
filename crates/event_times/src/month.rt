// English names of months, long and short.
ghost use Rattle.std.specs.Prelude.{◌≡◌, ◌≤◌, ◌↔◌, IsTrue, length, map};
ghost use Rattle.event_times.specs.Digits.{as_front};
ghost use Rattle.event_times.specs.Reading as spec;

/// The number of the month whose English name stands in front, in any case, and what is left.
pub(crate) fn long_month(text: &[u8]) -> Option<(u32, &[u8])>
    ensures { as_front result ≡ spec.named_in 1 spec.month_names text.now }
{
    named(
        &[
            "january",
            "february",
            "march",
            "april",
            "may",
            "june",
            "july",
            "august",
            "september",
            "october",
            "november",
            "december",
        ],
        text,
    )
}

/// The same by the first three letters of its name.
pub(crate) fn short_month(text: &[u8]) -> Option<(u32, &[u8])>
    ensures { as_front result ≡ spec.named_in 1 spec.short_names text.now }
{
    named(
        &[
            "jan", "feb", "mar", "apr", "may", "jun", "jul", "aug", "sep", "oct", "nov", "dec",
        ],
        text,
    )
}

/// The place, from 1, of the first of the names that stands in front, in any case, and what is left.
fn named<'a>(names: &[&str], text: &'a [u8]) -> Option<(u32, &'a [u8])>
    requires { length names.now ≤ 12 }
    ensures { as_front result ≡ spec.named_in 1 (map (λ name. name.now) names.now) text.now }
{
    let mut number = 1u32;
    for name in names {
        let bytes = name.as_bytes();
        let (front, rest) = text.split_at(bytes.len().min(text.len()));
        if front.eq_ignore_ascii_case(bytes) {
            return Some((number, rest));
        }
        number += 1;
    }
    None
}
