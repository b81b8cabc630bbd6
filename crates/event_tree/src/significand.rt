// The value of a decimal: its digits without the zeros at the end, and how many zeros there are.
ghost use Rattle.std.specs.Prelude.{◌≡◌, ◌≢◌, ◌≤◌, ◌<◌, ◌-◌, ◌++◌, length, slice_index, Some};
ghost use Rattle.event_tree.specs.NumberTexts.{AreDigits, AreTrimmed, HasZerosBehind, digit_count, number, tens};
ghost use Rattle.event_tree.specs.Paths.{at_most};

// How many digits there are without the zeros at the end.
fn count_without_zeros(digits: &[u8]) -> usize
    ensures within { result ≤ length digits.now }
    ensures zeros { HasZerosBehind digits.now result }
    ensures last { 0 < result → slice_index digits.now (result - 1) ≢ 48 }
{
    let mut count = digits.len();
    while count > 0 && digits[count - 1] == b'0' {
        count -= 1;
    }
    count
}

/// The number that the digits write behind those of `start`, if it is at most `limit`.
pub(crate) fn number_behind(start: u128, digits: &[u8], limit: u128) -> Option<u128>
    requires { start ≤ limit }
    ensures { result ≡ at_most limit (Some (number start digits.now)) }
{
    let mut value = start;
    for byte in digits {
        let digit = byte.saturating_sub(b'0') as u128;
        if value > limit / 10 || digit > limit - value * 10 {
            return None;
        }
        value = value * 10 + digit;
    }
    Some(value)
}

/// `value` times ten so many times, if it is at most `limit`.
pub(crate) fn raised(value: u128, zeros: u128, limit: u128) -> Option<u128>
    requires some { 0 < value }
    requires within { value ≤ limit }
    ensures { result ≡ at_most limit (Some (tens value zeros)) }
{
    let mut raised = value;
    let mut left = zeros;
    while left > 0 {
        if raised > limit / 10 {
            return None;
        }
        raised *= 10;
        left -= 1;
    }
    Some(raised)
}

/// The number that the digits of a whole number and those of a fraction write, one behind the other,
/// if it is at most `limit`.
pub(crate) fn number_of(whole: &[u8], fraction: &[u8], limit: u128) -> Option<u128>
    ensures { result ≡ at_most limit (Some (number 0 (whole.now ++ fraction.now))) }
{
    match number_behind(0, whole, limit) {
        Some(start) => number_behind(start, fraction, limit),
        None => None,
    }
}

/// The digits of a whole number and of a fraction without the zeros at the end of both.
pub(crate) fn trimmed<'t>(whole: &'t [u8], fraction: &'t [u8]) -> (&'t [u8], &'t [u8])
    requires whole { AreDigits whole.now }
    requires fraction { AreDigits fraction.now }
    ensures shorter { digit_count result.0.now result.1.now ≤ digit_count whole.now fraction.now }
    ensures significand { AreTrimmed whole.now fraction.now result.0.now result.1.now }
{
    let count = count_without_zeros(fraction);
    if count > 0 {
        (whole, &fraction[..count])
    } else {
        (&whole[..count_without_zeros(whole)], &fraction[..0])
    }
}
