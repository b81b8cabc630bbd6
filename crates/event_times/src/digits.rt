// Numbers of a fixed count of digits.
ghost use Rattle.std.specs.Prelude.{◌≡◌, ◌<◌, ◌≤◌, ◌^◌, IfSome};
ghost use Rattle.event_times.specs.Digits as spec;
ghost use Rattle.event_times.specs.Digits.{as_front};

/// The number that exactly so many digits in front write, up to nine, and what is left.
pub(crate) fn digits(count: usize, text: &[u8]) -> Option<(u32, &[u8])>
    requires { count ≤ 9 }
    ensures value { as_front result ≡ spec.digits_in count text.now }
    ensures within { IfSome result (λ found. found.0 < 10 ^ count) }
{
    let mut number = 0u32;
    let mut rest = text;
    let mut left = count;
    while left > 0 {
        let Some((first, behind)) = rest.split_first() else {
            return None;
        };
        if !first.is_ascii_digit() {
            return None;
        }
        number = 10 * number + u32::from(*first - b'0');
        rest = behind;
        left -= 1;
    }
    Some((number, rest))
}
