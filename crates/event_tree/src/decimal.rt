// The parts of a number's text, as JSON has them (RFC 8259, section 6).
ghost use Rattle.std.specs.Prelude.{◌≡◌, ◌≤◌, take, drop, length, IfSome};
ghost use Rattle.std.specs.Option.{option_map};
ghost use Rattle.event_tree.specs.NumberTexts.{AreDigits, digits_front, digits_behind, split_minus as minus_split, split_sign as sign_split, is_whole as whole, fraction_of as the_fraction, exponent_of as the_exponent, decimal_of};
ghost use Rattle.event_tree.specs.DecimalViews.{as_decimal};

/// The digits before the point, those behind it, and those of the exponent, which is negative where
/// `lower` says so.
#[derive(Clone, Copy)]
pub(crate) struct Digits<'t> {
    pub(crate) negative: bool,
    pub(crate) whole: &'t [u8],
    pub(crate) fraction: &'t [u8],
    pub(crate) lower: bool,
    pub(crate) exponent: &'t [u8],
}

// How many digits stand in front.
fn count_digits(bytes: &[u8]) -> usize
    ensures within { result ≤ length bytes.now }
    ensures front { take result bytes.now ≡ digits_front bytes.now }
    ensures behind { drop result bytes.now ≡ digits_behind bytes.now }
{
    for (index, byte) in bytes.iter().enumerate() {
        if *byte < b'0' || b'9' < *byte {
            return index;
        }
    }
    bytes.len()
}

// The digits in front, and what is behind them.
#[tactic(auto, using(crate::proofs::DigitRuns::front_are_digits))]
fn split_digits(bytes: &[u8]) -> (&[u8], &[u8])
    ensures digits { AreDigits result.0.now }
    ensures front { result.0.now ≡ digits_front bytes.now }
    ensures behind { result.1.now ≡ digits_behind bytes.now }
{
    bytes.split_at(count_digits(bytes))
}

fn split_minus(bytes: &[u8]) -> (bool, &[u8])
    ensures { (result.0, result.1.now) ≡ minus_split bytes.now }
{
    match bytes.split_first() {
        None => (false, bytes),
        Some((first, rest)) => {
            if *first == b'-' {
                (true, rest)
            } else {
                (false, bytes)
            }
        }
    }
}

fn split_sign(bytes: &[u8]) -> (bool, &[u8])
    ensures { (result.0, result.1.now) ≡ sign_split bytes.now }
{
    match bytes.split_first() {
        None => (false, bytes),
        Some((first, rest)) => {
            if *first == b'+' {
                (false, rest)
            } else {
                split_minus(bytes)
            }
        }
    }
}

fn is_whole(digits: &[u8]) -> bool
    ensures { result ≡ whole digits.now }
{
    !digits.is_empty() && (digits.len() == 1 || digits[0] != b'0')
}

fn fraction_of(bytes: &[u8]) -> Option<(&[u8], &[u8])>
    ensures digits { IfSome result (λ f. AreDigits f.0.now) }
    ensures parts { option_map (λ f. (f.0.now, f.1.now)) result ≡ the_fraction bytes.now }
{
    match bytes.split_first() {
        None => Some((bytes, bytes)),
        Some((first, rest)) => {
            if *first != b'.' {
                return Some((&bytes[..0], bytes));
            }
            let (digits, behind) = split_digits(rest);
            if digits.is_empty() {
                return None;
            }
            Some((digits, behind))
        }
    }
}

fn exponent_of(bytes: &[u8]) -> Option<(bool, &[u8])>
    ensures { option_map (λ e. (e.0, e.1.now)) result ≡ the_exponent bytes.now }
{
    match bytes.split_first() {
        None => Some((false, bytes)),
        Some((first, rest)) => {
            if *first != b'e' && *first != b'E' {
                return None;
            }
            let (lower, unsigned) = split_sign(rest);
            let (digits, behind) = split_digits(unsigned);
            if digits.is_empty() || !behind.is_empty() {
                return None;
            }
            Some((lower, digits))
        }
    }
}

/// The parts of a text that is a number.
pub(crate) fn digits_of(text: &[u8]) -> Option<Digits<'_>>
    ensures digits { IfSome result (λ d. AreDigits d.whole.now × AreDigits d.fraction.now) }
    ensures parts { option_map as_decimal result ≡ decimal_of text.now }
{
    let (negative, unsigned) = split_minus(text);
    let (whole, behind) = split_digits(unsigned);
    if !is_whole(whole) {
        return None;
    }
    let (fraction, rest) = fraction_of(behind)?;
    let (lower, exponent) = exponent_of(rest)?;
    Some(Digits {
        negative,
        whole,
        fraction,
        lower,
        exponent,
    })
}
