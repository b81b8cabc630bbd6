//! Numbers, sizes and ids.

ghost use Rattle.std.specs.Prelude.{◌≡◌, ◌≤◌, ◌<◌, ◌-◌, length, slice_index, IfSome, IfNone};
ghost use Rattle.std.specs.List.{list_all, position};
ghost use Rattle.std.specs.Char.{is_ascii_digit};
ghost use Rattle.settings_lines.specs.Numbers as spec;

/// The most bytes that a size names: 1,024 GiB.
const MAX_SIZE: u64 = 1_099_511_627_776;

/// The number that decimal digits without a sign write, where it lies from `low` to `high`.
pub fn number_in(text: &str, low: u64, high: u64) -> Option<u64>
    ensures value { result ≡ spec.number_in low high text.now }
    ensures within { IfSome result (λ number. (low ≤ number) × (number ≤ high)) }
{
    if !are_digits(text.as_bytes()) {
        return None;
    }
    let Ok(number) = text.parse::<u64>() else {
        return None;
    };
    if low <= number && number <= high {
        Some(number)
    } else {
        None
    }
}

pub(crate) fn are_digits(bytes: &[u8]) -> bool
    ensures { result ≡ list_all is_ascii_digit bytes.now }
{
    bytes.iter().all(|byte| byte.is_ascii_digit())
}

/// The same of a number of 32 bits.
pub fn small_number_in(text: &str, low: u32, high: u32) -> Option<u32>
    ensures { result ≡ spec.number_in low high text.now }
{
    match number_in(text, u64::from(low), u64::from(high)) {
        Some(number) => Some(number as u32),
        None => None,
    }
}

/// The bytes that a size names, where there are at least `low` and at most 1,024 GiB: digits, and behind them `b`,
/// `kb`, `mb`, `gb` or nothing, in steps of 1,024.
pub(crate) fn size_in(text: &str, low: u64) -> Option<u64>
    ensures { result ≡ spec.size_in low text.now }
{
    let (digits, unit) = text.split_at(digits_len(text.as_bytes()));
    let unit = unit_of(unit)?;
    let count = number_in(digits, 0, MAX_SIZE)?;
    match count.checked_mul(unit) {
        Some(size) if low <= size && size <= MAX_SIZE => Some(size),
        _ => None,
    }
}

/// How many digits stand in front.
fn digits_len(bytes: &[u8]) -> usize
    ensures value { result ≡ spec.digits_len bytes.now }
    ensures within { result ≤ length bytes.now }
    ensures digit { 0 < result → slice_index bytes.now (result - 1) < 128 }
{
    match first_other(bytes) {
        Some(at) => at,
        None => bytes.len(),
    }
}

/// The first byte that is no digit.
fn first_other(bytes: &[u8]) -> Option<usize>
    ensures value { result ≡ position spec.is_other bytes.now }
    ensures within { IfSome result (λ at. at ≤ length bytes.now) }
    ensures digit { IfSome result (λ at. 0 < at → slice_index bytes.now (at - 1) < 128) }
    ensures none { IfNone result
        (0 < length bytes.now → slice_index bytes.now (length bytes.now - 1) < 128) }
{
    bytes.iter().position(|byte| !byte.is_ascii_digit())
}

/// The bytes of a unit.
fn unit_of(name: &str) -> Option<u64>
    ensures { result ≡ spec.unit_of name.now }
{
    match name {
        "" | "b" => Some(1),
        "kb" => Some(1024),
        "mb" => Some(1_048_576),
        "gb" => Some(1_073_741_824),
        _ => None,
    }
}

/// Whether a text is an id: 1 to 64 letters of ASCII, digits, `_` and `-`.
pub fn is_id(text: &str) -> bool
    ensures { result ≡ spec.is_id text.now }
{
    !text.is_empty() && text.len() <= 64 && are_in_id(text.as_bytes())
}

fn are_in_id(bytes: &[u8]) -> bool
    ensures { result ≡ list_all spec.is_in_id bytes.now }
{
    bytes.iter().all(|byte| is_in_id(*byte))
}

fn is_in_id(byte: u8) -> bool
    ensures { result ≡ spec.is_in_id byte }
{
    byte.is_ascii_alphanumeric() || byte == b'_' || byte == b'-'
}
