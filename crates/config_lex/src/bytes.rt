//! Lengths of the parts of which tokens are made.

ghost use Rattle.std.specs.Prelude.{◌≡◌, ◌+◌, ◌-◌, ◌≤◌, ◌<◌, false, true, drop, length, slice_index, suc, IfSome};
ghost use Rattle.config_lex.specs.Bytes as spec;
ghost use Rattle.config_lex.specs.Laws.{IsNumberText};
ghost use Rattle.event_tree.specs.NumberTexts as numbers;

use event_tree::Number;

pub(crate) fn is_blank(byte: u8) -> bool
    ensures { result ≡ spec.is_blank byte }
{
    byte == b' ' || byte == b'\t' || byte == b'\r' || byte == b'\n'
}

/// Whether a byte is a letter of ASCII or `_`, with which words begin.
pub fn is_letter(byte: u8) -> bool
    ensures { result ≡ spec.is_letter byte }
{
    (b'a' <= byte && byte <= b'z') || (b'A' <= byte && byte <= b'Z') || byte == b'_'
}

pub(crate) fn is_digit(byte: u8) -> bool
    ensures { result ≡ numbers.is_digit byte }
{
    b'0' <= byte && byte <= b'9'
}

/// Whether a word goes on with a byte: a letter, a digit, or a `-` where dashes may stand.
pub fn is_in_word(dashes: bool, byte: u8) -> bool
    ensures { result ≡ spec.is_in_word dashes byte }
{
    is_letter(byte) || is_digit(byte) || (dashes && byte == b'-')
}

fn is_in_part(byte: u8) -> bool
    ensures { result ≡ spec.is_in_part byte }
{
    !(byte == b'[' || byte == b']' || byte == b',' || byte == b'"' || byte == b'\'' || byte == b'#')
}

/// Whether `byte` stands at `at`.
pub(crate) fn begins_with(byte: u8, bytes: &[u8], at: usize) -> bool
    ensures { result ≡ spec.begins_with byte (drop at bytes.now) }
{
    at < bytes.len() && bytes[at] == byte
}

pub(crate) fn begins_digit(bytes: &[u8], at: usize) -> bool
    ensures { result ≡ spec.begins_digit (drop at bytes.now) }
{
    at < bytes.len() && is_digit(bytes[at])
}

/// What the bytes of a run have in common.
#[derive(Clone, Copy)]
pub(crate) enum ByteTest {
    /// A word goes on with them, in which dashes may stand or not.
    InWord(bool),
    IsDigit,
    /// They may stand in a part of a selector.
    InPart,
}

impl ByteTest {
    #[inline(always)]
    fn passes(self, byte: u8) -> bool
        ensures { result ≡ spec.passes self byte }
    {
        match self {
            ByteTest::InWord(dashes) => is_in_word(dashes, byte),
            ByteTest::IsDigit => is_digit(byte),
            ByteTest::InPart => is_in_part(byte),
        }
    }
}

/// The place behind the bytes that pass the test. It stands in line where it is called, so that each call runs the loop of its own test.
#[inline(always)]
pub(crate) fn run_end(test: ByteTest, bytes: &[u8], from: usize) -> usize
    requires { from ≤ length bytes.now }
    ensures end { result ≡ from + spec.passing (spec.passes test) (drop from bytes.now) }
    ensures within { result ≤ length bytes.now }
    ensures last { from < result → spec.passes test (slice_index bytes.now (result - 1)) ≡ true }
{
    for at in from..bytes.len() {
        if !test.passes(bytes[at]) {
            return at;
        }
    }
    bytes.len()
}

/// The place behind the bytes of a word.
pub(crate) fn word_end(bytes: &[u8], from: usize, dashes: bool) -> usize
    requires { from ≤ length bytes.now }
    ensures end { result ≡ from + spec.passing (spec.is_in_word dashes) (drop from bytes.now) }
    ensures some { spec.IsBehindLetter bytes.now from result }
    ensures within { result ≤ length bytes.now }
    ensures last { from < result → slice_index bytes.now (result - 1) < 128 }
{
    run_end(ByteTest::InWord(dashes), bytes, from)
}

/// The place behind the digits.
pub(crate) fn digits_end(bytes: &[u8], from: usize) -> usize
    requires { from ≤ length bytes.now }
    ensures end { result ≡ from + spec.passing numbers.is_digit (drop from bytes.now) }
    ensures some { spec.begins_digit (drop from bytes.now) ≡ true → from < result }
    ensures within { result ≤ length bytes.now }
    ensures last { from < result → slice_index bytes.now (result - 1) < 128 }
{
    run_end(ByteTest::IsDigit, bytes, from)
}

/// The place behind blanks and comments.
pub(crate) fn skip(bytes: &[u8], from: usize) -> usize
    requires { from ≤ length bytes.now }
    ensures end { result ≡ from + spec.skip false (drop from bytes.now) }
    ensures within { result ≤ length bytes.now }
{
    let mut inside = false;
    for at in from..bytes.len() {
        let byte = bytes[at];
        if inside {
            inside = byte != b'\n';
        } else if !is_blank(byte) {
            if byte != b'#' {
                return at;
            }
            inside = true;
        }
    }
    bytes.len()
}

/// The number of bytes from `from` to the byte that closes, which is none behind a backslash.
pub(crate) fn closing(bytes: &[u8], from: usize, close: u8) -> Option<usize>
    requires { from ≤ length bytes.now }
    ensures length { result ≡ spec.closing close false (drop from bytes.now) }
    ensures close { IfSome result (λ n. spec.HasByte close bytes.now (from + n)) }
{
    let mut escaped = false;
    for at in from..bytes.len() {
        let byte = bytes[at];
        if byte == close && !escaped {
            return Some(at - from);
        }
        escaped = byte == b'\\';
    }
    None
}

/// The length of the part of a selector in brackets at `at`.
pub(crate) fn part_length(bytes: &[u8], at: usize) -> Option<usize>
    ensures length { result ≡ spec.part_length (drop at bytes.now) }
    ensures front { IfSome result (λ n. slice_index bytes.now at ≡ 91) }
    ensures close { IfSome result (λ n. spec.HasByte 93 bytes.now (at + 1 + n)) }
{
    if at < bytes.len() && bytes[at] == b'[' {
        let end = run_end(ByteTest::InPart, bytes, at + 1);
        if end != at + 1 && begins_with(b']', bytes, end) {
            return Some(end - (at + 1));
        }
    }
    None
}

/// The place behind the whole digits of a number.
pub(crate) fn whole_end(bytes: &[u8], at: usize) -> usize
    requires { at ≤ length bytes.now }
    ensures end { result ≡ at + spec.whole_length (drop at bytes.now) }
    ensures within { result ≤ length bytes.now }
    ensures last { spec.EndsNumber bytes.now at result }
{
    if begins_with(b'-', bytes, at) {
        digits_end(bytes, at + 1)
    } else {
        digits_end(bytes, at)
    }
}

/// The place behind a number.
pub(crate) fn number_end(bytes: &[u8], at: usize) -> usize
    requires { at ≤ length bytes.now }
    ensures end { result ≡ at + spec.number_length (drop at bytes.now) }
    ensures within { result ≤ length bytes.now }
    ensures last { spec.EndsNumber bytes.now at result }
{
    let whole = whole_end(bytes, at);
    if begins_with(b'.', bytes, whole) && begins_digit(bytes, whole + 1) {
        digits_end(bytes, whole + 1)
    } else {
        whole
    }
}

/// Whether a number stands at `at`.
pub(crate) fn begins_number(bytes: &[u8], at: usize) -> bool
    ensures { result ≡ spec.begins_number (drop at bytes.now) }
{
    if begins_with(b'-', bytes, at) {
        begins_digit(bytes, at + 1)
    } else {
        begins_digit(bytes, at)
    }
}

/// The digits without the zeros at their end.
fn without_zeros(digits: &[u8]) -> &[u8]
    ensures { result.now ≡ spec.without_zeros digits.now }
{
    let mut end = digits.len();
    while end > 0 && digits[end - 1] == b'0' {
        end -= 1;
    }
    &digits[..end]
}

/// The length of the sign in front.
fn sign_length(bytes: &[u8]) -> usize
    ensures value { result ≡ spec.sign_length bytes.now }
    ensures within { result ≤ length bytes.now }
{
    if begins_with(b'-', bytes, 0) { 1 } else { 0 }
}

/// What stands behind a place.
fn behind(bytes: &[u8], at: usize) -> &[u8]
    ensures { result.now ≡ drop (suc at) bytes.now }
{
    if at < bytes.len() {
        &bytes[at + 1..]
    } else {
        &bytes[bytes.len()..]
    }
}

/// The number that a spelling stands for.
pub(crate) fn number_of(bytes: &[u8]) -> Option<Number>
    requires { IsNumberText bytes.now }
    ensures { result ≡ spec.number_of bytes.now }
{
    let from = sign_length(bytes);
    let end = digits_end(bytes, from);
    let whole = &bytes[from..end];
    Number::from_digits(
        begins_with(b'-', bytes, 0),
        whole,
        without_zeros(behind(bytes, end)),
    )
}
