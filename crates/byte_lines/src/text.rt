// Text from bytes that may be no UTF-8, with U+FFFD for each byte that begins no character.
ghost use Rattle.std.specs.Prelude.{◌≡◌, ◌≤◌, ◌<◌, ◌++◌, IfOk, length, take, drop};
ghost use Rattle.std.specs.String.{string_bytes};
ghost use Rattle.byte_lines.specs.Text.{BeginsCharacter, text_of};

use std::alloc::{AllocError, Global};
use std::str;

/// The text of bytes that may be no text: the characters of UTF-8 (RFC 3629) stay, and each byte that begins
/// none becomes one U+FFFD.
///
/// `String::from_utf8_lossy` differs where a character is cut off: `e2 82 41` gives two U+FFFD and `A` here.
///
/// The time is linear in the bytes, and text is checked once and copied once. The only error is want of memory.
pub fn text_of_bytes(alloc: Global, bytes: &[u8]) -> Result<String, AllocError>
    ensures { IfOk result (λ text. string_bytes text ≡ text_of bytes.now) }
{
    let mut text = String::new(alloc);
    let mut rest = bytes;
    while !rest.is_empty() {
        let taken = push_front(&mut text, rest)?;
        rest = &rest[taken..];
    }
    Ok(text)
}

/// Pushes the text of a front of the bytes, up to the first byte that begins no character and with it, and
/// gives the length of that front.
fn push_front(text: &mut String, bytes: &[u8]) -> Result<usize, AllocError>
    requires { 0 < length bytes.now }
    ensures some { IfOk result (λ n. 0 < n) }
    ensures within { IfOk result (λ n. n ≤ length bytes.now) }
    ensures text { IfOk result (λ n.
        string_bytes text.new ++ text_of (drop n bytes.now) ≡ string_bytes text.old ++ text_of bytes.now) }
{
    let front = valid_front(bytes);
    let taken = front.len();
    text.push_str(front)?;
    if taken == bytes.len() {
        return Ok(taken);
    }
    text.push(char::REPLACEMENT_CHARACTER)?;
    Ok(taken + 1)
}

/// The longest front of the bytes that is UTF-8.
fn valid_front(bytes: &[u8]) -> &str
    ensures front { result.now ≡ take (length result.now) bytes.now }
    ensures within { length result.now ≤ length bytes.now }
    ensures longest { length result.now < length bytes.now
        → BeginsCharacter (drop (length result.now) bytes.now) → ⊥ }
{
    match str::from_utf8(bytes) {
        Ok(text) => text,
        Err(error) => unsafe { str::from_utf8_unchecked(&bytes[..error.valid_up_to()]) },
    }
}
