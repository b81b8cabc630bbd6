// Texts in bytes, most of which are short and ASCII.
ghost use Rattle.std.specs.Prelude.{◌≡◌, IsTrue, MatchOption};
ghost use Rattle.std.specs.Str.{IsAscii, IsUtf8, is_utf8};

use std::simd::prelude::*;
use std::str;

// The text that these bytes are, if they are UTF-8.
pub(crate) fn text_of(bytes: &[u8]) -> Option<&str>
    ensures { MatchOption result (¬ (IsUtf8 bytes.now))
        (λ s. (s.now ≡ bytes.now) × IsUtf8 bytes.now) }
{
    if is_text(bytes) {
        // SAFETY: proved; the bytes are UTF-8.
        Some(unsafe { str::from_utf8_unchecked(bytes) })
    } else {
        None
    }
}

// Whether bytes are UTF-8.
pub(crate) fn is_text(bytes: &[u8]) -> bool
    ensures { result ≡ is_utf8 bytes.now }
{
    is_ascii(bytes) || simdutf8::basic::from_utf8(bytes).is_ok()
}

// Tells of ASCII that it is ASCII, by blocks of 16 bytes and then by fewer.
fn is_ascii(bytes: &[u8]) -> bool
    ensures { IsTrue result → IsAscii bytes.now }
{
    let mut rest = bytes;
    while let Some((block, behind)) = rest.split_first_chunk::<16>() {
        if !are_ascii_16(u8x16::from_array(*block)) {
            return false;
        }
        rest = behind;
    }
    is_short_ascii(rest)
}

fn is_short_ascii(bytes: &[u8]) -> bool
    ensures { IsTrue result → IsAscii bytes.now }
{
    match bytes.split_first_chunk::<8>() {
        Some((block, behind)) => {
            are_ascii_8(u8x8::from_array(*block)) && is_shorter_ascii(behind)
        }
        None => is_shorter_ascii(bytes),
    }
}

fn is_shorter_ascii(bytes: &[u8]) -> bool
    ensures { IsTrue result → IsAscii bytes.now }
{
    match bytes.split_first_chunk::<4>() {
        Some((block, behind)) => are_ascii_4(u8x4::from_array(*block)) && is_shortest_ascii(behind),
        None => is_shortest_ascii(bytes),
    }
}

fn is_shortest_ascii(bytes: &[u8]) -> bool
    ensures { IsTrue result → IsAscii bytes.now }
{
    for byte in bytes {
        if *byte >= 0x80 {
            return false;
        }
    }
    true
}

fn are_ascii_16(block: u8x16) -> bool
    ensures { IsTrue result → IsAscii block }
{
    block.simd_ge(u8x16::splat(0x80)).to_bitmask() == 0
}

fn are_ascii_8(block: u8x8) -> bool
    ensures { IsTrue result → IsAscii block }
{
    block.simd_ge(u8x8::splat(0x80)).to_bitmask() == 0
}

fn are_ascii_4(block: u8x4) -> bool
    ensures { IsTrue result → IsAscii block }
{
    block.simd_ge(u8x4::splat(0x80)).to_bitmask() == 0
}
