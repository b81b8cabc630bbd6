// The plain text of a string, which most often ends within sixteen bytes.
ghost use Rattle.std.specs.Prelude.{◌≡◌, ◌+◌, ◌≤◌, length, drop, map};
ghost use Rattle.std.specs.List.{prefix_len};
ghost use Rattle.std.specs.Simd.Lanes.{mask_l};
ghost use Rattle.json.specs.Run.{is_plain, is_stop};

use std::simd::prelude::*;

// Which bytes are a quote, a backslash or a control byte.
#[inline(always)]
fn stops(bytes: u8x16) -> u64
    ensures { result ≡ mask_l (map is_stop bytes) }
{
    (bytes.simd_eq(u8x16::splat(b'"'))
        | bytes.simd_eq(u8x16::splat(b'\\'))
        | bytes.simd_lt(u8x16::splat(0x20))).to_bitmask()
}

#[inline(never)]
fn plain_end_slowly(bytes: &[u8], from: usize) -> usize
    requires { from ≤ length bytes.now }
    ensures value { result ≡ from + prefix_len is_plain (drop from bytes.now) }
    ensures bound { result ≤ length bytes.now }
{
    let mut i = from;
    while i < bytes.len() && bytes[i] != b'"' && bytes[i] != b'\\' && bytes[i] >= 0x20 {
        i += 1;
    }
    i
}

/// The first quote, backslash or control byte from there on, or the length.
#[inline(always)]
pub(crate) fn plain_end(bytes: &[u8], from: usize) -> usize
    requires { from ≤ length bytes.now }
    ensures value { result ≡ from + prefix_len is_plain (drop from bytes.now) }
    ensures bound { result ≤ length bytes.now }
{
    let mut i = from;
    while bytes.len() - i >= 16 {
        let found = stops(u8x16::from_slice(&bytes[i..]));
        if found != 0 {
            return i + found.trailing_zeros() as usize;
        }
        i += 16;
    }
    plain_end_slowly(bytes, i)
}
