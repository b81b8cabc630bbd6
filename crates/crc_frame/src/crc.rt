// CRC-32 by tables, sixteen bytes at a step.
ghost use Rattle.std.specs.Prelude.{◌≡◌, ◌<◌, ◌≤◌, ◌%◌, [], ◌∷◌, ◌++◌, length, replicate};
ghost use Rattle.crc_frame.specs.Crc.{crc32, is_checked, remainder_after};

use crate::tables::TABLES;
use byteorder::{BigEndian, ByteOrder, LittleEndian};

// The remainder of the lowest byte of `sum` with this many zero bytes behind it.
#[inline]
fn entry(behind: usize, sum: u64) -> u32
    requires { behind < 16 }
    ensures { result ≡ remainder_after 0 ((sum % 256) ∷ replicate behind 0) }
{
    TABLES[behind][(sum % 256) as usize]
}

#[inline]
fn divide_byte(remainder: u32, byte: u8) -> u32
    ensures { result ≡ remainder_after remainder (byte ∷ []) }
{
    entry(0, u64::from(remainder ^ u32::from(byte))) ^ (remainder >> 8)
}

// Eight bytes and this many zero bytes behind them at a step. A remainder may be added to the bytes that follow it,
// and the remainder of a sum is the sum of remainders: here of the eight bytes, each with those behind it taken as zeros.
// The last of them come first, since no remainder was added to these, so that they don't wait for it.
#[inline]
fn divide_word(remainder: u32, word: &[u8], behind: usize) -> u32
    requires { (length word.now ≡ 8) × (behind ≤ 8) }
    ensures { result ≡ remainder_after remainder (word.now ++ replicate behind 0) }
{
    let sum = LittleEndian::read_u64(word) ^ u64::from(remainder);
    let mut after = 0;
    for place in 0..8 {
        after ^= entry(behind + place, sum >> (56 - 8 * place));
    }
    after
}

// Sixteen bytes at a step. Again the last of them come first.
#[inline]
fn divide_chunk(remainder: u32, chunk: &[u8; 16]) -> u32
    ensures { result ≡ remainder_after remainder chunk.now }
{
    let (first, second) = chunk.split_at(8);
    divide_word(0, second, 0) ^ divide_word(remainder, first, 8)
}

// Eight bytes at a step, and then the last ones.
fn divide_rest(remainder: u32, bytes: &[u8]) -> u32
    ensures { result ≡ remainder_after remainder bytes.now }
{
    let (words, tail) = bytes.as_chunks::<8>();
    let mut remainder = remainder;
    for word in words {
        remainder = divide_word(remainder, word, 0);
    }
    for byte in tail {
        remainder = divide_byte(remainder, *byte);
    }
    remainder
}

/// The CRC-32 of these bytes: the frame check sequence of ITU-T V.42 (section 8.1.1.6.2) and ISO 3309,
/// as PNG, gzip and zlib compute it. The generator polynomial, its bits reversed, is EDB88320, and the
/// division begins with all ones and ends with their complement.
///
/// That of no bytes is 0, and that of the ASCII text `123456789` is CBF43926.
pub fn crc32(bytes: &[u8]) -> u32
    ensures { result ≡ crc32 bytes.now }
{
    let (chunks, rest) = bytes.as_chunks::<16>();
    let mut remainder = u32::MAX;
    for chunk in chunks {
        remainder = divide_chunk(remainder, chunk);
    }
    !divide_rest(remainder, rest)
}

/// The length in bytes of a CRC-32.
pub(crate) const CRC_LEN: usize = 4;

/// Whether these bytes end with the CRC-32 of all before it, big endian.
pub(crate) fn is_checked(bytes: &[u8]) -> bool
    requires { CRC_LEN ≤ length bytes.now }
    ensures { result ≡ is_checked bytes.now }
{
    let (covered, crc) = bytes.split_at(bytes.len() - CRC_LEN);
    BigEndian::read_u32(crc) == crc32(covered)
}
