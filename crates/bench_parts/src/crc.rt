//! Computes the CRC-32 of a file several times over (bench/crc.sh).

use crc_frame::crc32;
use std::fs;

/// The sum of the CRCs of a file, over so many passes.
pub fn run(rt: &HostRuntime, words: &[String]) -> Option<u64> {
    let [file, passes] = words else {
        return None;
    };
    let passes = passes.as_str().parse::<usize>().ok()?;
    let bytes = fs::read(rt, file.as_str()).ok()?;
    Some(u64::from(sum_of_passes(&bytes, passes)))
}

/// The sum modulo 2 of the CRCs of the bytes from place 0 on, from place 1 on, and so forth. No two
/// passes read the same bytes, so that none can be left out.
fn sum_of_passes(bytes: &[u8], passes: usize) -> u32 {
    let mut sum = 0;
    for start in 0..passes.min(bytes.len()) {
        sum ^= crc32(&bytes[start..]);
    }
    sum
}
