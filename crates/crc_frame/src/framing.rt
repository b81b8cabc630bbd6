// Writing of frames: a number, a length, a body and a CRC-32.
ghost use Rattle.std.specs.Prelude.{◌≡◌, ◌+◌, ◌^◌, ◌<◌, ◌≤◌, ◌++◌, length, vec_len, vec_capacity, OnOk, OnErr, IsOk};
ghost use Rattle.byteorder.specs.Endian.{big_bytes};
ghost use Rattle.crc_frame.specs.Crc.{crc32};
ghost use Rattle.crc_frame.specs.Frames.{frame_of};

use crate::crc::{CRC_LEN, crc32};
use byteorder::{BigEndian, ByteOrder};
use std::alloc::AllocError;

/// The length in bytes of what stands before a body in a frame.
pub(crate) const HEAD_LEN: usize = 12;

/// What stands before a body of so many bytes in a frame. Who writes a body straight into its frame begins
/// with this, and ends with [`frame_crc`].
pub fn frame_head(number: u64, body_len: u32) -> [u8; HEAD_LEN]
    ensures { result ≡ big_bytes 8 number ++ big_bytes 4 body_len }
{
    let mut head = [0; HEAD_LEN];
    BigEndian::write_u64(&mut head, number);
    BigEndian::write_u32(&mut head[8..], body_len);
    head
}

/// What stands behind the body in a frame: the CRC-32 of all that stands before.
pub fn frame_crc(covered: &[u8]) -> [u8; CRC_LEN]
    ensures { result ≡ big_bytes 4 (crc32 covered.now) }
{
    let mut bytes = [0; CRC_LEN];
    BigEndian::write_u32(&mut bytes, crc32(covered));
    bytes
}

/// Appends the frame of an element to `to`: the number in 8 bytes, the length of the body in 4, the body,
/// and the CRC-32 of all these in 4, each number big endian.
///
/// An error is want of memory, and leaves `to` with the bytes that it had. With room for the body and 16
/// bytes more, `to` takes the frame without an allocation.
pub fn frame(number: u64, body: &[u8], to: &mut Vec<u8>) -> Result<(), AllocError>
    requires { length body.now < 2 ^ 32 }
    ensures ok { OnOk result (to.new.items ≡ to.old.items ++ frame_of number body.now) }
    ensures err { OnErr result (to.new.items ≡ to.old.items) }
    ensures room { vec_len to.old + length body.now + 16 ≤ vec_capacity to.old → IsOk result }
{
    let start = to.len();
    to.reserve(HEAD_LEN + body.len() + CRC_LEN)?;
    to.extend_from_slice(&frame_head(number, body.len() as u32))?;
    to.extend_from_slice(body)?;
    let crc = frame_crc(&to[start..]);
    to.extend_from_slice(&crc)
}
