// Reading of the frame in front of some bytes.
ghost use Rattle.std.specs.Prelude.{◌≡◌, ◌≢◌, ℕ, ◌+◌, ◌^◌, ◌<◌, List, ◌++◌, length, drop, option_map, IfSome, IfNone};
ghost use Rattle.crc_frame.specs.Frames.{frame_of, unframed, element_of};

use crate::crc::{CRC_LEN, is_checked};
use crate::framing::HEAD_LEN;
use byteorder::{BigEndian, ByteOrder};

/// An intact frame that was found at the beginning of some bytes.
#[derive(Clone, Copy, Debug)]
pub struct Frame<'a> {
    /// The number of the element.
    pub number: u64,
    /// The body of the element.
    pub body: &'a [u8],
    /// The number of bytes of the whole frame, 16 more than those of the body.
    pub total: usize,
}

/// The intact frame that begins these bytes, whatever stands behind it. It is `None` exactly where the
/// bytes begin with no frame that [`frame`] could have written: where they end too early, or where the
/// CRC-32 of what a frame covers is another than the one behind it.
///
/// [`frame`]: crate::frame
pub fn unframe(bytes: &[u8]) -> Option<Frame<'_>>
    ensures element { option_map element_of result ≡ unframed bytes.now }

    // The frame stands at the beginning, and what comes behind it is free.
    ensures total { IfSome result (λ f. f.total ≡ length f.body.now + 16) }
    ensures begins { IfSome result (λ f. bytes.now
        ≡ frame_of f.number f.body.now ++ drop f.total bytes.now) }

    // There is none exactly where the bytes begin with no element's frame.
    ensures none { IfNone result ((number : ℕ) (body rest : List ℕ) → number < 2 ^ 64
        → length body < 2 ^ 32 → bytes.now ≢ frame_of number body ++ rest) }
{
    if bytes.len() < HEAD_LEN {
        return None;
    }
    let number = BigEndian::read_u64(bytes);
    let total = HEAD_LEN + BigEndian::read_u32(&bytes[8..]) as usize + CRC_LEN;
    if bytes.len() < total {
        return None;
    }
    let whole = &bytes[..total];
    if !is_checked(whole) {
        return None;
    }
    Some(Frame {
        number,
        body: &whole[HEAD_LEN..total - CRC_LEN],
        total,
    })
}
