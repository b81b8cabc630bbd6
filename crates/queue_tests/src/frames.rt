// CRC-32 and frames of a row's bytes.
use crc_frame::{crc32, unframe};
use std::alloc::AllocError;
use table_rows::{add_bytes, bytes_of};

/// Adds the CRC-32 of the bytes of a row, and what they are as a frame.
pub fn add_read(to: &mut String, row: &str) -> Result<(), AllocError> {
    let bytes = bytes_of(*to.allocator(), row)?;
    write!(to, "{:08x}, ", crc32(&bytes))?;
    let Some(frame) = unframe(&bytes) else {
        return to.push_str("no frame");
    };
    let (number, total) = (frame.number, frame.total);
    write!(to, "{number} in {total} bytes, ")?;
    add_bytes(to, frame.body)
}
