// Numbers and runs of bytes, read from the front of a slice.
ghost use Rattle.crc_frame.specs.Fronts.{front_at, number_at, run_at};
ghost use Rattle.crc_frame.specs.Gives.{Gives};
ghost use Rattle.std.specs.Prelude.{◌≢◌, Err};

use crate::stop::Stop;
use byteorder::{BigEndian, ByteOrder};

/// The front of so many bytes, and the bytes behind it. Bytes that are too few stop at their end.
pub fn read_front(bytes: &[u8], len: usize) -> Result<(&[u8], &[u8]), Stop>
    ensures reads { Gives (λ x. (x.0.now, x.1.now)) result (front_at len bytes.now) }
    ensures memory { result ≢ Err Stop.Memory }
{
    if bytes.len() < len {
        return Err(Stop::Left(0));
    }
    Ok(bytes.split_at(len))
}

/// A number of two bytes, and the bytes behind it.
pub fn read_u16(bytes: &[u8]) -> Result<(u16, &[u8]), Stop>
    ensures reads { Gives (λ x. (x.0, x.1.now)) result (number_at 2 bytes.now) }
    ensures memory { result ≢ Err Stop.Memory }
{
    let (front, rest) = read_front(bytes, 2)?;
    Ok((BigEndian::read_u16(front), rest))
}

/// A number of four bytes, as a count or a length, and the bytes behind it.
pub fn read_u32(bytes: &[u8]) -> Result<(u32, &[u8]), Stop>
    ensures reads { Gives (λ x. (x.0, x.1.now)) result (number_at 4 bytes.now) }
    ensures memory { result ≢ Err Stop.Memory }
{
    let (front, rest) = read_front(bytes, 4)?;
    Ok((BigEndian::read_u32(front), rest))
}

/// A number of eight bytes, and the bytes behind it.
pub fn read_u64(bytes: &[u8]) -> Result<(u64, &[u8]), Stop>
    ensures reads { Gives (λ x. (x.0, x.1.now)) result (number_at 8 bytes.now) }
    ensures memory { result ≢ Err Stop.Memory }
{
    let (front, rest) = read_front(bytes, 8)?;
    Ok((BigEndian::read_u64(front), rest))
}

/// As many bytes as the length before them says, and the bytes behind them. Bytes that are too few stop
/// at their end, whether they end in the length or in what it says.
pub fn read_run(bytes: &[u8]) -> Result<(&[u8], &[u8]), Stop>
    ensures reads { Gives (λ x. (x.0.now, x.1.now)) result (run_at bytes.now) }
    ensures memory { result ≢ Err Stop.Memory }
{
    let (len, rest) = read_u32(bytes)?;
    read_front(rest, len as usize)
}
