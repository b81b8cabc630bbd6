// CRC-32 by its definition, some hundred times slower than that of `crc_frame`, which gives the same.
ghost use Rattle.std.specs.Prelude.{◌≡◌, [], ◌∷◌};
ghost use Rattle.crc_frame.specs.Crc.{crc32, divide_bit, remainder_after};

// The generator polynomial without its highest term, the coefficient of x^31 in the lowest bit.
const GENERATOR: u32 = 0xEDB8_8320;

// One step of the division.
fn divide_bit(remainder: u32, bit: u32) -> u32
    ensures { result ≡ divide_bit remainder bit }
{
    if remainder % 2 == bit {
        remainder / 2
    } else {
        (remainder / 2) ^ GENERATOR
    }
}

fn divide_byte_bitwise(remainder: u32, byte: u8) -> u32
    ensures { result ≡ remainder_after remainder (byte ∷ []) }
{
    let mut remainder = remainder;
    for place in 0..u8::BITS {
        remainder = divide_bit(remainder, u32::from(byte >> place) % 2);
    }
    remainder
}

// The CRC-32 of these bytes, divided bit by bit as the standard defines it.
pub(crate) fn crc32_bitwise(bytes: &[u8]) -> u32
    ensures { result ≡ crc32 bytes.now }
{
    let mut remainder = u32::MAX;
    for byte in bytes {
        remainder = divide_byte_bitwise(remainder, *byte);
    }
    !remainder
}
