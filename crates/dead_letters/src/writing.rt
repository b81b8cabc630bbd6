// Letters as bytes.
ghost use Rattle.std.specs.Prelude.{◌≡◌, ◌+◌, ◌++◌, ◌<◌, ◌^◌, length, OnOk};
ghost use Rattle.std.specs.Str.{IsUtf8};
ghost use Rattle.crc_frame.specs.Fronts.{count_bytes, run_bytes};
ghost use Rattle.dead_letters.specs.Letters.{IsLetter, letter_body, record_bytes};

use crate::letter::{DeadLetter, LENGTH_BYTES};
use crate::moment::bytes_of;
use byteorder::{BigEndian, ByteOrder};
use crc_frame::frame_crc;
use element_code::encode;
use std::alloc::AllocError;

/// Appends the record of a letter, which [`read_records`] reads as this letter.
///
/// An error is want of memory, and leaves any bytes behind those that were there.
///
/// [`read_records`]: crate::read_records
pub fn write_record(letter: &DeadLetter, to: &mut Vec<u8>) -> Result<(), AllocError>
    requires { length (letter_body letter.now) < 2 ^ 32 }
    ensures record { OnOk result (to.new.items ≡ to.old.items ++ record_bytes letter.now) }
    ensures letter { OnOk result (IsLetter letter.now) }
{
    let start = to.len();
    to.extend_from_slice(&length_bytes(letter.body_len()))?;
    write_body(letter, to)?;
    let crc = frame_crc(&to[start..]);
    to.extend_from_slice(&crc)?;
    Ok(())
}

#[tactic(auto, unfolding(crate::specs::Letters::letter_body))]
fn write_body(letter: &DeadLetter, to: &mut Vec<u8>) -> Result<(), AllocError>
    requires { length (letter_body letter.now) < 2 ^ 32 }
    ensures body { OnOk result (to.new.items ≡ to.old.items ++ letter_body letter.now) }
    ensures letter { OnOk result (IsLetter letter.now) }
{
    write_text(letter.kind.as_str(), to)?;
    write_text(letter.id.as_str(), to)?;
    write_text(letter.reason.as_str(), to)?;
    to.extend_from_slice(&bytes_of(letter.moment))?;
    encode(&letter.event, to)?;
    Ok(())
}

// A text behind its length.
fn write_text(text: &str, to: &mut Vec<u8>) -> Result<(), AllocError>
    requires { length text.now < 2 ^ 32 }
    ensures text { OnOk result (to.new.items ≡ to.old.items ++ run_bytes text.now) }
    ensures utf8 { IsUtf8 text.now }
{
    to.extend_from_slice(&length_bytes(text.len()))?;
    to.extend_from_slice(text.as_bytes())?;
    Ok(())
}

#[tactic(auto, unfolding(crc_frame::specs::Fronts::count_bytes))]
fn length_bytes(length: usize) -> [u8; LENGTH_BYTES]
    requires { length < 2 ^ 32 }
    ensures { result ≡ count_bytes length }
{
    let mut bytes = [0; LENGTH_BYTES];
    BigEndian::write_u32(&mut bytes, length as u32);
    bytes
}
