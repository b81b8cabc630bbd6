// The records of a segment.
ghost use Rattle.std.specs.Prelude.{◌≡◌, ◌≤◌, ◌<◌, ◌+◌, ◌-◌, ◌^◌, drop, length, IfOk};
ghost use Rattle.dead_letters.specs.Records.{body_length, letter_at, letter_or, record_at, records_in, fault, Told};
ghost use Rattle.dead_letters.specs.declared.faults.ReadFault.TheVariants.{At};

use crate::faults::{ReadFault, RecordFault};
use crate::letter::{DeadLetter, LENGTH_BYTES, Letters, RECORD_EXTRA};
use crate::reading::letter_of;
use byteorder::{BigEndian, ByteOrder};
use crc_frame::{Stop, crc32};
use event_tree::Items;
use std::alloc::Global;

/// The letters of which these bytes are the records, one behind the other.
///
/// The first record that doesn't read is the fault: one that leaves the bytes, where a length that is cut
/// counts as 0; whose CRC-32 is another than the computed one; or whose body fits no letter. It takes memory
/// in proportion to the bytes.
pub fn read_records(alloc: Global, bytes: &[u8]) -> Result<Letters, ReadFault>
    ensures { Told (λ ls. ls) result (records_in bytes.now) }
{
    let mut letters = Items::new(alloc);
    let mut rest = bytes;
    for _ in 0..bytes.len() {
        if rest.is_empty() {
            break;
        }
        letters.push(record_of(alloc, bytes.len(), rest)?)?;
        rest = behind_record(rest);
    }
    Ok(letters)
}

// The length of the body of a record; that of one whose length is cut counts as 0.
#[tactic(auto, unfolding(crate::specs::Records::body_length))]
fn body_len(bytes: &[u8]) -> usize
    ensures { result ≡ body_length bytes.now }
{
    if bytes.len() < LENGTH_BYTES {
        return 0;
    }
    BigEndian::read_u32(bytes) as usize
}

// What stands behind the record that begins these bytes.
fn behind_record(bytes: &[u8]) -> &[u8]
    requires { body_length bytes.now + 8 ≤ length bytes.now }
    ensures { result.now ≡ drop (body_length bytes.now + 8) bytes.now }
{
    let (_record, rest) = bytes.split_at(body_len(bytes) + RECORD_EXTRA);
    rest
}

// The letter of the record that begins these bytes, which are the last ones of so many.
fn record_of(alloc: Global, total: usize, bytes: &[u8]) -> Result<DeadLetter, ReadFault>
    requires within { length bytes.now ≤ total }
    requires small { total < 2 ^ 63 }
    ensures record { Told (λ l. l) result (record_at (total - length bytes.now) total bytes.now) }
    ensures within { IfOk result (λ _. body_length bytes.now + 8 ≤ length bytes.now) }
{
    let place = (total - bytes.len()) as u64;
    let len = body_len(bytes);
    if bytes.len() < len + RECORD_EXTRA {
        let end = place + (len + RECORD_EXTRA) as u64;
        return Err(fault_of(place, end, total as u64));
    }
    let stored = BigEndian::read_u32(&bytes[len + LENGTH_BYTES..]);
    let computed = crc32(&bytes[..len + LENGTH_BYTES]);
    if stored != computed {
        return Err(fault_of(place, u64::from(stored), u64::from(computed)));
    }
    let rest = &bytes[LENGTH_BYTES..];
    letter_in(alloc, place, &rest[..len])
}

// The letter that a body spells, whose record begins at this place.
fn letter_in(alloc: Global, place: u64, body: &[u8]) -> Result<DeadLetter, ReadFault>
    ensures { Told (λ l. l) result (letter_or place (length body.now) (letter_at body.now)) }
{
    match letter_of(alloc, body) {
        Ok(letter) => Ok(letter),
        Err(Stop::Left(0)) => {
            let len = body.len() as u64;
            Err(fault_of(place, len, len + 1))
        }
        Err(Stop::Left(left)) => {
            Err(fault_of(place, (body.len() - left) as u64, body.len() as u64))
        }
        Err(Stop::Memory) => Err(ReadFault::Memory),
    }
}

fn fault_of(place: u64, found: u64, expected: u64) -> ReadFault
    ensures { result ≡ At (fault place found expected) }
{
    ReadFault::At(RecordFault {
        place,
        found,
        expected,
    })
}
