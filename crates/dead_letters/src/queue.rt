// The segments of a queue: their names, and which of them new records join.
ghost use Rattle.std.specs.Prelude.{◌≡◌, ◌<◌, ◌^◌, ◌+◌, ◌-◌, ◌++◌, IsTrue, IfOk};
ghost use Rattle.std.specs.List.{sum};
ghost use Rattle.dead_letters.specs.Queues.{begins_next, name_in, names, pieces, position, segment};

use event_tree::{Items, Text};
use itoa::Buffer;
use std::alloc::{AllocError, Global};

/// The name of the segment of this number, in a folder whose path ends with a slash.
///
/// An error is want of memory.
pub fn segment_name(alloc: Global, folder: &str, number: u32) -> Result<Text, AllocError>
    ensures { IfOk result (λ name. name ≡ name_in folder.now (segment number)) }
{
    if number == 0 {
        return joined(alloc, folder, "dead.log", "", "");
    }
    joined(alloc, folder, "dead.", Buffer::new().format(number), ".log")
}

/// The name of the file in a folder that names the segments which count.
pub(crate) fn slot_name(alloc: Global, folder: &str) -> Result<Text, AllocError>
    ensures { IfOk result (λ name. name ≡ name_in folder.now names) }
{
    joined(alloc, folder, "dead.seg", "", "")
}

/// The name of the position file in a folder, which a queue of the first version has.
pub(crate) fn position_name(alloc: Global, folder: &str) -> Result<Text, AllocError>
    ensures { IfOk result (λ name. name ≡ name_in folder.now position) }
{
    joined(alloc, folder, "dead.pos", "", "")
}

fn joined(
    alloc: Global,
    folder: &str,
    start: &str,
    number: &str,
    end: &str,
) -> Result<Text, AllocError>
    ensures { IfOk result (λ name. name ≡ folder.now ++ (start.now ++ (number.now ++ end.now))) }
{
    let mut name = String::new(alloc);
    name.push_str(folder)?;
    name.push_str(start)?;
    name.push_str(number)?;
    name.push_str(end)?;
    Ok(Text::from_string(name))
}

/// How many bytes of new records each segment takes, by the bytes of the records in order: the last segment
/// of a queue with this limit, which has this number and holds so many bytes, and those that come behind it.
///
/// A record begins the next segment where the last one has a record and with this one exceeds an eighth of
/// the limit, rounded down, and where there is a next number. An error is want of memory.
pub fn pieces(
    alloc: Global,
    limit: u64,
    last: u32,
    held: u64,
    records: &[u64],
) -> Result<Items<u64>, AllocError>
    requires { sum records.now < 2 ^ 64 }
    ensures { IfOk result (λ p. p ≡ pieces limit last held 0 records.now) }
{
    let mut pieces = Items::new(alloc);
    let mut number = last;
    let mut before = held;
    let mut taken = 0;
    for size in records {
        if begins_next(limit, number, before, taken, *size) {
            pieces.push(taken)?;
            number += 1;
            before = 0;
            taken = *size;
        } else {
            taken += *size;
        }
    }
    pieces.push(taken)?;
    Ok(pieces)
}

// Whether a record begins the next segment.
fn begins_next(limit: u64, number: u32, before: u64, taken: u64, size: u64) -> bool
    ensures next { result ≡ begins_next limit number (before + taken) size }
    ensures room { IsTrue result → number < 2 ^ 32 - 1 }
{
    let held = u128::from(before) + u128::from(taken);
    held > 0 && held + u128::from(size) > u128::from(limit / 8) && number < u32::MAX
}
