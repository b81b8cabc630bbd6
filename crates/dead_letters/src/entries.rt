// The letters of a queue, read segment by segment.
ghost use Rattle.std.specs.Prelude.{◌≡◌, ◌≤◌, ◌+◌, ◌^◌, IsTrue, Err, length, take, IfOk, IfErr};
ghost use Rattle.io_traits.specs.Counts.{HasCause};
ghost use Rattle.io_traits.specs.Reads.{bytes_of};
ghost use Rattle.io_traits.specs.Calls.{ChangesNothing};
ghost use Rattle.io_traits.specs.declared.queue_faults.QueueFault.TheVariants as f;
ghost use Rattle.dead_letters.specs.Found.{IsNoDamage, bytes_in, fronts_from};
ghost use Rattle.dead_letters.specs.Queues.{name_in, segment};
ghost use Rattle.dead_letters.specs.Records.{Told, records_in};
ghost use Rattle.dead_letters.specs.Rows.{Answers, in_file, placed_in, rows_from};

use crate::faults::{ReadFault, RecordFault};
use crate::queue::segment_name;
use crate::records::read_records;
use crate::rows::{DeadRows, placed};
use event_tree::{Items, Text};
use io_traits::{Damage, QueueFault, Store};
use std::alloc::Global;

/// The letters in so many bytes of each of these segments, from a number on, with their places.
pub(crate) fn read_rows<S: Store>(
    alloc: Global,
    store: &mut S,
    folder: &str,
    first: u32,
    sizes: &[u64],
) -> Result<DeadRows, QueueFault>
    requires { first + length sizes.now ≤ 2 ^ 32 }
    ensures rows { IsTrue S.tells → Answers result
        (rows_from folder.now first (fronts_from folder.now (S.seen store.old) first sizes.now)) }
    ensures same { ChangesNothing S.tells S.seen S.moment S.may_leave store.old store.new }
    ensures cause { HasCause (S.faults store.old) (S.faults store.new) (result ≡ Err f.Fault) }
{
    let mut rows = Items::new(alloc);
    for (place, size) in sizes.iter().enumerate() {
        match read_segment(alloc, store, folder, first + place as u32, *size) {
            Ok(more) => match rows.append(more) {
                Ok(()) => {}
                Err(_) => return Err(QueueFault::Memory),
            },
            Err(fault) => return Err(fault),
        }
    }
    Ok(rows)
}

// The letters in so many bytes of a segment, with their places.
fn read_segment<S: Store>(
    alloc: Global,
    store: &mut S,
    folder: &str,
    number: u32,
    size: u64,
) -> Result<DeadRows, QueueFault>
    ensures rows { IsTrue S.tells → Answers result (in_file (name_in folder.now (segment number))
        (placed_in number (records_in (take size (bytes_in folder.now (S.seen store.old) number))))) }
    ensures same { ChangesNothing S.tells S.seen S.moment S.may_leave store.old store.new }
    ensures cause { HasCause (S.faults store.old) (S.faults store.new) (result ≡ Err f.Fault) }
{
    let name = segment_name(alloc, folder, number)?;
    let bytes = read_front(alloc, store, name.as_str(), size)?;
    match rows_in(alloc, number, &bytes) {
        Ok(rows) => Ok(rows),
        Err(ReadFault::At(fault)) => Err(damaged(name, fault)),
        Err(ReadFault::Memory) => Err(QueueFault::Memory),
    }
}

// The letters of which these bytes of the segment of a number are the records, with their places.
fn rows_in(alloc: Global, number: u32, bytes: &[u8]) -> Result<DeadRows, ReadFault>
    ensures { Told (λ rows. rows) result (placed_in number (records_in bytes.now)) }
{
    let letters = read_records(alloc, bytes)?;
    let rows = placed(alloc, number, letters)?;
    Ok(rows)
}

// The first bytes of a file.
fn read_front<S: Store>(
    alloc: Global,
    store: &mut S,
    name: &str,
    size: u64,
) -> Result<Vec<u8>, QueueFault>
    ensures bytes { IfOk result (λ bytes. IsTrue S.tells
        → bytes.items ≡ take size (bytes_of (S.seen store.old name.now))) }
    ensures whole { IfErr result (λ fault. IsNoDamage fault) }
    ensures same { ChangesNothing S.tells S.seen S.moment S.may_leave store.old store.new }
    ensures cause { HasCause (S.faults store.old) (S.faults store.new) (result ≡ Err f.Fault) }
{
    let mut bytes = vec![in alloc; 0; size as usize]?;
    let count = store.read(name, 0, &mut bytes)?;
    bytes.truncate(count);
    Ok(bytes)
}

// A record that doesn't read, in the file of this name.
fn damaged(file: Text, fault: RecordFault) -> QueueFault
    ensures { result ≡ f.Damaged (record {
      file = file;
      place = fault.place;
      found = fault.found;
      expected = fault.expected;
    }) }
{
    QueueFault::Damaged(Damage {
        file,
        place: fault.place,
        found: fault.found,
        expected: fault.expected,
    })
}
