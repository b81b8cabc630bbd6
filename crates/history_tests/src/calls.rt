// Calls of a store, of any store and without clauses: of the queue, the output file and the dead letters, each of which is
// opened first.
ghost use Rattle.std.specs.Prelude.{IsTrue};
ghost use Rattle.io_traits.specs.Folders.{Content};
ghost use Rattle.dead_letters.specs.Appends.{AllFit};
ghost use Rattle.queue_core.specs.Opens.{IsSlotted};

use crate::configs::FILE;
use crate::judged::{LIMIT, event_of, events_of, first_number, first_word};
use crate::letters::letters_of;
use crate::meaning::spelling_of;
use crate::scene::{DEAD, QUEUE, SLOT};
use dead_letters::{DeadLetter, DeadLetters};
use io_traits::{QueueFault, Store};
use queue_core::{Limits, Numbers, Queue};
use settings_lines::Policy;
use slot_files::OutFile;
use std::alloc::Global;

// What the queue may hold.
const LIMITS: Limits = Limits {
    page_capacity: 4096,
    max_bytes: 65_536,
};

/// Makes a call. What fails in it isn't there.
pub fn make_call<S: Store>(alloc: Global, store: &mut S, call: &str) -> Result<(), QueueFault> {
    let (kind, rest) = first_word(call);
    match kind {
        "row" => write_row(alloc, store, rest),
        "mark" => mark(alloc, store, rest),
        "file" => write_file(alloc, store, rest),
        "hold" => append(alloc, store, Policy::Hold, rest),
        "drop_newer" => append(alloc, store, Policy::DropNewer, rest),
        "drop_older" => append(alloc, store, Policy::DropOlder, rest),
        _ => open_all(alloc, store),
    }
}

fn open_all<S: Store>(alloc: Global, store: &mut S) -> Result<(), QueueFault> {
    let _queue = Queue::open_on(alloc, store, QUEUE, LIMITS)?;
    let _file = OutFile::open_on(alloc, store, FILE, SLOT)?;
    let _dead = DeadLetters::open_on(alloc, store, DEAD, LIMIT, Policy::Hold)?;
    Ok(())
}

// Writes an event as a row of the input `input_1`.
fn write_row<S: Store>(alloc: Global, store: &mut S, text: &str) -> Result<(), QueueFault> {
    let event = event_of(alloc, text)?;
    let mut queue = Queue::open_on(alloc, store, QUEUE, LIMITS)?;
    let _number = queue.write(alloc, store, "input_1", &event);
    Ok(())
}

// Acknowledges rows and records that.
fn mark<S: Store>(alloc: Global, store: &mut S, numbers: &str) -> Result<(), QueueFault> {
    let mut queue = Queue::open_on(alloc, store, QUEUE, LIMITS)?;
    acknowledge(&mut queue, numbers);
    let _number = queue.mark(store)?;
    Ok(())
}

// The rows from a number on, before another; without numbers none.
fn acknowledge(queue: &mut Queue, numbers: &str)
    ensures { (content : Content) → IsSlotted queue.old content → IsSlotted queue.new content }
{
    let (first, rest) = first_number(numbers);
    let (behind, _) = first_number(rest);
    queue.acknowledge(Numbers { first, behind });
}

// Appends the bytes of these events to the file.
fn write_file<S: Store>(alloc: Global, store: &mut S, texts: &str) -> Result<(), QueueFault> {
    let events = events_of(alloc, texts)?;
    let bytes = spelling_of(alloc, events.as_slice())?;
    write_bytes(alloc, store, bytes.as_slice())
}

fn write_bytes<S: Store>(alloc: Global, store: &mut S, bytes: &[u8]) -> Result<(), QueueFault> {
    let mut out = OutFile::open_on(alloc, store, FILE, SLOT)?;
    out.append_batch(store, bytes)?;
    Ok(())
}

// Appends these letters to the dead letters.
fn append<S: Store>(
    alloc: Global,
    store: &mut S,
    policy: Policy,
    texts: &str,
) -> Result<(), QueueFault> {
    let letters = letters_of(alloc, texts)?;
    append_letters(alloc, store, policy, letters.as_slice())
}

fn append_letters<S: Store>(
    alloc: Global,
    store: &mut S,
    policy: Policy,
    letters: &[DeadLetter],
) -> Result<(), QueueFault> {
    let mut dead = DeadLetters::open_on(alloc, store, DEAD, LIMIT, policy)?;
    if !all_fit(letters) {
        return Err(QueueFault::Memory);
    }
    let _shed = dead.append(store, letters);
    Ok(())
}

// Whether each letter has a record.
fn all_fit(letters: &[DeadLetter]) -> bool
    ensures { IsTrue result → AllFit letters.now }
{
    for letter in letters {
        if !letter.fits_record() {
            return false;
        }
    }
    true
}
