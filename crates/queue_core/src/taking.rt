// The next unread rows of a queue, as a batch.
ghost use Rattle.std.specs.Prelude.{◌≡◌, ◌≤◌, ◌-◌, ◌⊎◌, ◌++◌, ◌∷◌, [], ℕ, List, length, map, vec_capacity, IsTrue, IfOk, OnErr, Ok, Err, None};
ghost use Rattle.io_traits.specs.Counts.{HasCause};
ghost use Rattle.io_traits.specs.Reads.{bytes_of, file_length};
ghost use Rattle.io_traits.specs.Calls.{ChangesNothing};
ghost use Rattle.io_traits.specs.Moments.{EachMoment, LeavesBeside, ReadsBeside};
ghost use Rattle.io_traits.specs.declared.queue_faults.QueueFault.TheVariants as f;
ghost use Rattle.queue_page.specs.Blocks.{IsPart};
ghost use Rattle.queue_files.specs.Folders.{IsOwn, names_in};
ghost use Rattle.queue_core.specs.Batching.{Finds};
ghost use Rattle.queue_core.specs.Opens.{Becomes, IsOfFiles, IsReady, KeepsQueue};
ghost use Rattle.queue_core.specs.Taking.{stand, entered, is_passed, page_read, pages_read, begun, batch_of, event_of, number_of, rows_in, AreThere, GivesNextRows, HasRoom, HasSameNext, IsSameButNext, KeptIn, WasRead};

use crate::batch::{Batch, Cursor};
use crate::kept::KeptRows;
use crate::limits::Numbers;
use crate::page_rows::{BatchReader, QueueRow};
use crate::pages::OpenPage;
use crate::queue::Queue;
use event_tree::Event;
use io_traits::{QueueFault, Store};
use plain_data::Items;
use queue_page::{BLOCK_LEN, PageBuffer};
use std::alloc::{AllocError, Global};
use std::mem;

/// How many bytes the bodies of the rows of a batch may have together, unless it has a single row: 64 MiB.
const BATCH_BYTES: u64 = 67_108_864;

/// For how many rows of the next batch room is kept at most.
const MOST_ROOM: usize = 1024;

/// The place of the first row in the file of a page.
const FIRST_PLACE: u64 = 1;

/// Whether nothing is read of a page for a batch, where the next row stands in the page of this number.
fn is_passed(held: &OpenPage, page: u32, reading: &BatchReader) -> bool
    ensures { result ≡ is_passed held.now (stand page reading.now) }
{
    held.number < page || held.is_spent() || reading.is_over()
}

/// Goes to the first row of a page, unless the next row stands in it. Where there is no memory, all stays.
fn enter(
    alloc: Global,
    held: &OpenPage,
    page: &mut u32,
    block: &mut PageBuffer,
    reading: &mut BatchReader,
) -> Result<(), AllocError>
    ensures page { IfOk result (λ _. page.new ≡ held.now.number) }
    ensures reading { IfOk result (λ _.
        reading.new ≡ entered held.now (stand page.old reading.old)) }
    ensures part { IfOk result (λ _. (file : List ℕ)
        → (page.old ≡ held.now.number → IsPart file block.old) → IsPart file block.new) }
{
    if held.number != *page {
        *block = PageBuffer::new(alloc, BLOCK_LEN)?;
        *page = held.number;
        reading.number = held.page.state().least;
        reading.place = FIRST_PLACE;
    }
    Ok(())
}

/// Reads rows of a page for a batch, unless it has none or the batch has as many as it may. The block holds
/// what was read last of the page in which the next row stands.
fn read_one<S: Store>(
    alloc: Global,
    store: &mut S,
    held: &OpenPage,
    page: &mut u32,
    block: &mut PageBuffer,
    reading: &mut BatchReader,
) -> Result<(), QueueFault>
    ensures rows { IsTrue S.tells
        → (page.old ≡ held.now.number
        → IsPart (bytes_of (S.seen store.old held.now.file)) block.old)
        → held.now.page.state.length ≤ file_length (S.seen store.old held.now.file)
        → Finds (λ _. stand page.new reading.new) result
        (page_read (S.seen store.old) held.now (stand page.old reading.old)) }
    ensures part { IfOk result (λ _. IsTrue S.tells
        → (page.old ≡ held.now.number
        → IsPart (bytes_of (S.seen store.old held.now.file)) block.old)
        → ((page.new ≡ page.old) × (block.new ≡ block.old))
        ⊎ ((page.new ≡ held.now.number)
        × IsPart (bytes_of (S.seen store.old held.now.file)) block.new)) }
    ensures same { ChangesNothing S.tells S.seen S.moment S.may_leave store.old store.new }
    ensures cause { HasCause (S.faults store.old) (S.faults store.new) (result ≡ Err f.Fault) }
{
    if is_passed(held, *page, reading) {
        return Ok(());
    }
    enter(alloc, held, page, block, reading)?;
    reading.read_page(
        alloc,
        store,
        held.file.as_str(),
        &held.page,
        held.from,
        block,
    )
}

/// Reads rows of the head page for a batch in the same way, but not those that are kept from the next row on.
fn read_top<S: Store>(
    alloc: Global,
    store: &mut S,
    held: &OpenPage,
    page: &mut u32,
    block: &mut PageBuffer,
    kept: &mut KeptRows,
    reading: &mut BatchReader,
) -> Result<(), QueueFault>
    ensures rows { IsTrue S.tells
        → (page.old ≡ held.now.number
        → IsPart (bytes_of (S.seen store.old held.now.file)) block.old)
        → KeptIn held.now (bytes_of (S.seen store.old held.now.file)) kept.old
        → Finds (λ _. stand page.new reading.new) result
        (page_read (S.seen store.old) held.now (stand page.old reading.old)) }
    ensures part { IfOk result (λ _. IsTrue S.tells
        → (page.old ≡ held.now.number
        → IsPart (bytes_of (S.seen store.old held.now.file)) block.old)
        → ((page.new ≡ page.old) × (block.new ≡ block.old))
        ⊎ ((page.new ≡ held.now.number)
        × IsPart (bytes_of (S.seen store.old held.now.file)) block.new)) }
    ensures kept { (file : List ℕ) → KeptIn held.now file kept.old
        → KeptIn held.now file kept.new }
    ensures same { ChangesNothing S.tells S.seen S.moment S.may_leave store.old store.new }
    ensures cause { HasCause (S.faults store.old) (S.faults store.new) (result ≡ Err f.Fault) }
{
    if is_passed(held, *page, reading) {
        return Ok(());
    }
    enter(alloc, held, page, block, reading)?;
    reading.add_kept(alloc, held, kept)?;
    reading.read_page(
        alloc,
        store,
        held.file.as_str(),
        &held.page,
        held.from,
        block,
    )
}

/// Reads rows of pages for a batch, of those below the head and then of the head page, from the page on in
/// which the next row stands. The block holds what was read last of that page.
fn read_all<S: Store>(
    alloc: Global,
    store: &mut S,
    tails: &[OpenPage],
    top: &OpenPage,
    page: &mut u32,
    block: &mut PageBuffer,
    kept: &mut KeptRows,
    reading: &mut BatchReader,
) -> Result<(), QueueFault>
    ensures rows { (names : ℕ → List ℕ) → IsTrue S.tells
        → AreThere names (S.seen store.old) page.old block.old (tails.now ++ top.now ∷ [])
        → KeptIn top.now (bytes_of (S.seen store.old top.now.file)) kept.old
        → Finds (λ _. stand page.new reading.new) result
        (pages_read (S.seen store.old) (tails.now ++ top.now ∷ []) (stand page.old reading.old)) }
    ensures part { IfOk result (λ _. (names : ℕ → List ℕ) → IsTrue S.tells
        → AreThere names (S.seen store.old) page.old block.old (tails.now ++ top.now ∷ [])
        → WasRead names (S.seen store.old) page.old block.old page.new block.new) }
    ensures kept { (file : List ℕ) → KeptIn top.now file kept.old
        → KeptIn top.now file kept.new }
    ensures same { ChangesNothing S.tells S.seen S.moment S.may_leave store.old store.new }
    ensures cause { HasCause (S.faults store.old) (S.faults store.new) (result ≡ Err f.Fault) }
{
    for place in 0..tails.len() {
        read_one(alloc, store, &tails[place], page, block, reading)?;
    }
    read_top(alloc, store, top, page, block, kept, reading)
}

/// No rows yet for a batch of at most so many, where the next row stands where the cursor says. They come into
/// its room.
fn begun(alloc: Global, most: u32, cursor: &mut Cursor) -> BatchReader
    ensures reading { result ≡ (begun most cursor.old).reading }
    ensures cursor { cursor.new ≡ cursor.old }
{
    let room = mem::replace(&mut cursor.room, Items::new(alloc));
    BatchReader::new(
        room,
        most as usize,
        BATCH_BYTES,
        cursor.number,
        cursor.place,
    )
}

/// Rows that were read for a batch, and room for their numbers and their events.
#[derive(Drop)]
struct RowsRead {
    reading: BatchReader,
    numbers: Vec<u64>,
    events: Vec<Event>,
}

/// Reads rows of pages for a batch as `read_all`, and takes the room that the batch needs.
fn read_rows<S: Store>(
    alloc: Global,
    store: &mut S,
    tails: &[OpenPage],
    top: &OpenPage,
    page: &mut u32,
    block: &mut PageBuffer,
    kept: &mut KeptRows,
    reading: BatchReader,
) -> Result<RowsRead, QueueFault>
    ensures room { IfOk result HasRoom }
    ensures rows { (names : ℕ → List ℕ) → IsTrue S.tells
        → AreThere names (S.seen store.old) page.old block.old (tails.now ++ top.now ∷ [])
        → KeptIn top.now (bytes_of (S.seen store.old top.now.file)) kept.old
        → Finds (λ read. stand page.new read.reading) result
        (pages_read (S.seen store.old) (tails.now ++ top.now ∷ []) (stand page.old reading)) }
    ensures part { IfOk result (λ _. (names : ℕ → List ℕ) → IsTrue S.tells
        → AreThere names (S.seen store.old) page.old block.old (tails.now ++ top.now ∷ [])
        → WasRead names (S.seen store.old) page.old block.old page.new block.new) }
    ensures kept { (file : List ℕ) → KeptIn top.now file kept.old
        → KeptIn top.now file kept.new }
    ensures same { ChangesNothing S.tells S.seen S.moment S.may_leave store.old store.new }
    ensures cause { HasCause (S.faults store.old) (S.faults store.new) (result ≡ Err f.Fault) }
{
    let mut reading = reading;
    read_all(alloc, store, tails, top, page, block, kept, &mut reading)?;
    let rows = reading.rows.len();
    Ok(RowsRead {
        numbers: Vec::with_capacity(alloc, rows)?,
        events: Vec::with_capacity(alloc, rows)?,
        reading,
    })
}

/// Room for so many rows, but not for more than a common batch has; none where there is no memory.
fn room_for(alloc: Global, rows: usize) -> Items<QueueRow> {
    Items::with_capacity(alloc, rows.min(MOST_ROOM)).unwrap_or(Items::new(alloc))
}

/// A block that holds nothing gets the room of a common one again, so that many rows are read at once; where there is no
/// memory it stays as it is.
fn give_room(alloc: Global, block: &mut PageBuffer)
    ensures { (file : List ℕ) → IsPart file block.old → IsPart file block.new }
{
    if let Ok(empty) = PageBuffer::new(alloc, BLOCK_LEN) {
        *block = empty;
    }
}

/// Reads the next rows for a batch, at most so many, and goes behind them. Where that fails, the next row is
/// the one before it.
fn read_from<S: Store>(
    alloc: Global,
    store: &mut S,
    tails: &[OpenPage],
    top: &OpenPage,
    cursor: &mut Cursor,
    most: u32,
) -> Result<RowsRead, QueueFault>
    ensures room { IfOk result HasRoom }
    ensures rows { (names : ℕ → List ℕ) → IsTrue S.tells
        → AreThere names (S.seen store.old) cursor.old.page cursor.old.block
        (tails.now ++ top.now ∷ [])
        → KeptIn top.now (bytes_of (S.seen store.old top.now.file)) cursor.old.kept
        → Finds (λ read. stand cursor.new.page read.reading) result
        (pages_read (S.seen store.old) (tails.now ++ top.now ∷ []) (begun most cursor.old)) }
    ensures cursor { IfOk result (λ read. (cursor.new.number ≡ read.reading.number)
        × (cursor.new.place ≡ read.reading.place)) }
    ensures part { IfOk result (λ _. (names : ℕ → List ℕ) → IsTrue S.tells
        → AreThere names (S.seen store.old) cursor.old.page cursor.old.block
        (tails.now ++ top.now ∷ [])
        → WasRead names (S.seen store.old) cursor.old.page cursor.old.block
        cursor.new.page cursor.new.block) }
    ensures err { OnErr result
        (cursor.new ≡ record cursor.old { block = cursor.new.block; kept = cursor.new.kept }) }
    ensures lost { OnErr result ((file : List ℕ) → IsPart file cursor.old.block
        → IsPart file cursor.new.block) }
    ensures kept { (file : List ℕ) → KeptIn top.now file cursor.old.kept
        → KeptIn top.now file cursor.new.kept }
    ensures same { ChangesNothing S.tells S.seen S.moment S.may_leave store.old store.new }
    ensures cause { HasCause (S.faults store.old) (S.faults store.new) (result ≡ Err f.Fault) }
{
    let reading = begun(alloc, most, cursor);
    let mut page = cursor.page;
    let mut block = mem::replace(&mut cursor.block, PageBuffer::new(alloc, 0)?);
    match read_rows(
        alloc,
        store,
        tails,
        top,
        &mut page,
        &mut block,
        &mut cursor.kept,
        reading,
    ) {
        Ok(read) => {
            cursor.page = page;
            cursor.number = read.reading.number;
            cursor.place = read.reading.place;
            cursor.block = block;
            cursor.room = room_for(alloc, read.reading.rows.len());
            Ok(read)
        }
        Err(fault) => {
            give_room(alloc, &mut cursor.block);
            Err(fault)
        }
    }
}

/// The numbers and the events of rows.
fn split(rows: Items<QueueRow>, numbers: &mut Vec<u64>, events: &mut Vec<Event>)
    requires numbers { length rows ≤ vec_capacity numbers.old }
    requires events { length rows ≤ vec_capacity events.old }
    requires no_numbers { numbers.old.items ≡ [] }
    requires no_events { events.old.items ≡ [] }
    ensures numbers { numbers.new.items ≡ map number_of rows }
    ensures events { events.new.items ≡ map event_of rows }
{
    for row in rows.into_vec() {
        numbers.push_reserved(row.number);
        events.push_reserved(row.event);
    }
}

/// The numbers and the events of the rows that were read, if there are any.
fn batch_of(read: RowsRead) -> Option<Batch>
    requires { HasRoom read }
    ensures { result ≡ batch_of read.reading }
{
    let RowsRead {
        reading,
        mut numbers,
        mut events,
    } = read;
    let first = match reading.rows.get(0) {
        None => return None,
        Some(row) => row.number,
    };
    let behind = reading.number;
    split(reading.rows, &mut numbers, &mut events);
    Some(Batch {
        numbers: Numbers { first, behind },
        rows: Items::from_vec(numbers),
        events: Items::from_vec(events),
    })
}

impl Queue {
    /// Takes the next unread rows, in order: as many as there are, but no more than these at most, and
    /// ending before the row with which the bodies would have more than 64 MiB together, unless that is the
    /// first. `None` where no row is unread. Rows that were acknowledged when the queue was opened are
    /// passed over.
    ///
    /// Where it fails, no row is taken, and the next call begins with the same row.
    pub fn take_batch<S: Store>(
        &mut self,
        alloc: Global,
        store: &mut S,
        most: u32,
    ) -> Result<Option<Batch>, QueueFault>
        requires { 1 ≤ most }

        // The next rows, and the queue behind them; or the first damage of an element that is read for them.
        ensures batch { IsTrue S.tells → IsOfFiles self.old (S.seen store.old)
            → GivesNextRows most (S.seen store.old) self.old result self.new }
        ensures none { self.old.unread ≡ 0 → result ≡ Ok None }
        ensures unread { IfOk result (λ batch.
            self.new.unread ≡ self.old.unread - rows_in batch) }
        ensures rest { IsSameButNext self.old self.new }
        ensures err { OnErr result (HasSameNext self.old self.new) }

        // Of the queue of a folder: it stays, and so does what a stop leaves.
        ensures ready { IsReady S.Store self.old store.old → IsReady S.Store self.new store.new }
        ensures keeps { KeepsQueue S.Store self.old store.old store.new }
        ensures stays { Becomes S.Store (λ q. q) self.old self.new store.old store.new }

        // Other files read as before, and a stop leaves them as it might have left them.
        ensures beside { ReadsBeside S.Store (IsOwn (names_in self.old.folder)) store.old
            store.new }
        ensures beside_moments { EachMoment S.Store store.old store.new
            (LeavesBeside S.Store (IsOwn (names_in self.old.folder)) store.old) }

        ensures same { ChangesNothing S.tells S.seen S.moment S.may_leave store.old store.new }
        ensures cause { HasCause (S.faults store.old) (S.faults store.new) (result ≡ Err f.Fault) }
    {
        if self.unread == 0 {
            return Ok(None);
        }
        let tails = self.tails.as_slice();
        let read = read_from(alloc, store, tails, &self.top, &mut self.cursor, most)?;
        self.unread = self.unread.saturating_sub(read.reading.rows.len() as u64);
        Ok(batch_of(read))
    }
}
