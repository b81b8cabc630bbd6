// Rows of a page, read for a batch.
ghost use Rattle.std.specs.Prelude.{◌≡◌, ◌≤◌, ◌<◌, ◌+◌, ◌-◌, ◌^◌, ◌⊎◌, [], ℕ, List, length, IsTrue, IfOk, Err, None, false};
ghost use Rattle.io_traits.specs.Counts.{HasCause};
ghost use Rattle.io_traits.specs.Calls.{ChangesNothing};
ghost use Rattle.io_traits.specs.declared.queue_faults.QueueFault.TheVariants as f;
ghost use Rattle.queue_page.specs.Blocks.{IsPart, OnFile};
ghost use Rattle.queue_core.specs.Batching.{given, with_more, is_over, behind_row, end_of, place_in, rows_read, Finds};
ghost use Rattle.queue_core.specs.Taking.{KeptIn};

use crate::kept::KeptRows;
use crate::pages::OpenPage;
use element_code::Origin;
use event_tree::Event;
use io_traits::{QueueFault, Store};
use plain_data::Items;
use queue_page::{Page, PageBuffer, PageRow};
use std::alloc::{AllocError, Global};
use std::mem;

/// The bytes that an element has beside its body.
const FRAME_LEN: u64 = 16;

/// A row of a queue.
#[derive(Drop)]
pub struct QueueRow {
    /// The number of the row.
    pub number: u64,
    /// The input of the row, so far as its page names it.
    pub origin: Origin,
    /// The event of the row.
    pub event: Event,
}

/// Rows of a page that are read for a batch, and the place of the next row.
#[derive(Drop)]
pub struct BatchReader {
    /// How many rows the batch may have.
    pub most_rows: usize,
    /// How many bytes the bodies of its rows may have together, unless it has a single row.
    pub most_bytes: u64,
    /// The number of the next row.
    pub number: u64,
    /// Where it begins in the file of its page.
    pub place: u64,
    /// How many bytes the bodies of the rows have; none while there is no row.
    pub bytes: Option<u64>,
    /// The rows.
    pub rows: Items<QueueRow>,
    /// Whether the next row has no room in the batch.
    pub closed: bool,
}

/// A row of a page as a row of its queue. It takes no memory.
fn given(alloc: Global, mut row: PageRow) -> QueueRow
    ensures { result ≡ given row }
{
    QueueRow {
        number: row.number,
        origin: mem::replace(&mut row.origin, Origin::Unknown),
        event: mem::replace(&mut row.event, Event::new(alloc)),
    }
}

/// So many bytes of bodies with those of a row more, if a batch may have them.
fn with_more(most: u64, bytes: Option<u64>, size: u64) -> Option<u64>
    ensures { result ≡ with_more most bytes size }
{
    match bytes {
        None => Some(size),
        Some(bytes) => {
            if size <= most && bytes <= most - size {
                Some(bytes + size)
            } else {
                None
            }
        }
    }
}

/// The number behind the last row of a page.
fn end_of(page: &Page) -> u64
    requires { page.now.state.least + page.now.state.count < 2 ^ 64 }
    ensures { result ≡ end_of page.now }
{
    page.state().least + u64::from(page.state().count)
}

impl BatchReader {
    /// No rows yet, where the next one has this number and stands at this place of its page. They come into this
    /// room, whose rows go.
    pub fn new(
        mut room: Items<QueueRow>,
        most_rows: usize,
        most_bytes: u64,
        number: u64,
        place: u64,
    ) -> BatchReader
        ensures { result ≡ record {
          most_rows = most_rows;
          most_bytes = most_bytes;
          number = number;
          place = place;
          bytes = None;
          rows = [];
          closed = false;
        } }
    {
        room.clear();
        BatchReader {
            most_rows,
            most_bytes,
            number,
            place,
            bytes: None,
            rows: room,
            closed: false,
        }
    }

    /// Whether the batch has as many rows as it may, or the next has no room in it.
    pub fn is_over(&self) -> bool
        ensures { result ≡ is_over self.now }
    {
        self.closed || self.rows.len() >= self.most_rows
    }

    /// Reads rows of a page, one behind the other, up to the last or until the batch has as many as it may.
    /// It ends before the row with which the bodies would have more bytes than they may, unless that is the
    /// first. Rows below a number, which were acknowledged, are read and passed over. A place behind the end
    /// of the page counts as the end.
    ///
    /// Who reads rows in order keeps the block: a part of the file is read anew only where it doesn't hold
    /// the next row. Where the call fails, this isn't to be read on.
    pub fn read_page<S: Store>(
        &mut self,
        alloc: Global,
        store: &mut S,
        name: &str,
        page: &Page,
        from: u64,
        block: &mut PageBuffer,
    ) -> Result<(), QueueFault>
        requires { page.now.state.least + page.now.state.count < 2 ^ 64 }
        ensures rows { OnFile S.Store store.old name.now block.old (λ file.
            page.now.state.length ≤ length file → Finds (λ _. self.new) result
            (rows_read name.now page.now from file (end_of page.now - self.old.number) self.old)) }
        ensures part { OnFile S.Store store.old name.now block.old (λ file.
            IsPart file block.new) }
        ensures same { ChangesNothing S.tells S.seen S.moment S.may_leave store.old store.new }
        ensures cause { HasCause (S.faults store.old) (S.faults store.new) (result ≡ Err f.Fault) }
    {
        let end = end_of(page);
        while self.number < end {
            if self.is_over() {
                return Ok(());
            }
            let place = self.place_in(page);
            let row = page.read_next(alloc, store, name, block, place, self.number)?;
            if !self.add(alloc, row, place, from)? {
                return Ok(());
            }
        }
        Ok(())
    }

    /// Adds rows of the head page that are kept, as long as the next row is one of them.
    pub(crate) fn add_kept(
        &mut self,
        alloc: Global,
        held: &OpenPage,
        kept: &mut KeptRows,
    ) -> Result<(), AllocError>
        ensures rows { IfOk result (λ _. (file : List ℕ) → KeptIn held.now file kept.old
            → rows_read held.now.file held.now.page held.now.from file
            (end_of held.now.page - self.old.number) self.old
            ≡ rows_read held.now.file held.now.page held.now.from file
            (end_of held.now.page - self.new.number) self.new) }
        ensures kept { (file : List ℕ) → KeptIn held.now file kept.old
            → KeptIn held.now file kept.new }
    {
        let end = held.end();
        while self.number < end {
            if self.is_over() {
                return Ok(());
            }
            let place = self.place_in(&held.page);
            let Some(row) = kept.take(held.number, self.number, place) else {
                return Ok(());
            };
            if !self.add(alloc, row, place, held.from)? {
                return Ok(());
            }
        }
        Ok(())
    }

    /// Where the next row stands in a page.
    fn place_in(&self, page: &Page) -> u64
        ensures place { result ≡ place_in page.now self.now }
        ensures within { result ≤ page.now.state.length }
    {
        self.place.min(page.state().length)
    }

    /// Goes to the row behind one that stands at a place of its page, and adds that to the batch, unless
    /// its number is below another. Where it has no room, the batch is closed, and this is false.
    fn add(
        &mut self,
        alloc: Global,
        row: PageRow,
        place: u64,
        from: u64,
    ) -> Result<bool, AllocError>
        requires behind { place + 16 ≤ row.next }
        requires number { self.old.number < 2 ^ 64 - 1 }
        ensures reading { IfOk result (λ _. self.new ≡ behind_row from place row self.old) }
        ensures more { IfOk result (λ more. IsTrue more → self.new.number ≡ self.old.number + 1) }
        ensures closed { IfOk result (λ more. IsTrue more ⊎ IsTrue self.new.closed) }
    {
        if self.number < from {
            self.number += 1;
            self.place = row.next;
            return Ok(true);
        }
        match with_more(self.most_bytes, self.bytes, row.next - place - FRAME_LEN) {
            None => {
                self.closed = true;
                Ok(false)
            }
            Some(bytes) => {
                let next = row.next;
                self.rows.push(given(alloc, row))?;
                self.bytes = Some(bytes);
                self.number += 1;
                self.place = next;
                Ok(true)
            }
        }
    }
}
