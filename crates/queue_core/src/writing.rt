// What a write does: the element of a row joins the head page, or a new one that is begun for it.
ghost use Rattle.std.specs.Prelude.{◌≡◌, ◌≢◌, ◌⊎◌, ◌↔◌, ◌≤◌, ◌<◌, ◌+◌, ◌-◌, ◌^◌, ◌*◌, ◌++◌, ◌∷◌, [], false, true, suc, length, map, vec_capacity, IfOk, IfErr, OnOk, OnErr, Err};
ghost use Rattle.std.specs.List.{insert};
ghost use Rattle.io_traits.specs.Counts.{HasCause};
ghost use Rattle.io_traits.specs.Moments.{EachMoment, LeavesBeside, ReadsBeside};
ghost use Rattle.queue_page.specs.Grammar.{IsNext};
ghost use Rattle.queue_page.specs.declared.row.PageRow.{PageRow as Row};
ghost use Rattle.queue_files.specs.Folders.{IsOwn, names_in};
ghost use Rattle.queue_files.specs.Others.{KeepsOthers};
ghost use Rattle.queue_files.specs.Ready.{RowKept};
ghost use Rattle.queue_core.specs.Calls.{behind_mark, bytes_in, end_of, tail_bytes, with_marked, with_recorded};
ghost use Rattle.queue_core.specs.Opens.{Becomes, IsReady};
ghost use Rattle.queue_core.specs.Writing.{behind_append, behind_roll, behind_write, frame_size, has_no_room, is_closed, is_full, is_full_with, is_open, is_spent_with, made_ready, needs_page, numbers_spent, row_behind, row_here, sealed, some_open, with_open_row, with_written, written, AddsRow, Begun, HasFrame, IsOpenTo, KeepsEither, KeepsRow, RowAdded, TakesRow};
ghost use Rattle.queue_core.specs.declared.writing.WriteFault.TheVariants as w;

use crate::acknowledged::Acknowledged;
use crate::marking::{mark_all, set_marks};
use crate::pages::OpenPage;
use crate::queue::Queue;
use crate::rolling::{begin, next_page};
use event_tree::Event;
use io_traits::{Failed, Store};
use queue_files::{Mark, NextPage, add_row};
use queue_page::frame_row;
use std::alloc::{AllocError, Global};
use std::mem;

/// The bytes that the element of a row has beside its origin and its event.
const FRAME_LEN: u64 = 20;

/// The version of pages whose rows name their inputs.
const NAMING_VERSION: u8 = 2;

/// How many rows a page may have.
const MOST_ROWS: u32 = 0xFFFF_FFFF;

/// The number that no row has any more: 2^63 - 1.
const NUMBERS_END: u64 = 0x7FFF_FFFF_FFFF_FFFF;

/// The greatest number of a page.
const LAST_PAGE: u32 = 0xFFFF_FFFE;

/// Why a row was not written.
#[derive(Debug, PartialEq, Eq, Drop)]
pub enum WriteFault {
    /// No number is left for the row, or none for the page that it needs.
    NumbersSpent,
    /// A row isn't acknowledged, and with one more the pages would have more bytes than they may.
    Full,
    /// Memory ran out. Nothing was written.
    Memory,
    /// A call of the store failed, and its count of faults rose.
    Fault,
}

impl From<AllocError> for WriteFault {
    ghost use Rattle.std.specs.Prelude.{◌≡◌};
    ghost use Rattle.queue_core.specs.declared.writing.WriteFault.TheVariants.{Memory};

    ghost from_gives = { λ _ fault. fault ≡ Memory };

    fn from(_error: AllocError) -> WriteFault {
        WriteFault::Memory
    }
}

impl From<Failed> for WriteFault {
    ghost use Rattle.std.specs.Prelude.{◌≡◌};
    ghost use Rattle.queue_core.specs.declared.writing.WriteFault.TheVariants.{Fault};

    ghost from_gives = { λ _ fault. fault ≡ Fault };

    fn from(_failed: Failed) -> WriteFault {
        WriteFault::Fault
    }
}

/// How many bytes the element of a row has.
fn frame_size(origin: &str, event: &Event) -> u64
    requires { length origin.now ≤ 255 }
    ensures size { result ≡ frame_size origin.now event.now }
    ensures most { result ≤ 16777491 }
{
    FRAME_LEN + origin.len() as u64 + event.size()
}

/// How many bytes these pages have.
pub(crate) fn count_bytes(tails: &[OpenPage]) -> u128
    ensures sum { result ≡ tail_bytes tails.now }
    ensures most { result ≤ (2 ^ 64 - 1) * (2 ^ 64 - 1) }
{
    let mut bytes = 0;
    for place in 0..tails.len() {
        let tail = &tails[place];
        bytes += u128::from(tail.page.state().length);
    }
    bytes
}

/// Whether a row of these pages isn't acknowledged.
fn some_open(tails: &[OpenPage]) -> bool
    ensures { result ≡ some_open tails.now }
{
    for place in 0..tails.len() {
        if tails[place].is_open() {
            return true;
        }
    }
    false
}

/// A page of which all is recorded becomes one below the head, and gives way to another.
fn replace_top(top: &mut OpenPage, next: OpenPage) -> OpenPage
    ensures next { top.new ≡ next }
    ensures old { result ≡ sealed (with_recorded top.old) }
{
    top.record();
    let mut old = mem::replace(top, next);
    old.turn = 0;
    old
}

/// One page more below the head, of which all is recorded; what is acknowledged in the others was recorded.
fn add_tail(tails: &mut Vec<OpenPage>, page: OpenPage)
    requires room { length tails.old.items < vec_capacity tails.old }
    requires recorded { with_marked page ≡ page }
    ensures { tails.new.items ≡ map with_marked tails.old.items ++ page ∷ [] }
{
    tails.push_reserved(page);
    mark_all(tails);
}

/// The mark of one page more below the head, in front of that of the head page.
fn add_mark(marks: &mut Vec<Mark>, mark: Mark)
    requires some { 0 < length marks.old.items }
    requires room { length marks.old.items < vec_capacity marks.old }
    ensures { marks.new.items ≡ insert marks.old.items (length marks.old.items - 1) mark }
{
    let last = marks.len() - 1;
    let _ = marks.insert(last, mark);
}

/// Of a page with one row that this isn't acknowledged.
fn first_row(alloc: Global) -> Result<Acknowledged, AllocError>
    ensures { IfOk result (λ rows. rows ≡ false ∷ []) }
{
    let mut rows = Acknowledged::new(alloc);
    rows.push()?;
    Ok(rows)
}

impl OpenPage {
    /// Whether a row isn't acknowledged.
    fn is_open(&self) -> bool
        ensures { result ≡ is_open self.now }
    {
        self.first_open() < self.end()
    }

    /// Whether it takes no row more.
    #[tactic(auto, unfolding(crate::specs::Writing::is_closed))]
    fn is_closed(&self) -> bool
        ensures closed { result ≡ is_closed self.now }
        ensures not_yet { result ≡ false → IsOpenTo self.now }
    {
        self.page.version() != NAMING_VERSION
            || self.page.state().count == MOST_ROWS
            || self.end() < self.from
    }

    /// Whether so many bytes more have no room in it, where it may have so many.
    #[tactic(auto, unfolding(crate::specs::Writing::has_no_room))]
    fn has_no_room(&self, capacity: u64, size: u64) -> bool
        ensures room { result ≡ has_no_room capacity size self.now }
        ensures short { result ≡ false → self.now.page.state.length + size < 2 ^ 64 }
    {
        match self.page.state().length.checked_add(size) {
            Some(length) => self.page.state().count != 0 && capacity < length,
            None => true,
        }
    }

    /// Whether no number is left for its next row, or for the page behind it where that is needed.
    #[tactic(auto, unfolding(crate::specs::Writing::is_spent_with))]
    fn is_spent_with(&self, needed: bool) -> bool
        ensures spent { result ≡ is_spent_with needed self.now }
        ensures number { result ≡ false → end_of self.now < 2 ^ 63 - 1 }
        ensures page { result ≡ false → needed ≡ true → suc self.now.number < 2 ^ 32 - 1 }
    {
        self.end() == NUMBERS_END || (needed && self.number >= LAST_PAGE)
    }

    /// Appends the element of the next row, which isn't acknowledged, and settles nothing. Where it fails, the
    /// page is as it was, and the file may hold a part of the element.
    fn add_row<S: Store>(&mut self, store: &mut S, frame: &[u8]) -> Result<(), WriteFault>
        requires element { (row : Row) × IsNext self.old.page row frame.now }
        requires few { self.old.page.state.count < 2 ^ 32 - 1 }
        requires number { end_of self.old < 2 ^ 63 - 1 }
        requires fits { self.old.page.state.length + length frame.now < 2 ^ 64 }
        ensures added { OnOk result (self.new ≡ with_open_row (length frame.now) self.old) }
        ensures err { OnErr result (self.new ≡ self.old) }
        ensures fault { IfErr result (λ fault. (fault ≡ w.Memory) ⊎ (fault ≡ w.Fault)) }
        ensures memory { result ≡ Err w.Memory → store.new ≡ store.old }
        ensures keeps { result ≢ Err w.Memory
            → RowKept S.Store self.old.file frame.now store.old store.new }
        ensures ready { OnOk result
            (RowAdded S.Store self.old.file frame.now store.old store.new) }
        ensures beside { KeepsOthers S.Store (λ n. n ≡ self.old.file) store.old store.new }
        ensures cause { HasCause (S.faults store.old) (S.faults store.new) (result ≡ Err w.Fault) }
    {
        self.acknowledged.push()?;
        let mut page = self.page;
        match add_row(store, &mut page, self.file.as_str(), frame) {
            Ok(()) => {
                self.page = page;
                Ok(())
            }
            Err(_) => {
                self.acknowledged.pop();
                Err(WriteFault::Fault)
            }
        }
    }
}

impl Queue {
    /// Appends a row, which comes by the input of this id, with the next number to the head page, or to a new one
    /// where that takes no more. Before a new page all is recorded, as by a mark. The answer is the number of the
    /// row; it stands when a mark behind it has succeeded.
    ///
    /// A new page is needed where the head page is of version 1, has 2^32 - 1 rows, or has a row and would have more
    /// than `page_capacity` bytes. Behind `Fault` the queue has to be opened again, and the row may
    /// stand; each other refusal leaves queue and store as they were.
    pub fn write<S: Store>(
        &mut self,
        alloc: Global,
        store: &mut S,
        origin: &str,
        event: &Event,
    ) -> Result<u64, WriteFault>
        requires some { 1 ≤ length origin.now }
        requires short { length origin.now ≤ 255 }
        requires ready { IsReady S.Store self.old store.old }
        ensures number { IfOk result (λ number. number ≡ end_of self.old.top) }
        ensures written { OnOk result
            (self.new ≡ behind_write (frame_size origin.now event.now) self.old) }
        ensures err { OnErr result (self.new ≡ self.old) }
        ensures ready { OnOk result (IsReady S.Store self.new store.new) }

        // Of the queue of a folder: a stop at any moment leaves it, or it with the row, which may be missing.
        ensures keeps { KeepsEither S.Store (with_written self.old origin.now event.now) self.old
            store.old store.new }
        ensures adds { OnOk result (Becomes S.Store (with_written self.old origin.now event.now)
            self.old self.new store.old store.new) }

        // Other files read as before, and a stop leaves them as it might have left them.
        ensures beside { ReadsBeside S.Store (IsOwn (names_in self.old.folder)) store.old
            store.new }
        ensures beside_moments { EachMoment S.Store store.old store.new
            (LeavesBeside S.Store (IsOwn (names_in self.old.folder)) store.old) }

        // Each fault exactly where it has its cause.
        ensures spent { (result ≡ Err w.NumbersSpent)
            ↔ (numbers_spent (frame_size origin.now event.now) self.old ≡ true) }
        ensures full { (result ≡ Err w.Full)
            ↔ ((numbers_spent (frame_size origin.now event.now) self.old ≡ false)
            × (is_full (frame_size origin.now event.now) self.old ≡ true)) }
        ensures refused { IfErr result (λ fault.
            (fault ≡ w.Fault) ⊎ (store.new ≡ store.old)) }
        ensures cause { HasCause (S.faults store.old) (S.faults store.new) (result ≡ Err w.Fault) }
    {
        let size = frame_size(origin, event);
        let needed = self.needs_page(size);
        if self.top.is_spent_with(needed) {
            return Err(WriteFault::NumbersSpent);
        }
        if self.is_full(size, needed) {
            return Err(WriteFault::Full);
        }
        let number = self.top.end();
        let mut frame = Vec::new(alloc);
        frame_row(number, origin, event, &mut frame)?;
        self.put(alloc, store, needed, frame.as_slice())?;
        Ok(number)
    }

    /// Appends the element of the next row to the head page, or to a new one.
    fn put<S: Store>(
        &mut self,
        alloc: Global,
        store: &mut S,
        needed: bool,
        frame: &[u8],
    ) -> Result<(), WriteFault>
        requires ready { IsReady S.Store self.old store.old }
        requires takes { needed ≡ false → TakesRow (length frame.now) self.old.top }
        requires page { needed ≡ true → suc self.old.top.number < 2 ^ 32 - 1 }
        requires fits { end_of self.old.top < 2 ^ 63 - 1 }
        requires frame { HasFrame (end_of self.old.top) frame.now }
        requires short { length frame.now < 2 ^ 32 }
        ensures grown { OnOk result
            (self.new ≡ behind_append (length frame.now) (made_ready needed self.old)) }
        ensures err { OnErr result (self.new ≡ self.old) }
        ensures fault { IfErr result (λ fault. (fault ≡ w.Memory) ⊎ (fault ≡ w.Fault)) }
        ensures memory { result ≡ Err w.Memory → store.new ≡ store.old }
        ensures ready { OnOk result (IsReady S.Store self.new store.new) }
        ensures keeps { KeepsRow S.Store (written needed) self.old frame.now store.old store.new }
        ensures adds { OnOk result
            (AddsRow S.Store (written needed) self.old self.new frame.now store.old store.new) }
        ensures beside { KeepsOthers S.Store (IsOwn (names_in self.old.folder)) store.old
            store.new }
        ensures cause { HasCause (S.faults store.old) (S.faults store.new) (result ≡ Err w.Fault) }
    {
        if needed {
            self.roll(alloc, store, frame)
        } else {
            self.append(store, frame)
        }
    }

    /// Appends the element of the next row to the head page.
    fn append<S: Store>(&mut self, store: &mut S, frame: &[u8]) -> Result<(), WriteFault>
        requires ready { IsReady S.Store self.old store.old }
        requires takes { TakesRow (length frame.now) self.old.top }
        requires fits { end_of self.old.top < 2 ^ 63 - 1 }
        requires frame { HasFrame (end_of self.old.top) frame.now }
        requires short { length frame.now < 2 ^ 32 }
        ensures grown { OnOk result (self.new ≡ behind_append (length frame.now) self.old) }
        ensures err { OnErr result (self.new ≡ self.old) }
        ensures fault { IfErr result (λ fault. (fault ≡ w.Memory) ⊎ (fault ≡ w.Fault)) }
        ensures memory { result ≡ Err w.Memory → store.new ≡ store.old }
        ensures ready { OnOk result (IsReady S.Store self.new store.new) }
        ensures keeps { KeepsRow S.Store row_here self.old frame.now store.old store.new }
        ensures adds { OnOk result
            (AddsRow S.Store row_here self.old self.new frame.now store.old store.new) }
        ensures beside { KeepsOthers S.Store (IsOwn (names_in self.old.folder)) store.old
            store.new }
        ensures cause { HasCause (S.faults store.old) (S.faults store.new) (result ≡ Err w.Fault) }
    {
        let bytes = self.bytes_with(frame.len() as u64);
        self.top.add_row(store, frame)?;
        self.bytes = bytes;
        self.unread = self.unread.saturating_add(1);
        Ok(())
    }

    /// Records all, and appends the element of the next row to a new head page.
    fn roll<S: Store>(
        &mut self,
        alloc: Global,
        store: &mut S,
        frame: &[u8],
    ) -> Result<(), WriteFault>
        requires ready { IsReady S.Store self.old store.old }
        requires page { suc self.old.top.number < 2 ^ 32 - 1 }
        requires fits { end_of self.old.top < 2 ^ 63 - 1 }
        requires frame { HasFrame (end_of self.old.top) frame.now }
        requires short { length frame.now < 2 ^ 32 }
        ensures grown { OnOk result (self.new
            ≡ behind_append (length frame.now) (behind_roll (behind_mark self.old))) }
        ensures err { OnErr result (self.new ≡ self.old) }
        ensures fault { IfErr result (λ fault. (fault ≡ w.Memory) ⊎ (fault ≡ w.Fault)) }
        ensures memory { result ≡ Err w.Memory → store.new ≡ store.old }
        ensures keeps { KeepsRow S.Store row_behind self.old frame.now store.old store.new }
        ensures adds { OnOk result (Begun S.Store self.old frame.now store.old store.new) }
        ensures beside { KeepsOthers S.Store (IsOwn (names_in self.old.folder)) store.old
            store.new }
        ensures cause { HasCause (S.faults store.old) (S.faults store.new) (result ≡ Err w.Fault) }
    {
        let bytes = self.bytes_with(frame.len() as u64 + 1);
        let unread = self.unread.saturating_add(1);
        let acknowledged = first_row(alloc)?;
        self.tails.reserve(1)?;
        set_marks(&mut self.marks, self.tails.as_slice(), &self.top);
        self.marks.reserve(1)?;
        let next = next_page(alloc, self.folder.as_str(), &self.top)?;
        let begun = begin(store, self.marks.as_slice(), &next, frame);
        let NextPage {
            checkpoint,
            sealed,
            file,
            head: _head,
            turn,
            state,
        } = next;
        let page = begun?;
        let top = OpenPage {
            number: state.page,
            file,
            page,
            acknowledged,
            from: state.least,
            turn,
        };
        let old = replace_top(&mut self.top, top);
        add_tail(&mut self.tails, old);
        let mark = Mark {
            file: checkpoint,
            turn: 0,
            state: sealed,
            due: false,
        };
        add_mark(&mut self.marks, mark);
        self.bytes = bytes;
        self.unread = unread;
        Ok(())
    }

    /// Whether a row of so many bytes needs a new page.
    fn needs_page(&self, size: u64) -> bool
        ensures needed { result ≡ needs_page size self.now }
        ensures takes { result ≡ false → TakesRow size self.now.top }
    {
        self.top.is_closed() || self.top.has_no_room(self.limits.page_capacity, size)
    }

    /// Whether a row isn't acknowledged, and a row of so many bytes more has no room.
    #[tactic(auto, unfolding(crate::specs::Writing::is_full_with))]
    fn is_full(&self, size: u64, needed: bool) -> bool
        requires { size < 2 ^ 32 }
        ensures { result ≡ is_full_with needed size self.now }
    {
        let first = if needed { 1 } else { 0 };
        self.bytes_with(size + first) > u128::from(self.limits.max_bytes)
            && (self.top.is_open() || some_open(self.tails.as_slice()))
    }

    /// How many bytes all pages have with so many more.
    fn bytes_with(&self, more: u64) -> u128
        requires { more < 2 ^ 33 }
        ensures { result ≡ bytes_in self.now + more }
    {
        match self.bytes.checked_add(u128::from(more)) {
            Some(bytes) => bytes,
            // The bytes of pages that stand in memory have no more than 128 bits.
            None => {
                let tails = count_bytes(self.tails.as_slice());
                tails + u128::from(self.top.page.state().length) + u128::from(more)
            }
        }
    }
}
