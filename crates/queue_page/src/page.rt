// A page file: its rows appended, read and counted.
ghost use Rattle.std.specs.Prelude.{◌≡◌, ◌≤◌, ◌<◌, ◌+◌, ◌-◌, ◌++◌, ◌^◌, List, ℕ, length, take, false, not, IsTrue, IsErr, IfOk, IfSome, OnOk, OnErr, Some, Err, option_map, if◌then◌else◌};
ghost use Rattle.io_traits.specs.Counts.{HasCause};
ghost use Rattle.io_traits.specs.Reads.{bytes_of, file_length};
ghost use Rattle.io_traits.specs.Images.{TornFile};
ghost use Rattle.io_traits.specs.Calls.{ChangesNothing, ChangesOne};
ghost use Rattle.io_traits.specs.Moments.{EachMoment, LeavesBeside, ReadsBeside};
ghost use Rattle.io_traits.specs.Tails.{IsSettled, AddsToTail, HoldsCut};
ghost use Rattle.io_traits.specs.declared.queue_faults.QueueFault.TheVariants as f;
ghost use Rattle.queue_page.specs.Answers.{Answers, Tells};
ghost use Rattle.queue_page.specs.Blocks.{AreBytesIn, OnFile, IsPart, left_of};
ghost use Rattle.queue_page.specs.Elements.{element_at};
ghost use Rattle.queue_page.specs.Grammar.{IsNext};
ghost use Rattle.queue_page.specs.Leaving.{LeavesSame, LeavesFirst};
ghost use Rattle.queue_page.specs.Pages.{IsGrown, opened_view, kept_of, row_at, whole_page, with_element};
ghost use Rattle.queue_page.specs.declared.row.PageRow.{PageRow as Row};
ghost use Rattle.queue_page.specs.declared.fault.RowFault.TheVariants as r;

use crate::element::{ElementPosition, read_element, read_number};
use crate::fault::{RowFault, named};
use crate::opening::{LAST_VERSION, is_version, read_page};
use crate::page_buffer::{BLOCK_LEN, PageBuffer};
use crate::row::PageRow;
use io_traits::{Failed, PageState, QueueFault, Store};
use std::alloc::Global;
use std::marker::Model;

/// A page file of a queue, of which its version is kept, and how it stands now.
#[derive(Clone, Copy)]
pub struct Page {
    version: u8,
    state: PageState,
}

impl Model for Page {
    ghost use Rattle.queue_page.specs.Views.{PageView};

    ghost Value = { PageView };

    ghost view = { λ page. record { version = page.version; state = page.state } };

    ghost inverse = { λ page. record { version = page.version; state = page.state } };
}

impl Page {
    /// The page of which the first byte alone is written: it has version 2.
    pub fn start(state: PageState) -> Page
        ensures { result ≡ record { version = 2; state = state } }
    {
        Page {
            version: LAST_VERSION,
            state,
        }
    }

    /// A page of this version that stands so.
    pub(crate) fn of(version: u8, state: PageState) -> Page
        ensures { result ≡ record { version = version; state = state } }
    {
        Page { version, state }
    }

    /// The page with so many rows more, where it has so many bytes.
    pub(crate) fn extended(self, more: u32, length: u64) -> Page
        requires { self.state.count + more < 2 ^ 32 }
        ensures { result ≡ record self {
          state = record self.state {
            count = self.state.count + more;
            length = length;
          };
        } }
    {
        let state = PageState {
            count: self.state.count + more,
            length,
            ..self.state
        };
        Page {
            version: self.version,
            state,
        }
    }

    /// How the page stands: its count and its length are those of its file now.
    pub fn state(&self) -> &PageState
        ensures { result.now ≡ self.now.state }
    {
        &self.state
    }

    /// The first byte of the page: 1 where its rows name no inputs, and else 2.
    pub fn version(&self) -> u8
        ensures { result ≡ self.now.version }
    {
        self.version
    }

    /// Opens a page that is recorded so. Within its recorded extent all is tested, and what is damaged
    /// first is told. Of the head page the longest run of intact elements behind the extent is kept, the
    /// rest is cut, and the cut is settled.
    ///
    /// It reads at least 64 KiB at once, and takes memory for that or for the largest element.
    pub fn scan<S: Store>(
        alloc: Global,
        store: &mut S,
        name: &str,
        state: &PageState,
        head: bool,
    ) -> Result<Page, QueueFault>
        requires { state.now.least + state.now.count ≤ 2 ^ 63 - 1 }

        // It is the page that the file says, or its first damage.
        ensures page { IsTrue S.tells → Answers (λ page. page) name.now result
            (opened_view head state.now (bytes_of (S.seen store.old name.now))) }

        ensures grown { IfOk result (λ page. IsGrown head state.now page.state) }

        // What was read of the file are bytes, fewer than 2^64.
        ensures bytes { IfOk result (λ page. IsTrue S.tells
            → AreBytesIn 0 page.state.length (bytes_of (S.seen store.old name.now))) }
        ensures short { IfOk result (λ page. page.state.length < 2 ^ 64) }

        // What is kept of the file, and what is settled where it was at rest.
        ensures kept { IfOk result (λ page. IsTrue S.tells → S.seen store.new name.now
            ≡ option_map (kept_of head page) (S.seen store.old name.now)) }
        ensures settled { IfOk result (λ page. (bytes : List ℕ)
            → IsSettled S.Store store.old name.now bytes
            → IsSettled S.Store store.new name.now (kept_of head page bytes)) }
        ensures same { head ≡ false
            → ChangesNothing S.tells S.seen S.moment S.may_leave store.old store.new }

        ensures any_moment { LeavesSame S.Store name.now head state.now store.old store.new }
        ensures beside { EachMoment S.Store store.old store.new
            (LeavesBeside S.Store (λ n. n ≡ name.now) store.old) }
        ensures reads { ReadsBeside S.Store (λ n. n ≡ name.now) store.old store.new }

        ensures cause { HasCause (S.faults store.old) (S.faults store.new) (result ≡ Err f.Fault) }
    {
        let len = store.length(name)?.unwrap_or(0);
        let page = scan_file(alloc, store, name, state, head, len)?;
        if !head {
            return Ok(page);
        }
        cut_rest(store, name, page.state.length, len)?;
        Ok(page)
    }

    /// The page as `scan` opens it, but nothing of the file changes: what stands behind the rows of a head
    /// page stays there.
    pub fn look<S: Store>(
        alloc: Global,
        store: &mut S,
        name: &str,
        state: &PageState,
        head: bool,
    ) -> Result<Page, QueueFault>
        requires { state.now.least + state.now.count ≤ 2 ^ 63 - 1 }
        ensures page { IsTrue S.tells → Answers (λ page. page) name.now result
            (opened_view head state.now (bytes_of (S.seen store.old name.now))) }
        ensures grown { IfOk result (λ page. IsGrown head state.now page.state) }
        ensures same { ChangesNothing S.tells S.seen S.moment S.may_leave store.old store.new }
        ensures cause { HasCause (S.faults store.old) (S.faults store.new) (result ≡ Err f.Fault) }
    {
        let len = store.length(name)?.unwrap_or(0);
        scan_file(alloc, store, name, state, head, len)
    }

    /// The page that a file is as a whole, whatever was recorded of it: all of the file is its extent, so
    /// that `read_row` and `read_next` read whatever elements stand in it, and nothing is said of its rows.
    /// `None` where the first byte is no version.
    pub fn whole<S: Store>(store: &mut S, name: &str) -> Result<Option<Page>, Failed>
        ensures page { IfOk result (λ page. IsTrue S.tells
            → page ≡ whole_page (bytes_of (S.seen store.old name.now))) }
        ensures some { IfOk result (λ page. IfSome page (λ p. 1 ≤ p.state.length)) }
        ensures same { ChangesNothing S.tells S.seen S.moment S.may_leave store.old store.new }
        ensures cause { HasCause (S.faults store.old) (S.faults store.new) (IsErr result) }
    {
        let length = store.length(name)?.unwrap_or(0);
        let mut first = [0; 1];
        store.read(name, 0, &mut first)?;
        let version = first[0];
        if length == 0 || !is_version(version) {
            return Ok(None);
        }
        let state = PageState {
            page: 0,
            first_open: 0,
            least: 0,
            count: 0,
            length,
        };
        Ok(Some(Page::of(version, state)))
    }

    /// Appends an element to the page, which holds the next row, by one append to the file, and settles
    /// nothing. Where it fails, the page is as it was, and the file may hold a part of the element.
    pub fn append_row<S: Store>(
        &mut self,
        store: &mut S,
        name: &str,
        frame: &[u8],
    ) -> Result<(), Failed>
        requires element { (row : Row) × IsNext self.old row frame.now }
        requires few { self.old.state.count < 2 ^ 32 - 1 }
        requires fits { self.old.state.length + length frame.now < 2 ^ 64 }

        ensures page { OnOk result (self.new ≡ with_element self.old (length frame.now)) }
        ensures err { OnErr result (self.new ≡ self.old) }
        ensures written { OnOk result (IsTrue S.tells → S.seen store.new name.now
            ≡ Some (bytes_of (S.seen store.old name.now) ++ frame.now)) }
        ensures tail { OnOk result (AddsToTail S.Store name.now frame.now store.old store.new) }

        ensures any_moment { LeavesFirst S.Store name.now frame.now store.old store.new }
        ensures change { ChangesOne S.tells S.seen S.moment S.may_leave store.old store.new name.now
            (TornFile (file_length (S.seen store.old name.now)) frame.now) }
        ensures beside { EachMoment S.Store store.old store.new
            (LeavesBeside S.Store (λ n. n ≡ name.now) store.old) }

        ensures cause { HasCause (S.faults store.old) (S.faults store.new) (IsErr result) }
    {
        store.append(name, frame)?;
        self.state.count += 1;
        self.state.length += frame.len() as u64;
        Ok(())
    }

    /// The row of this number, whose element begins at a place of the page. Who reads rows in order keeps
    /// the block: a part of the file is read anew only where it doesn't hold the element.
    pub fn read_next<S: Store>(
        &self,
        alloc: Global,
        store: &mut S,
        name: &str,
        block: &mut PageBuffer,
        place: u64,
        number: u64,
    ) -> Result<PageRow, QueueFault>
        requires { place ≤ self.now.state.length }
        ensures row { OnFile S.Store store.old name.now block.old (λ file.
            self.now.state.length ≤ length file → Answers (λ row. row) name.now result
            (element_at self.now.version number place (left_of file place self.now.state.length))) }
        ensures next { IfOk result (λ row. (place + 16 ≤ row.next)
            × (row.next ≤ self.now.state.length)) }
        ensures part { OnFile S.Store store.old name.now block.old (λ file. IsPart file block.new) }
        ensures same { ChangesNothing S.tells S.seen S.moment S.may_leave store.old store.new }
        ensures cause { HasCause (S.faults store.old) (S.faults store.new) (result ≡ Err f.Fault) }
    {
        let spot = ElementPosition {
            version: self.version,
            number,
            place,
            end: self.state.length,
        };
        match read_element(alloc, store, name, block, &spot) {
            Ok(row) => Ok(row),
            Err(fault) => Err(named(alloc, name, fault)),
        }
    }

    /// The row of the element that begins at a place of the page. Its number isn't tested: who reads rows
    /// in order knows which comes next.
    ///
    /// It reads the first 12 bytes of the element, and then the element.
    pub fn read_row<S: Store>(
        &self,
        alloc: Global,
        store: &mut S,
        name: &str,
        place: u64,
    ) -> Result<PageRow, QueueFault>
        requires { place ≤ self.now.state.length }
        ensures row { IsTrue S.tells
            → self.now.state.length ≤ file_length (S.seen store.old name.now)
            → Answers (λ row. row) name.now result
            (row_at self.now place (bytes_of (S.seen store.old name.now))) }
        ensures same { ChangesNothing S.tells S.seen S.moment S.may_leave store.old store.new }
        ensures cause { HasCause (S.faults store.old) (S.faults store.new) (result ≡ Err f.Fault) }
    {
        let mut block = PageBuffer::new(alloc, 0)?;
        match read_there(alloc, store, name, &mut block, self, place) {
            Ok(row) => Ok(row),
            Err(fault) => Err(named(alloc, name, fault)),
        }
    }
}

// The page in a file of so many bytes.
fn scan_file<S: Store>(
    alloc: Global,
    store: &mut S,
    name: &str,
    state: &PageState,
    head: bool,
    len: u64,
) -> Result<Page, QueueFault>
    requires { state.now.least + state.now.count ≤ 2 ^ 63 - 1 }
    ensures page { IsTrue S.tells → len ≡ file_length (S.seen store.old name.now)
        → Answers (λ page. page) name.now result
        (opened_view head state.now (bytes_of (S.seen store.old name.now))) }
    ensures within { IfOk result (λ page. page.state.length ≤ len) }
    ensures grown { IfOk result (λ page. IsGrown head state.now page.state) }
    ensures bytes { IfOk result (λ page. IsTrue S.tells
        → len ≡ file_length (S.seen store.old name.now)
        → AreBytesIn 0 page.state.length (bytes_of (S.seen store.old name.now))) }
    ensures same { ChangesNothing S.tells S.seen S.moment S.may_leave store.old store.new }
    ensures cause { HasCause (S.faults store.old) (S.faults store.new) (result ≡ Err f.Fault) }
{
    let mut block = PageBuffer::new(alloc, BLOCK_LEN)?;
    match read_page(store, name, &mut block, state, head, len) {
        Ok(page) => Ok(page),
        Err(fault) => Err(named(alloc, name, fault)),
    }
}

// The row of the element that begins there.
fn read_there<S: Store>(
    alloc: Global,
    store: &mut S,
    name: &str,
    block: &mut PageBuffer,
    page: &Page,
    place: u64,
) -> Result<PageRow, RowFault>
    requires { place ≤ page.now.state.length }
    ensures row { OnFile S.Store store.old name.now block.old (λ file.
        page.now.state.length ≤ length file
        → Tells (λ row. row) result (row_at page.now place file)) }
    ensures same { ChangesNothing S.tells S.seen S.moment S.may_leave store.old store.new }
    ensures cause { HasCause (S.faults store.old) (S.faults store.new) (result ≡ Err r.Fault) }
{
    let end = page.state.length;
    let number = read_number(store, name, block, place, end)?;
    let spot = ElementPosition {
        version: page.version,
        number,
        place,
        end,
    };
    read_element(alloc, store, name, block, &spot)
}

// Cuts a file of so many bytes to its first ones, and settles the cut; a file that has no more stays as it is.
fn cut_rest<S: Store>(store: &mut S, name: &str, kept: u64, len: u64) -> Result<(), Failed>
    requires within { kept ≤ len }
    requires file { IsTrue S.tells → len ≡ file_length (S.seen store.old name.now) }
    ensures cut { OnOk result (IsTrue S.tells → S.seen store.new name.now
        ≡ option_map (take kept) (S.seen store.old name.now)) }
    ensures settled { OnOk result ((bytes : List ℕ) → IsSettled S.Store store.old name.now bytes
        → IsSettled S.Store store.new name.now (take kept bytes)) }
    ensures any_moment { HoldsCut S.Store name.now kept store.old store.new }
    ensures beside { EachMoment S.Store store.old store.new
        (LeavesBeside S.Store (λ n. n ≡ name.now) store.old) }
    ensures reads { ReadsBeside S.Store (λ n. n ≡ name.now) store.old store.new }
    ensures cause { HasCause (S.faults store.old) (S.faults store.new) (IsErr result) }
{
    if kept < len {
        store.cut(name, kept)?;
        store.sync()?;
    }
    Ok(())
}
