// A queue that is opened.
ghost use Rattle.std.specs.Prelude.{◌≡◌, ◌≤◌, ◌<◌, ◌+◌, ◌-◌, ◌++◌, ◌∷◌, ◌^◌, [], map, IsTrue, IfOk, Err};
ghost use Rattle.io_traits.specs.Counts.{HasCause};
ghost use Rattle.io_traits.specs.Folders.{folder_start};
ghost use Rattle.io_traits.specs.Moments.{EachMoment, LeavesBeside, ReadsBeside};
ghost use Rattle.io_traits.specs.declared.queue_faults.QueueFault.TheVariants as f;
ghost use Rattle.queue_page.specs.Views.{PageView};
ghost use Rattle.queue_files.specs.Folders.{head, page, checkpoint, IsOwn, names_in};
ghost use Rattle.queue_files.specs.Known.{AreStated};
ghost use Rattle.queue_files.specs.Marks.{read_in};
ghost use Rattle.queue_files.specs.Opened.{KeepsOpened, OpeningKeeps};
ghost use Rattle.queue_files.specs.Opening.{AllBounded};
ghost use Rattle.queue_core.specs.Calls.{tail_bytes, tail_checkpoints};
ghost use Rattle.queue_core.specs.Opening.{cursor_at, first_of, page_opened, queue_opened, queue_with, tails_opened, unread_in, unread_of, FindsQueue, OpensFolder};
ghost use Rattle.queue_core.specs.Opens.{IsReady};
ghost use Rattle.queue_core.specs.Views.{OpenPageView};

use crate::acknowledged::Acknowledged;
use crate::batch::Cursor;
use crate::kept::KeptRows;
use crate::limits::{Limits, Numbers};
use crate::pages::OpenPage;
use crate::queue::Queue;
use crate::writing::count_bytes;
use io_traits::{PageState, QueueFault, Store};
use plain_data::{Items, Text};
use queue_files::{
    Mark, OpenedQueue, SealedPage, checkpoint_name, head_name, open_folder, page_name,
};
use queue_page::{BLOCK_LEN, Page, PageBuffer};
use std::alloc::{AllocError, Global};

impl Queue {
    /// Opens the queue in a folder, whose path ends with a slash: it has the unread rows that the folder
    /// holds as the store reads, and gives these. `open_folder` of `queue_files` does with the files what there is
    /// to do: it settles them, begins a new folder, and removes and cuts what no slot speaks of.
    ///
    /// What is damaged first is told, with its file. A stop at any moment leaves what it might have left
    /// before, or a folder that holds the same. All memory that `acknowledge`, `mark` and `purge` need is
    /// taken here.
    pub fn open_on<S: Store>(
        alloc: Global,
        store: &mut S,
        folder: &str,
        limits: Limits,
    ) -> Result<Queue, QueueFault>
        requires { folder_start folder.now ≡ folder.now }
        ensures found { IsTrue S.tells → FindsQueue folder.now limits
            (read_in (names_in folder.now) (S.seen store.old)) result }
        ensures any_moment { KeepsOpened S.Store (names_in folder.now) store.old store.new }
        ensures keeps { OpeningKeeps S.Store (names_in folder.now) store.old store.new }

        // It takes calls, and stands for the queue of the folder.
        ensures ready { IfOk result (λ queue. IsReady S.Store queue store.new) }
        ensures opens { IfOk result (λ queue. OpensFolder S.Store folder.now limits store.old
            store.new queue) }

        // Other files read as before, and a stop leaves them as it might have left them.
        ensures beside { ReadsBeside S.Store (IsOwn (names_in folder.now)) store.old
            store.new }
        ensures beside_moments { EachMoment S.Store store.old store.new
            (LeavesBeside S.Store (IsOwn (names_in folder.now)) store.old) }

        ensures cause { HasCause (S.faults store.old) (S.faults store.new) (result ≡ Err f.Fault) }
    {
        let opened = open_folder(alloc, store, folder)?;
        match queue_of(alloc, folder, limits, &opened) {
            Ok(queue) => Ok(queue),
            Err(_) => Err(QueueFault::Memory),
        }
    }
}

/// The queue of a folder of which this was read.
fn queue_of(
    alloc: Global,
    folder: &str,
    limits: Limits,
    opened: &OpenedQueue,
) -> Result<Queue, AllocError>
    requires { AreStated opened.now.state opened.now.pages }
    ensures { IfOk result (λ queue. queue ≡ queue_opened folder.now limits opened.now) }
{
    let turn = opened.turn;
    let state = opened.state;
    let below = opened.pages.tails.as_slice();
    let marks = new_marks(alloc, folder, below, turn, state)?;
    let tails = held_pages(alloc, folder, below, opened.pages.pages.as_slice())?;
    let page = opened.pages.top;
    let top = held_page(alloc, folder, state.page, turn, state.first_open, page)?;
    with_pages(alloc, folder, limits, tails, top, marks)
}

/// The queue that has these pages, with a mark for each checkpoint.
fn with_pages(
    alloc: Global,
    folder: &str,
    limits: Limits,
    tails: Vec<OpenPage>,
    top: OpenPage,
    marks: Vec<Mark>,
) -> Result<Queue, AllocError>
    requires files { map (λ (o : OpenPageView). o.file) tails.items
        ≡ map (λ (o : OpenPageView). names_in folder.now (page o.number)) tails.items }
    requires file { top.file ≡ names_in folder.now (page top.number) }
    requires marks { map (λ m. m.file) marks.items
        ≡ tail_checkpoints folder.now tails.items ++ names_in folder.now head ∷ [] }
    requires few { unread_in tails.items + unread_of top < 2 ^ 64 }
    ensures { IfOk result (λ queue. queue ≡ queue_with folder.now limits tails.items top) }
{
    let folder = Text::of(alloc, folder)?;
    let cursor = first_row(alloc, tails.as_slice(), &top)?;
    let bytes = bytes_in(tails.as_slice(), &top);
    let unread = unread_in(tails.as_slice(), &top);
    Ok(Queue {
        folder,
        limits,
        tails,
        top,
        marks,
        bytes,
        unread,
        cursor,
    })
}

/// A mark for each checkpoint of a folder, that of the head page behind the others.
fn new_marks(
    alloc: Global,
    folder: &str,
    tails: &[SealedPage],
    turn: u64,
    state: PageState,
) -> Result<Vec<Mark>, AllocError>
    ensures { IfOk result (λ marks. map (λ m. m.file) marks.items
        ≡ map (λ t. names_in folder.now (checkpoint t.number)) tails.now
        ++ names_in folder.now head ∷ []) }
{
    let mut marks = tail_marks(alloc, folder, tails)?;
    let file = head_name(alloc, folder)?;
    marks.push(Mark {
        file,
        turn,
        state,
        due: true,
    })?;
    Ok(marks)
}

/// A mark for each checkpoint of the pages below the head.
fn tail_marks(alloc: Global, folder: &str, tails: &[SealedPage]) -> Result<Vec<Mark>, AllocError>
    ensures { IfOk result (λ marks. map (λ m. m.file) marks.items
        ≡ map (λ t. names_in folder.now (checkpoint t.number)) tails.now) }
{
    let mut marks = Vec::new(alloc);
    for tail in tails {
        let file = checkpoint_name(alloc, folder, tail.number)?;
        marks.push(Mark {
            file,
            turn: tail.turn,
            state: tail.state,
            due: false,
        })?;
    }
    Ok(marks)
}

/// The pages below the head.
fn held_pages(
    alloc: Global,
    folder: &str,
    tails: &[SealedPage],
    pages: &[Page],
) -> Result<Vec<OpenPage>, AllocError>
    requires states { map (λ t. t.state) tails.now ≡ map (λ (p : PageView). p.state) pages.now }
    requires bounded { AllBounded tails.now }
    ensures { IfOk result (λ held. held.items ≡ tails_opened folder.now tails.now pages.now) }
{
    let mut held = Vec::new(alloc);
    for place in 0..tails.len() {
        let tail = tails[place];
        let first_open = tail.state.first_open;
        let page = pages[place];
        held.push(held_page(alloc, folder, tail.number, tail.turn, first_open, page)?)?;
    }
    Ok(held)
}

/// A page of which a slot of this turn says which number is the first that isn't acknowledged.
fn held_page(
    alloc: Global,
    folder: &str,
    number: u32,
    turn: u64,
    first_open: u64,
    page: Page,
) -> Result<OpenPage, AllocError>
    requires { page.state.least + page.state.count ≤ 2 ^ 63 - 1 }
    ensures { IfOk result (λ held. held ≡ page_opened folder.now number turn first_open page) }
{
    let file = page_name(alloc, folder, number)?;
    let acknowledged = Acknowledged::none_of(alloc, page.state().count as usize)?;
    let mut held = OpenPage {
        number,
        file,
        page,
        acknowledged,
        from: first_open,
        turn,
    };
    held.acknowledge(Numbers {
        first: 0,
        behind: first_open,
    });
    Ok(held)
}

/// The place of the first row of the first page.
fn first_row(alloc: Global, tails: &[OpenPage], top: &OpenPage) -> Result<Cursor, AllocError>
    ensures { IfOk result (λ cursor. cursor ≡ cursor_at (first_of tails.now top.now)) }
{
    let block = PageBuffer::new(alloc, BLOCK_LEN)?;
    match tails.first() {
        Some(first) => Ok(row_of(alloc, first, block)),
        None => Ok(row_of(alloc, top, block)),
    }
}

/// The place of the first row of a page, of which nothing was read yet.
fn row_of(alloc: Global, page: &OpenPage, block: PageBuffer) -> Cursor
    requires { block ≡ record { place = 0; bytes = [] } }
    ensures { result ≡ cursor_at page.now }
{
    Cursor {
        page: page.number,
        number: page.state().least,
        place: 1,
        block,
        kept: KeptRows::new(alloc),
        room: Items::new(alloc),
    }
}

/// How many bytes all pages have.
fn bytes_in(tails: &[OpenPage], top: &OpenPage) -> u128
    ensures { result ≡ tail_bytes tails.now + top.now.page.state.length }
{
    count_bytes(tails) + u128::from(top.page.state().length)
}

/// How many rows of all pages aren't acknowledged.
fn unread_in(tails: &[OpenPage], top: &OpenPage) -> u64
    requires { unread_in tails.now + unread_of top.now < 2 ^ 64 }
    ensures { result ≡ unread_in tails.now + unread_of top.now }
{
    let mut unread = unread_of(top);
    for place in 0..tails.len() {
        unread += unread_of(&tails[place]);
    }
    unread
}

/// How many rows of a page come from the first on that isn't acknowledged.
fn unread_of(page: &OpenPage) -> u64
    ensures { result ≡ unread_of page.now }
{
    page.end() - page.first_open()
}
