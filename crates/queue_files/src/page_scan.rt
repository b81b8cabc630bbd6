// The pages below the head, read one after the other.
ghost use Rattle.std.specs.Prelude.{◌≡◌, ◌≤◌, ◌-◌, ◌+◌, ◌++◌, ◌∷◌, ◌^◌, [], IsTrue, IfOk, Err, None, map, false, option_map};
ghost use Rattle.io_traits.specs.Counts.{HasCause};
ghost use Rattle.io_traits.specs.Reads.{bytes_of};
ghost use Rattle.io_traits.specs.Calls.{ChangesNothing};
ghost use Rattle.io_traits.specs.declared.queue_faults.QueueFault.TheVariants as f;
ghost use Rattle.queue_page.specs.Blocks.{AreBytesIn};
ghost use Rattle.queue_page.specs.Views.{PageView};
ghost use Rattle.queue_files.specs.Folders.{Folder, page, names_in};
ghost use Rattle.queue_files.specs.Found.{falling, head_held};
ghost use Rattle.queue_files.specs.Marks.{read_in};
ghost use Rattle.queue_files.specs.Collected.{Finds};
ghost use Rattle.queue_files.specs.Opening.{AllBounded, held_tail, view_at, views_of, falls_at};
ghost use Rattle.queue_files.specs.Queues.{AreNewest, HaveBytes};
ghost use Rattle.queue_files.specs.Reading.{FindsBelow};

use crate::checkpoint_state::Differing;
use crate::naming::page_name;
use crate::sealed_pages::{SealedPage, damaged, read_tails};
use io_traits::{PageState, QueueFault, Store};
use queue_page::Page;
use std::alloc::Global;

/// The pages below the head.
#[derive(Drop)]
pub(crate) struct PagesBelow {
    /// What their checkpoints tell of them.
    pub(crate) tails: Vec<SealedPage>,
    /// These pages.
    pub(crate) pages: Vec<Page>,
}

/// The pages of these numbers below the head, of which the head slot says this, or the first damage: of a
/// checkpoint, of a number that falls, or within what is recorded of a page.
pub(crate) fn read_below<S: Store>(
    alloc: Global,
    store: &mut S,
    folder: &str,
    numbers: &[u32],
    head: &PageState,
) -> Result<PagesBelow, QueueFault>
    ensures found { IsTrue S.tells → FindsBelow (names_in folder.now)
        (read_in (names_in folder.now) (S.seen store.old)) head.now numbers.now result }
    ensures newest { IfOk result (λ r. IsTrue S.tells
        → AreNewest (read_in (names_in folder.now) (S.seen store.old)) r.tails.items) }
    ensures bytes { IfOk result (λ r. IsTrue S.tells
        → HaveBytes (read_in (names_in folder.now) (S.seen store.old)) r.tails.items) }
    ensures states { IfOk result (λ r. map (λ t. t.state) r.tails.items
        ≡ map (λ (p : PageView). p.state) r.pages.items) }
    ensures bounded { IfOk result (λ r. AllBounded r.tails.items) }
    ensures rises { IfOk result (λ r. (folder : Folder) → falling 0
        (map (held_tail folder) r.tails.items ++ head_held folder head.now ∷ []) ≡ None) }
    ensures same { ChangesNothing S.tells S.seen S.moment S.may_leave store.old store.new }
    ensures cause { HasCause (S.faults store.old) (S.faults store.new) (result ≡ Err f.Fault) }
{
    let tails = read_tails(alloc, store, folder, numbers)?;
    if let Some((number, differing)) = first_out_of_order(tails.as_slice(), head) {
        let name = page_name(alloc, folder, number)?;
        return Err(damaged(name, differing));
    }
    let pages = scan_tails(alloc, store, folder, tails.as_slice())?;
    Ok(PagesBelow { tails, pages })
}

/// The first page whose least number is below the end of the numbers before it, with these two.
fn first_out_of_order(tails: &[SealedPage], head: &PageState) -> Option<(u32, Differing)>
    requires { AllBounded tails.now }
    ensures { (folder : Folder) → option_map falls_at result
        ≡ falling 0 (map (held_tail folder) tails.now ++ head_held folder head.now ∷ []) }
{
    let mut end = 0;
    for tail in tails {
        let least = tail.state.least;
        if least < end {
            return Some((
                tail.number,
                Differing {
                    found: least,
                    expected: end,
                },
            ));
        }
        end = least + tail.state.count as u64;
    }
    if head.least < end {
        return Some((
            head.page,
            Differing {
                found: head.least,
                expected: end,
            },
        ));
    }
    None
}

/// The pages of which these tell, or the first damage within what is recorded of one.
fn scan_tails<S: Store>(
    alloc: Global,
    store: &mut S,
    folder: &str,
    tails: &[SealedPage],
) -> Result<Vec<Page>, QueueFault>
    requires { AllBounded tails.now }
    ensures pages { IsTrue S.tells
        → Finds (λ pages. pages.items) (names_in folder.now) result
        (views_of (read_in (names_in folder.now) (S.seen store.old)) tails.now) }
    ensures states { IfOk result (λ pages. map (λ t. t.state) tails.now
        ≡ map (λ (p : PageView). p.state) pages.items) }
    ensures bytes { IfOk result (λ pages. IsTrue S.tells
        → HaveBytes (read_in (names_in folder.now) (S.seen store.old)) tails.now) }
    ensures same { ChangesNothing S.tells S.seen S.moment S.may_leave store.old store.new }
    ensures cause { HasCause (S.faults store.old) (S.faults store.new) (result ≡ Err f.Fault) }
{
    let mut pages = Vec::new(alloc);
    for tail in tails {
        match scan_tail(alloc, store, folder, tail) {
            Ok(page) => match pages.push(page) {
                Ok(()) => {}
                Err(_) => return Err(QueueFault::Memory),
            },
            Err(fault) => return Err(fault),
        }
    }
    Ok(pages)
}

/// The page of which this tells.
fn scan_tail<S: Store>(
    alloc: Global,
    store: &mut S,
    folder: &str,
    tail: &SealedPage,
) -> Result<Page, QueueFault>
    requires { tail.now.state.least + tail.now.state.count ≤ 2 ^ 63 - 1 }
    ensures page { IsTrue S.tells → Finds (λ page. page) (names_in folder.now) result
        (view_at false
        (held_tail (read_in (names_in folder.now) (S.seen store.old)) tail.now)) }
    ensures state { IfOk result (λ page. page.state ≡ tail.now.state) }
    ensures bytes { IfOk result (λ read. IsTrue S.tells → AreBytesIn 0 tail.now.state.length
        (bytes_of (S.seen store.old (names_in folder.now (page tail.now.number))))) }
    ensures same { ChangesNothing S.tells S.seen S.moment S.may_leave store.old store.new }
    ensures cause { HasCause (S.faults store.old) (S.faults store.new) (result ≡ Err f.Fault) }
{
    let name = page_name(alloc, folder, tail.number)?;
    Page::scan(alloc, store, name.as_str(), &tail.state, false)
}
