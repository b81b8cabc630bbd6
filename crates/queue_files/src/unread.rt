// The files of a folder of which nothing is found.
ghost use Rattle.std.specs.Prelude.{◌≡◌, ◌++◌, not, IfOk, IfErr, OnOk, Err};
ghost use Rattle.io_traits.specs.Counts.{HasCause};
ghost use Rattle.io_traits.specs.declared.queue_faults.QueueFault.TheVariants as f;
ghost use Rattle.queue_files.specs.Folders.{IsOwn, names_in};
ghost use Rattle.queue_files.specs.Collected.{IsNoDamage};
ghost use Rattle.queue_files.specs.Others.{KeepsOthers};
ghost use Rattle.queue_files.specs.Unread.{is_paired, pages_above, unpaired, unread_names, UnreadGo, UnreadAreGone};

use crate::listing::Listing;
use crate::naming::{checkpoint_name, page_name};
use crate::removing::remove_files;
use io_traits::{PageState, QueueFault, Store};
use plain_data::Text;
use std::alloc::{AllocError, Global};

/// Removes the files of a folder of which nothing is found, where the head slot says this: pages above the
/// head, and checkpoints from it on or without a page. Then it settles that.
///
/// A stop at any moment leaves a folder that holds the same.
pub(crate) fn remove_unread<S: Store>(
    alloc: Global,
    store: &mut S,
    folder: &str,
    listing: &Listing,
    head: &PageState,
) -> Result<(), QueueFault>
    ensures keeps { UnreadGo S.Store (names_in folder.now) listing.now head.now store.old
        store.new }
    ensures gone { OnOk result
        (UnreadAreGone S.Store (names_in folder.now) listing.now head.now store.old store.new) }
    ensures beside { KeepsOthers S.Store (IsOwn (names_in folder.now)) store.old store.new }
    ensures whole { IfErr result (λ fault. IsNoDamage fault) }
    ensures cause { HasCause (S.faults store.old) (S.faults store.new) (result ≡ Err f.Fault) }
{
    let names = unread_names(alloc, folder, listing, head.page)?;
    remove_files(store, names.as_slice())?;
    Ok(())
}

/// The paths of these files.
fn unread_names(
    alloc: Global,
    folder: &str,
    listing: &Listing,
    head: u32,
) -> Result<Vec<Text>, AllocError>
    ensures { IfOk result (λ names. names.items ≡ unread_names folder.now head listing.now) }
{
    let pages = listing.pages.as_slice();
    let mut names = Vec::new(alloc);
    add_pages(alloc, &mut names, folder, pages, head)?;
    add_checkpoints(
        alloc,
        &mut names,
        folder,
        pages,
        listing.checkpoints.as_slice(),
        head,
    )?;
    Ok(names)
}

/// Adds the paths of the pages above the head.
fn add_pages(
    alloc: Global,
    names: &mut Vec<Text>,
    folder: &str,
    pages: &[u32],
    head: u32,
) -> Result<(), AllocError>
    ensures { OnOk result (names.new.items ≡ names.old.items ++ pages_above folder.now head
        pages.now) }
{
    for number in pages {
        if head < *number {
            let name = page_name(alloc, folder, *number)?;
            names.push(name)?;
        }
    }
    Ok(())
}

/// Adds the paths of the checkpoints that speak of none of these pages below the head.
fn add_checkpoints(
    alloc: Global,
    names: &mut Vec<Text>,
    folder: &str,
    pages: &[u32],
    checkpoints: &[u32],
    head: u32,
) -> Result<(), AllocError>
    ensures { OnOk result
        (names.new.items ≡ names.old.items ++ unpaired folder.now head pages.now checkpoints.now) }
{
    for number in checkpoints {
        if is_unpaired(pages, head, *number) {
            let name = checkpoint_name(alloc, folder, *number)?;
            names.push(name)?;
        }
    }
    Ok(())
}

/// Whether the checkpoint of this number speaks of none of these pages below the head.
fn is_unpaired(pages: &[u32], head: u32, number: u32) -> bool
    ensures { result ≡ not (is_paired head pages.now number) }
{
    if number < head {
        !pages.contains(&number)
    } else {
        true
    }
}
