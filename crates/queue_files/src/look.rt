// A look at a folder.
ghost use Rattle.std.specs.Prelude.{◌≡◌, ◌==◌, IsTrue, IfOk, IfErr, Err};
ghost use Rattle.std.specs.List.{list_all};
ghost use Rattle.io_traits.specs.Counts.{HasCause};
ghost use Rattle.io_traits.specs.Folders.{folder_start};
ghost use Rattle.io_traits.specs.Reads.{bytes_of};
ghost use Rattle.io_traits.specs.Calls.{ChangesNothing};
ghost use Rattle.io_traits.specs.declared.queue_faults.QueueFault.TheVariants as f;
ghost use Rattle.slot_files.specs.Checkpoints.{slots_of};
ghost use Rattle.queue_files.specs.Folders.{Folder, head, names_in};
ghost use Rattle.queue_files.specs.Found.{has_page_0_at_most, is_new};
ghost use Rattle.queue_files.specs.Collected.{IsNoDamage};
ghost use Rattle.queue_files.specs.Listing.{IsListed};
ghost use Rattle.queue_files.specs.Opened.{IsLook};

use crate::checkpoint_state::SLOT_LEN;
use crate::listing::{Listing, list_folder};
use crate::naming::head_name;
use io_traits::{QueueFault, Store};
use plain_data::Text;
use slot_files::{Checkpoint, Slots};
use std::alloc::Global;

/// What a folder looks like before anything of it is changed.
#[derive(Drop)]
pub(crate) struct Look {
    /// The numbers of its files.
    pub(crate) listing: Listing,
    /// The path of the checkpoint of the head page.
    pub(crate) head: Text,
    /// What that says.
    pub(crate) slots: Slots,
}

/// Looks at a folder, whose path ends with a slash.
pub(crate) fn look_at<S: Store>(
    alloc: Global,
    store: &mut S,
    folder: &str,
) -> Result<Look, QueueFault>
    requires { folder_start folder.now ≡ folder.now }
    ensures looked { IfOk result (λ look. IsTrue S.tells
        → IsLook (names_in folder.now) (S.seen store.old) look) }
    ensures head { IfOk result (λ look. look.head ≡ names_in folder.now head) }
    ensures whole { IfErr result (λ fault. IsNoDamage fault) }
    ensures same { ChangesNothing S.tells S.seen S.moment S.may_leave store.old store.new }
    ensures cause { HasCause (S.faults store.old) (S.faults store.new) (result ≡ Err f.Fault) }
{
    let listing = list_folder(alloc, store, folder)?;
    let head = head_name(alloc, folder)?;
    let slots = Checkpoint::newest(store, head.as_str())?;
    Ok(Look {
        listing,
        head,
        slots,
    })
}

/// Whether a folder is new: no slot of its head was ever whole, and no other file of a queue stands there but
/// page 0.
pub(crate) fn is_new(slots: &Slots, listing: &Listing) -> bool
    ensures { (folder : Folder) → slots.now ≡ slots_of (bytes_of (folder head))
        → IsListed folder listing.now → result ≡ is_new folder }
{
    if slots.newest.is_some() {
        return false;
    }
    if slots.length > SLOT_LEN {
        return false;
    }
    has_page_0_at_most(listing)
}

/// Whether no page stands but page 0, and no checkpoint of a page below a head.
fn has_page_0_at_most(listing: &Listing) -> bool
    ensures { (folder : Folder) → IsListed folder listing.now → result ≡ has_page_0_at_most folder }
{
    let checkpoints = listing.checkpoints.as_slice();
    if !checkpoints.is_empty() {
        return false;
    }
    are_zero(listing.pages.as_slice())
}

/// Whether all of these are 0.
fn are_zero(numbers: &[u32]) -> bool
    ensures { result ≡ list_all (λ n. n == 0) numbers.now }
{
    numbers.iter().all(|number| *number == 0)
}
