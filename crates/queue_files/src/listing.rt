// The numbers of the pages and checkpoints in a folder.
ghost use Rattle.std.specs.Prelude.{◌≡◌, ◌↔◌, ◌<◌, ◌^◌, ◌++◌, ℕ, All, Contains, IsTrue, IfOk, IfErr, Err};
ghost use Rattle.std.specs.Fmt.{decimal};
ghost use Rattle.std.specs.List.Sorted.{IsStrictlyIncreasing};
ghost use Rattle.io_traits.specs.Counts.{HasCause};
ghost use Rattle.io_traits.specs.Folders.{folder_start};
ghost use Rattle.io_traits.specs.Calls.{ChangesNothing};
ghost use Rattle.io_traits.specs.declared.queue_faults.QueueFault.TheVariants as f;
ghost use Rattle.queue_files.specs.Folders.{names_in};
ghost use Rattle.queue_files.specs.Collected.{IsNoDamage};
ghost use Rattle.queue_files.specs.Marks.{read_in};
ghost use Rattle.queue_files.specs.Listing.{IsListed};

use crate::naming::{CHECKPOINT, PAGE, number_in};
use io_traits::{QueueFault, Store};
use plain_data::Text;
use std::alloc::{AllocError, Global};

/// The numbers of the pages in a folder, and of its checkpoints but for that of the head page, in rising
/// order.
#[derive(Drop)]
pub struct Listing {
    /// The pages.
    pub pages: Vec<u32>,
    /// The checkpoints.
    pub checkpoints: Vec<u32>,
}

/// What is in a folder, whose path ends with a slash. Files with names like `page.007` are none of a queue.
pub fn list_folder<S: Store>(
    alloc: Global,
    store: &mut S,
    folder: &str,
) -> Result<Listing, QueueFault>
    requires { folder_start folder.now ≡ folder.now }
    ensures listed { IfOk result (λ listing. IsTrue S.tells
        → IsListed (read_in (names_in folder.now) (S.seen store.old)) listing) }
    ensures whole { IfErr result (λ fault. IsNoDamage fault) }
    ensures same { ChangesNothing S.tells S.seen S.moment S.may_leave store.old store.new }
    ensures cause { HasCause (S.faults store.old) (S.faults store.new) (result ≡ Err f.Fault) }
{
    let names = store.list(alloc, folder)?;
    let pages = numbers_of(alloc, names.as_slice(), PAGE)?;
    let checkpoints = numbers_of(alloc, names.as_slice(), CHECKPOINT)?;
    Ok(Listing { pages, checkpoints })
}

/// The numbers in the names of this kind, in rising order.
fn numbers_of(alloc: Global, names: &[Text], kind: &str) -> Result<Vec<u32>, AllocError>
    ensures rises { IfOk result (λ numbers. IsStrictlyIncreasing numbers.items) }
    ensures each { IfOk result (λ numbers. (n : ℕ) → Contains numbers.items n
        ↔ ((n < 2 ^ 32) × Contains names.now (kind.now ++ decimal n))) }
{
    let mut numbers = numbers_in(alloc, names, kind)?;
    numbers.sort_unstable();
    numbers.dedup();
    Ok(numbers)
}

/// The numbers in the names of this kind, in the order of the names.
fn numbers_in(alloc: Global, names: &[Text], kind: &str) -> Result<Vec<u32>, AllocError>
    ensures from { IfOk result (λ numbers.
        All (λ n. (n < 2 ^ 32) × Contains names.now (kind.now ++ decimal n)) numbers.items) }
    ensures all { IfOk result (λ numbers. (n : ℕ) → n < 2 ^ 32
        → Contains names.now (kind.now ++ decimal n) → Contains numbers.items n) }
{
    let mut numbers = Vec::new(alloc);
    for name in names {
        if let Some(number) = number_in(name.as_str(), kind) {
            numbers.push(number)?;
        }
    }
    Ok(numbers)
}
