// The files of a queue's folder, by their names.
ghost use Rattle.std.specs.Prelude.{◌≡◌, ◌++◌, ◌<◌, ◌^◌, ℕ, Some, IfOk, IfSome};
ghost use Rattle.std.specs.Fmt.{decimal};
ghost use Rattle.queue_files.specs.Folders.{page, checkpoint, head, names_in};

use itoa::Buffer;
use plain_data::Text;
use slot_files::number_of;
use std::alloc::{AllocError, Global};

/// What the name of a page begins with.
pub(crate) const PAGE: &str = "page.";

/// What the name of a checkpoint begins with.
pub(crate) const CHECKPOINT: &str = "checkpoint.";

/// The path of the page of this number, in a folder whose path ends with a slash.
pub fn page_name(alloc: Global, folder: &str, number: u32) -> Result<Text, AllocError>
    ensures { IfOk result (λ name. name ≡ names_in folder.now (page number)) }
{
    joined(alloc, folder, PAGE, Buffer::new().format(number))
}

/// The path of the checkpoint of this page below the head.
pub fn checkpoint_name(alloc: Global, folder: &str, number: u32) -> Result<Text, AllocError>
    ensures { IfOk result (λ name. name ≡ names_in folder.now (checkpoint number)) }
{
    joined(alloc, folder, CHECKPOINT, Buffer::new().format(number))
}

/// The path of the checkpoint of the head page.
pub fn head_name(alloc: Global, folder: &str) -> Result<Text, AllocError>
    ensures { IfOk result (λ name. name ≡ names_in folder.now head) }
{
    joined(alloc, folder, CHECKPOINT, "head")
}

fn joined(alloc: Global, folder: &str, kind: &str, last: &str) -> Result<Text, AllocError>
    ensures { IfOk result (λ name. name ≡ folder.now ++ (kind.now ++ last.now)) }
{
    let mut name = String::new(alloc);
    name.push_str(folder)?;
    name.push_str(kind)?;
    name.push_str(last)?;
    Ok(Text::from_string(name))
}

/// The number in a name of this kind, which is written as it is in the names of a queue's files.
pub(crate) fn number_in(name: &str, kind: &str) -> Option<u32>
    ensures some { IfSome result (λ n. name.now ≡ kind.now ++ decimal n) }
    ensures fits { IfSome result (λ n. n < 2 ^ 32) }
    ensures all { (n : ℕ) → n < 2 ^ 32 → name.now ≡ kind.now ++ decimal n → result ≡ Some n }
{
    let digits = name.strip_prefix(kind)?;
    number_of(digits)
}
