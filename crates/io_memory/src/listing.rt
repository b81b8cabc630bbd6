// The names in a folder.
ghost use Rattle.std.specs.Prelude.{◌≡◌, ◌++◌, ℕ, List, IfOk, OnOk, IsTrue, false, MatchOption};
ghost use Rattle.io_traits.specs.Folders.{Lists, IsPart, folder_start};
ghost use Rattle.io_memory.specs.Tables.{content_of};
ghost use Rattle.io_memory.specs.Parts.{Takes, IsListed};

use crate::tables::FileTable;
use plain_data::{Items, Names, Text};
use std::alloc::{AllocError, Global};

/// The last parts of the names of the files in a folder, in byte order.
pub fn list_in(files: &FileTable, alloc: Global, folder: &str) -> Result<Names, AllocError>
    ensures { IfOk result (λ names. Lists (content_of files.now) folder.now names) }
{
    let start = start_of(alloc, folder)?;
    parts_behind(files, alloc, start.as_str())
}

// The parts behind the start of all names that have one.
fn parts_behind(files: &FileTable, alloc: Global, start: &str) -> Result<Names, AllocError>
    ensures { IfOk result (λ names. IsListed start.now files.now names) }
{
    let mut names = Items::new(alloc);
    for member in files.members() {
        take_part(&mut names, alloc, start, member.0.as_str())?;
    }
    Ok(names)
}

// Takes the part behind the start of a name, if it has one.
fn take_part(names: &mut Names, alloc: Global, start: &str, name: &str) -> Result<(), AllocError>
    ensures { OnOk result (Takes start.now name.now names.old names.new) }
{
    if let Some(part) = part_in(start, name) {
        names.push(Text::of(alloc, part)?)?;
    }
    Ok(())
}

// What the names in a folder begin with.
fn start_of(alloc: Global, folder: &str) -> Result<Text, AllocError>
    ensures { IfOk result (λ start. start ≡ folder_start folder.now) }
{
    let mut start = String::from_str(alloc, folder)?;
    if folder.as_bytes().last().copied().unwrap_or(b'/') != b'/' {
        start.push('/')?;
    }
    Ok(Text::from_string(start))
}

// The part behind the start of a name that begins so, if it is one.
fn part_in<'a>(start: &str, name: &'a str) -> Option<&'a str>
    ensures { MatchOption result ((part : List ℕ) → name.now ≡ start.now ++ part → IsPart part → ⊥)
        (λ part. (name.now ≡ start.now ++ part.now) × IsPart part.now) }
{
    let part = name.strip_prefix(start)?;
    if is_part(part) { Some(part) } else { None }
}

fn is_part(part: &str) -> bool
    ensures part { IsTrue result → IsPart part.now }
    ensures none { result ≡ false → IsPart part.now → ⊥ }
{
    !part.is_empty() && !part.as_bytes().contains(&b'/')
}
