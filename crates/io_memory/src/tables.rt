// Files by their names, in memory.
ghost use Rattle.std.specs.Prelude.{◌≡◌, Some, None, OnOk, OnErr, ◌≤◌, IfOk, length, take, option_map};
ghost use Rattle.io_traits.specs.Reads.{Gives};
ghost use Rattle.io_traits.specs.Images.{overlaid};
ghost use Rattle.io_memory.specs.Tables.{content_of, Changed, IsSame, lengthened, overwritten};

use plain_data::{Fields, Items, Text};
use std::alloc::{AllocError, Global};

/// Files by their names, which rise in byte order.
pub type FileTable = Fields<Items<u8>>;

/// Writes bytes behind the end of a file, and makes a missing one. Where there is no memory, the
/// files stay.
pub fn append_in(files: &mut FileTable, name: &str, bytes: &[u8]) -> Result<(), AllocError>
    ensures ok { OnOk result (Changed name.now (lengthened bytes.now) files.old files.new) }
    ensures err { OnErr result (IsSame files.old files.new) }
{
    let alloc = files.allocator();
    let more = Items::from_vec(Vec::from_slice(alloc, bytes)?);
    if let Some(file) = files.get_mut(name) {
        return file.append(more);
    }
    files.insert(Text::of(alloc, name)?, more)?;
    Ok(())
}

/// Writes bytes over those of a file, and makes a missing one. Where there is no memory, the files
/// stay.
pub fn write_in(files: &mut FileTable, name: &str, at: u64, bytes: &[u8]) -> Result<(), AllocError>
    ensures ok { OnOk result (Changed name.now (overwritten at bytes.now) files.old files.new) }
    ensures err { OnErr result (IsSame files.old files.new) }
{
    let alloc = files.allocator();
    if let Some(file) = files.get_mut(name) {
        *file = Items::from_vec(overlay(alloc, file.as_slice(), at, bytes)?);
        return Ok(());
    }
    let file = Items::from_vec(overlay(alloc, &[], at, bytes)?);
    files.insert(Text::of(alloc, name)?, file)?;
    Ok(())
}

fn overlay(alloc: Global, old: &[u8], at: u64, bytes: &[u8]) -> Result<Vec<u8>, AllocError>
    ensures { IfOk result (λ v. v.items ≡ overlaid at bytes.now old.now) }
{
    let from = (at as usize).min(old.len());
    let mut new = old[..from].to_vec(alloc)?;
    new.extend_from_slice(bytes)?;
    if bytes.len() < old.len() - from {
        new.extend_from_slice(&old[from + bytes.len()..])?;
    }
    Ok(new)
}

/// Cuts a file to a length. A missing one stays missing.
pub fn cut_in(files: &mut FileTable, name: &str, length: u64)
    ensures { Changed name.now (option_map (take length)) files.old files.new }
{
    if let Some(file) = files.get_mut(name) {
        file.truncate(length as usize);
    }
}

/// Removes a file, if there is one.
pub fn remove_in(files: &mut FileTable, name: &str)
    ensures { Changed name.now (λ _. None) files.old files.new }
{
    // So it is known that the names rise, each below those that follow.
    let _rising = files.members();
    let _ = files.remove(name);
}

/// The bytes of a file; None where there is no such file.
pub fn bytes_in<'a>(files: &'a FileTable, name: &str) -> Option<&'a [u8]>
    ensures { option_map (λ bytes. bytes.now) result ≡ content_of files.now name.now }
{
    match files.get(name) {
        Some(file) => Some(file.as_slice()),
        None => None,
    }
}

/// The length of a file; None where there is no such file.
pub fn length_in(files: &FileTable, name: &str) -> Option<u64>
    ensures { result ≡ option_map length (content_of files.now name.now) }
{
    match bytes_in(files, name) {
        Some(bytes) => Some(bytes.len() as u64),
        None => None,
    }
}

/// Copies the bytes of a file from the place `at` on into the front of the room, as many as stand
/// there and there is room for, and says how many.
pub fn copy_from(files: &FileTable, name: &str, at: u64, into: &mut [u8]) -> usize
    ensures within { result ≤ length into.old }
    ensures gives { Gives (content_of files.now name.now) at (length into.old) result into.new }
{
    match bytes_in(files, name) {
        Some(bytes) => copy_part(bytes, at, into),
        None => 0,
    }
}

fn copy_part(bytes: &[u8], at: u64, into: &mut [u8]) -> usize
    ensures within { result ≤ length into.old }
    ensures gives { Gives (Some bytes.now) at (length into.old) result into.new }
{
    let from = (at as usize).min(bytes.len());
    let found = &bytes[from..];
    let count = found.len().min(into.len());
    into[..count].copy_from_slice(&found[..count]);
    count
}

/// The same files, in memory of their own.
pub fn copy(files: &FileTable) -> Result<FileTable, AllocError>
    ensures { IfOk result (λ copy. copy ≡ files.now) }
{
    files.clone()
}
