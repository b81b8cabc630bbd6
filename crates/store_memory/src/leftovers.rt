// What a stop may leave of the files of a store in memory.
ghost use Rattle.std.specs.Prelude.{◌≡◌, ◌<◌, IsTrue, OnOk, IfOk, Some};
ghost use Rattle.io_traits.specs.Reads.{file_length};
ghost use Rattle.io_traits.specs.Steps.{synced};
ghost use Rattle.io_traits.specs.Leftovers.{torn, stale, with_foreign, foreign_length, write_left, cut_left, removal_left};
ghost use Rattle.store_memory.specs.Calls.{step_of, step_in};
ghost use Rattle.io_memory.specs.Tables.{content_of, Changed};
ghost use Rattle.store_memory.specs.Calls.{Applied};
ghost use Rattle.store_memory.specs.Leaving.{fate_of, left_at, IsHeld, IsLeftAfter, IsSettled, LeftBy};

use crate::calls::{Logged, StoreCall};
use crate::steps::apply;
use io_memory::{FileTable, copy, cut_in, length_in, remove_in, write_in};
use std::alloc::{AllocError, Global};

/// What becomes of a change that no sync settled.
#[derive(Clone, Copy, PartialEq, Eq)]
pub enum Left {
    /// It is there as a whole.
    Kept,
    /// It is not there.
    Lost,
    /// The first half of it is there.
    Torn,
    /// A write reached the file's length alone, and other bytes stand in place of its own. A cut is
    /// undone in its length alone, and other bytes stand behind it.
    Stale,
}

// The byte that stands for those that a disk had before.
const STALE: u8 = 165;

// The length of a file, or 0 of a missing one.
fn end_of(files: &FileTable, name: &str) -> u64
    ensures { result ≡ file_length (content_of files.now name.now) }
{
    match length_in(files, name) {
        Some(length) => length,
        None => 0,
    }
}

// What is left of a write.
fn leave_write(
    files: &mut FileTable,
    name: &str,
    at: u64,
    bytes: &[u8],
    left: Left,
) -> Result<(), AllocError>
    ensures { OnOk result
        (Changed name.now (write_left (fate_of left) at bytes.now) files.old files.new) }
{
    match left {
        Left::Kept => write_in(files, name, at, bytes),
        Left::Lost => Ok(()),
        Left::Torn => write_in(files, name, at, &bytes[..bytes.len() / 2]),
        Left::Stale => match at.checked_add(bytes.len() as u64) {
            Some(end) => write_foreign(files, name, at, end),
            None => Err(AllocError),
        },
    }
}

// Writes other bytes in the place of those from a place on, or from the end on where that comes first,
// up to the place `end`.
fn write_foreign(files: &mut FileTable, name: &str, at: u64, end: u64) -> Result<(), AllocError>
    ensures { OnOk result
        (Changed name.now (λ f. Some (with_foreign at end f)) files.old files.new) }
{
    let from = at.min(end_of(files, name));
    let foreign = vec![in files.allocator(); STALE; end.saturating_sub(from) as usize]?;
    write_in(files, name, from, foreign.as_slice())
}

// What is left of a cut.
fn leave_cut(files: &mut FileTable, name: &str, length: u64, left: Left) -> Result<(), AllocError>
    ensures { OnOk result
        (Changed name.now (cut_left (fate_of left) length) files.old files.new) }
{
    match left {
        Left::Kept => cut_in(files, name, length),
        Left::Torn => cut_halfway(files, name, length),
        Left::Lost => {}
        Left::Stale => return cut_stale(files, name, length),
    }
    Ok(())
}

// Leaves other bytes behind a cut, up to the end.
fn cut_stale(files: &mut FileTable, name: &str, length: u64) -> Result<(), AllocError>
    ensures { OnOk result (Changed name.now (cut_left stale length) files.old files.new) }
{
    match length_in(files, name) {
        Some(end) => write_foreign(files, name, length, end),
        None => Ok(()),
    }
}

// Cuts a file to the middle between its length and this one.
fn cut_halfway(files: &mut FileTable, name: &str, length: u64)
    ensures { Changed name.now (cut_left torn length) files.old files.new }
{
    let more = end_of(files, name).saturating_sub(length) / 2;
    cut_in(files, name, length.saturating_add(more));
}

// What is left of a removal.
fn leave_removal(files: &mut FileTable, name: &str, left: Left)
    ensures { Changed name.now (removal_left (fate_of left)) files.old files.new }
{
    if left == Left::Kept {
        remove_in(files, name);
    }
}

// What is left of a call, where reads gave `held`.
fn leave(
    files: &mut FileTable,
    held: &FileTable,
    call: &StoreCall,
    left: Left,
) -> Result<(), AllocError>
    ensures { OnOk result (LeftBy (fate_of left) held.now (step_of call.now) files.old files.new) }
{
    match call {
        StoreCall::Append(name, bytes) => {
            let at = end_of(held, name.as_str());
            leave_write(files, name.as_str(), at, bytes.as_slice(), left)
        }
        StoreCall::WriteAt(name, at, bytes) => {
            leave_write(files, name.as_str(), *at, bytes.as_slice(), left)
        }
        StoreCall::Cut(name, length) => { leave_cut(files, name.as_str(), *length, left) }
        StoreCall::Remove(name) => {
            leave_removal(files, name.as_str(), left);
            Ok(())
        }
        StoreCall::Sync => {
            *files = copy(held)?;
            Ok(())
        }
        _ => Ok(()),
    }
}

// How many of the calls the last sync settled.
fn settled_in(calls: &[Logged]) -> usize
    ensures { IsSettled calls.now result }
{
    let mut settled = 0;
    for at in 0..calls.len() {
        if is_sync(&calls[at]) {
            settled = at + 1;
        }
    }
    settled
}

fn is_sync(logged: &Logged) -> bool
    ensures { IsTrue result → step_in logged.now ≡ synced }
{
    match logged.call {
        StoreCall::Sync => logged.worked,
        _ => false,
    }
}

// What reads give after these calls.
fn replay(base: &FileTable, calls: &[Logged]) -> Result<FileTable, AllocError>
    ensures { IfOk result (λ files. IsHeld base.now calls.now files) }
{
    let mut files = copy(base)?;
    for logged in calls {
        redo(&mut files, logged)?;
    }
    Ok(files)
}

// Makes the step of a call of the log.
fn redo(files: &mut FileTable, logged: &Logged) -> Result<(), AllocError>
    ensures { OnOk result (Applied (step_in logged.now) files.old files.new) }
{
    if logged.worked {
        return apply(files, &logged.call);
    }
    Ok(())
}

// What is left of a call of the log, where reads gave `held`.
fn leave_in(
    files: &mut FileTable,
    held: &FileTable,
    logged: &Logged,
    left: Left,
) -> Result<(), AllocError>
    ensures { OnOk result
        (LeftBy (fate_of left) held.now (step_in logged.now) files.old files.new) }
{
    if logged.worked {
        return leave(files, held, &logged.call, left);
    }
    Ok(())
}

// What becomes of the change of the number `at` among `count` calls.
fn fate(choice: u64, count: usize, at: usize) -> Left
    requires { at < count }
    ensures { result ≡ left_at choice count at }
{
    match choice {
        0 => Left::Kept,
        1 => Left::Lost,
        2 if at + 1 == count => Left::Torn,
        2 => Left::Kept,
        _ => Left::Stale,
    }
}

/// What a stop after these calls may leave, by a choice: with 0 all changes are kept, with 1 none is
/// kept since the last sync, with 2 all but the last call are kept and that one is torn, and with any
/// other number each change since the last sync leaves stale bytes.
pub fn leave_all(base: &FileTable, calls: &[Logged], choice: u64) -> Result<FileTable, AllocError>
    ensures { IfOk result (λ files. IsLeftAfter choice base.now calls.now files) }
{
    let settled = settled_in(calls);
    let mut held = replay(base, &calls[..settled])?;
    let mut files = copy(&held)?;
    for at in settled..calls.len() {
        leave_in(&mut files, &held, &calls[at], fate(choice, calls.len(), at))?;
        redo(&mut held, &calls[at])?;
    }
    Ok(files)
}
