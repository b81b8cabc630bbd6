// Which files an input watches.
ghost use Rattle.std.specs.Prelude.{◌≡◌, ◌≢◌, ◌≤◌, ◌<◌, ◌-◌, ◌++◌, ◌==◌, [], ◌∷◌, true, false, Err, IsTrue, IfOk, OnOk, length, take, drop, slice_index};
ghost use Rattle.std.specs.List.{list_any};
ghost use Rattle.std.specs.Str.{bytes_eq};
ghost use Rattle.io_traits.specs.Counts.{HasCause};
ghost use Rattle.io_traits.specs.Folders.{IsOneCall, Lists};
ghost use Rattle.io_traits.specs.declared.faults.ListFault.TheVariants as l;
ghost use Rattle.in_file.specs.Watching as spec;

use crate::is_match;
use io_traits::{Files, ListFault};
use plain_data::{Names, Text};
use slot_files::{PositionOf, position_name};
use std::alloc::{AllocError, Global};

/// How many bytes the name of a position file has at most.
const NAME_LIMIT: usize = 250;

/// The files that an input of this path watches. In its last part `*` stands for any bytes; then they are those whose names are in
/// the folder, in byte order. A path without `*` is one file, whether it is there or not.
///
/// One is left out that is among the earlier ones, or whose position file would have a name of more than 250 bytes.
/// `Failed` comes only where the files' count of faults rose.
pub fn watched_paths<F: Files>(
    alloc: Global,
    files: &mut F,
    path: &str,
    earlier: &[Text],
) -> Result<Names, ListFault>
    ensures watched { IfOk result
        (spec.AreWatched F.Files path.now earlier.now files.old files.new) }
    ensures cause { HasCause (F.faults files.old) (F.faults files.new) (result ≡ Err l.Failed) }
{
    let start = last_start(path.as_bytes());
    let folder = folder_of(path, start);
    let last = last_of(path, start);
    if !has_star(last.as_bytes()) {
        return watched_one(alloc, folder, last, earlier);
    }
    let names = files.list(alloc, folder)?;
    watched_names(alloc, folder, last, names.as_slice(), earlier)
}

// Where the last part of a path begins.
fn last_start(path: &[u8]) -> usize
    ensures within { result ≤ length path.now }
    ensures plain { list_any (λ b. b == 47) (drop result path.now) ≡ false }
    ensures slash { 0 < result → slice_index path.now (result - 1) ≡ 47 }
{
    for behind in 0..path.len() {
        let start = path.len() - behind;
        if path[start - 1] == b'/' {
            return start;
        }
    }
    0
}

// The path up to its last part.
fn folder_of(path: &str, start: usize) -> &str
    requires within { start ≤ length path.now }
    requires slash { 0 < start → slice_index path.now (start - 1) ≡ 47 }
    ensures { result.now ≡ take start path.now }
{
    &path[..start]
}

// Its last part.
fn last_of(path: &str, start: usize) -> &str
    requires within { start ≤ length path.now }
    requires slash { 0 < start → slice_index path.now (start - 1) ≡ 47 }
    ensures { result.now ≡ drop start path.now }
{
    &path[start..]
}

fn has_star(part: &[u8]) -> bool
    ensures { result ≡ spec.has_star part.now }
{
    part.iter().any(|byte| *byte == b'*')
}

fn watched_one(
    alloc: Global,
    folder: &str,
    last: &str,
    earlier: &[Text],
) -> Result<Names, ListFault>
    requires { spec.has_star last.now ≡ false }
    ensures one { IfOk result
        (λ paths. paths ≡ spec.watched_of earlier.now folder.now last.now []) }
    ensures memory { result ≢ Err l.Failed }
{
    let mut paths = Names::new(alloc);
    match add_free(alloc, &mut paths, folder, last, earlier) {
        Ok(()) => Ok(paths),
        Err(_) => Err(ListFault::Memory),
    }
}

// Of these names those for which a pattern stands.
fn watched_names(
    alloc: Global,
    folder: &str,
    last: &str,
    names: &[Text],
    earlier: &[Text],
) -> Result<Names, ListFault>
    requires { spec.has_star last.now ≡ true }
    ensures named { IfOk result
        (λ paths. paths ≡ spec.watched_of earlier.now folder.now last.now names.now) }
    ensures memory { result ≢ Err l.Failed }
{
    let mut paths = Names::new(alloc);
    for name in names {
        match add_named(alloc, &mut paths, folder, last, name.as_str(), earlier) {
            Ok(()) => {}
            Err(_) => return Err(ListFault::Memory),
        }
    }
    Ok(paths)
}

fn add_named(
    alloc: Global,
    paths: &mut Names,
    folder: &str,
    last: &str,
    name: &str,
    earlier: &[Text],
) -> Result<(), AllocError>
    ensures { OnOk result (paths.new ≡ paths.old
        ++ spec.free_of earlier.now (spec.paths_of folder.now last.now (name.now ∷ []))) }
{
    if !is_match(alloc, last, name)? {
        return Ok(());
    }
    add_free(alloc, paths, folder, name, earlier)
}

// Adds the path of a name, unless an earlier input watches it, or the name of its position file is too long.
fn add_free(
    alloc: Global,
    paths: &mut Names,
    folder: &str,
    name: &str,
    earlier: &[Text],
) -> Result<(), AllocError>
    ensures { OnOk result (paths.new ≡ paths.old
        ++ spec.free_of earlier.now ((folder.now ++ name.now) ∷ [])) }
{
    let path = joined(alloc, folder, name)?;
    if is_free(alloc, path.as_str(), earlier)? {
        paths.push(path)?;
    }
    Ok(())
}

fn joined(alloc: Global, folder: &str, name: &str) -> Result<Text, AllocError>
    ensures { IfOk result (λ path. path ≡ folder.now ++ name.now) }
{
    let mut path = String::from_str(alloc, folder)?;
    path.push_str(name)?;
    Ok(Text::from_string(path))
}

fn is_free(alloc: Global, path: &str, earlier: &[Text]) -> Result<bool, AllocError>
    ensures { IfOk result (λ free. free ≡ spec.is_free earlier.now path.now) }
{
    if is_among(path, earlier) {
        return Ok(false);
    }
    let name = position_name(alloc, PositionOf::Input, path)?;
    Ok(name.len() <= NAME_LIMIT)
}

fn is_among(path: &str, paths: &[Text]) -> bool
    ensures { result ≡ list_any (bytes_eq path.now) paths.now }
{
    for at in 0..paths.len() {
        if path == paths[at].as_str() {
            return true;
        }
    }
    false
}
