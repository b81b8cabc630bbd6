//! The files that the path of a configuration names.

ghost use Rattle.std.specs.Prelude.{◌≡◌, ◌≢◌, ◌≤◌, ◌<◌, ◌-◌, ◌++◌, ◌==◌, ◌∷◌, [], true, false, Ok, Err, IsTrue, IfOk, OnOk, length, take, drop, slice_index};
ghost use Rattle.std.specs.List.{list_any};
ghost use Rattle.io_traits.specs.Counts.{HasCause};
ghost use Rattle.in_file.specs.Watching.{has_star as spec_has_star, paths_of};
ghost use Rattle.logstash_top.specs.Texts.{IsNamed};

use in_file::is_match;
use io_traits::{Files, ListFault};
use plain_data::{Names, Text};
use std::alloc::{AllocError, Global};

/// The files that a path names. In its last part `*` stands for any bytes; then they are those whose names are in the folder,
/// in byte order. A path without `*` names one file, whether it is there or not.
pub(crate) fn named_paths<P: Files>(
    alloc: Global,
    files: &mut P,
    path: &str,
) -> Result<Names, ListFault>
    ensures named { IfOk result
        (IsNamed P.Files path.now files.old (P.calls files.new)) }
    ensures same { IsTrue P.tells → P.shows files.new ≡ P.shows files.old }
    ensures cause { HasCause (P.faults files.old) (P.faults files.new)
        (result ≡ Err ListFault.Failed) }
{
    let start = last_start(path.as_bytes());
    let folder = folder_of(path, start);
    let last = last_of(path, start);
    if !has_star(last.as_bytes()) {
        return or_memory(only(alloc, folder, last));
    }
    let names = files.list(alloc, folder)?;
    or_memory(matching(alloc, folder, last, names.as_slice()))
}

fn or_memory(paths: Result<Names, AllocError>) -> Result<Names, ListFault>
    ensures paths { IfOk result (λ found. paths ≡ Ok found) }
    ensures memory { result ≢ Err ListFault.Failed }
{
    match paths {
        Ok(paths) => Ok(paths),
        Err(_) => Err(ListFault::Memory),
    }
}

// Where the last part of a path begins.
fn last_start(path: &[u8]) -> usize
    ensures within { result ≤ length path.now }
    ensures plain { list_any (λ b. b == 47) (drop result path.now) ≡ false }
    ensures slash { 0 < result → slice_index path.now (result - 1) ≡ 47 }
{
    for behind in 0..path.len() {
        let start = path.len() - behind;
        if path[start - 1] == b'/' {
            return start;
        }
    }
    0
}

// The path up to its last part.
fn folder_of(path: &str, start: usize) -> &str
    requires within { start ≤ length path.now }
    requires slash { 0 < start → slice_index path.now (start - 1) ≡ 47 }
    ensures { result.now ≡ take start path.now }
{
    &path[..start]
}

// Its last part.
fn last_of(path: &str, start: usize) -> &str
    requires within { start ≤ length path.now }
    requires slash { 0 < start → slice_index path.now (start - 1) ≡ 47 }
    ensures { result.now ≡ drop start path.now }
{
    &path[start..]
}

fn has_star(part: &[u8]) -> bool
    ensures { result ≡ spec_has_star part.now }
{
    part.iter().any(|byte| *byte == b'*')
}

fn only(alloc: Global, folder: &str, last: &str) -> Result<Names, AllocError>
    ensures { IfOk result (λ paths. paths ≡ (folder.now ++ last.now) ∷ []) }
{
    let mut paths = Names::new(alloc);
    paths.push(joined(alloc, folder, last)?)?;
    Ok(paths)
}

// Of the names in a folder those for which a pattern stands, as paths.
#[tactic(auto, using(crate::proofs::TextLemmas::matching_more))]
fn matching(alloc: Global, folder: &str, pattern: &str, names: &[Text]) -> Result<Names, AllocError>
    ensures { IfOk result (λ paths. paths ≡ paths_of folder.now pattern.now names.now) }
{
    let mut paths = Names::new(alloc);
    for name in names {
        match add_matching(alloc, &mut paths, folder, pattern, name.as_str()) {
            Ok(()) => {}
            Err(error) => return Err(error),
        }
    }
    Ok(paths)
}

fn add_matching(
    alloc: Global,
    paths: &mut Names,
    folder: &str,
    pattern: &str,
    name: &str,
) -> Result<(), AllocError>
    ensures { OnOk result (paths.new ≡ paths.old
        ++ paths_of folder.now pattern.now (name.now ∷ [])) }
{
    if is_match(alloc, pattern, name)? {
        paths.push(joined(alloc, folder, name)?)?;
    }
    Ok(())
}

fn joined(alloc: Global, folder: &str, name: &str) -> Result<Text, AllocError>
    ensures { IfOk result (λ path. path ≡ folder.now ++ name.now) }
{
    let mut path = String::from_str(alloc, folder)?;
    path.push_str(name)?;
    Ok(Text::from_string(path))
}
