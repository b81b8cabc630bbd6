// Paths into an event, read from a text.
ghost use Rattle.std.specs.Prelude.{◌≡◌, ◌≢◌, ◌<◌, ◌≤◌, ◌-◌, [], ◌∷◌, false, true, take, drop, length, slice_index, IfOk, IfErr, IsTrue, ◌↔◌};
ghost use Rattle.event_tree.specs.Characters.{opening_bracket};
ghost use Rattle.event_tree.specs.Events.{Way};
ghost use Rattle.event_tree.specs.PathTexts.{is_bracket, NoBracket, IsPartAt, IsFaultAt, PartsRead, PathReads, way_of};

use crate::fault::PathFault;
use plain_data::{Items, Text};
use std::alloc::{AllocError, Global};
use std::marker::Model;

/// A path into an event: the parts that lead to a value in its `fields`, or in its `meta` where the
/// first part of the text was `@metadata`.
#[derive(Drop)]
pub struct Path {
    meta: bool,
    parts: Items<Text>,
}

impl Model for Path {
    ghost use Rattle.std.specs.Prelude.{◌≡◌, ◌<◌, length, false};
    ghost use Rattle.event_tree.specs.Characters.{opening_bracket};
    ghost use Rattle.event_tree.specs.Events.{Way};

    ghost Value = { Way };

    ghost view = { λ path. record { meta = path.meta; parts = path.parts } };

    ghost invariant = { λ path. path.meta ≡ false → 0 < length path.parts };
}

impl Path {
    /// Reads a path, which is a bare name or one part or more in brackets, as `[event][sequence]`.
    /// A name is one byte or more and no brackets. The fault is the first from the left.
    pub fn read(alloc: Global, text: &str) -> Result<Path, PathFault>
        ensures { PathReads result text.now }
    {
        let bytes = text.as_bytes();
        if bytes.is_empty() {
            return Err(PathFault::Empty);
        }
        let parts = if bytes[0] == b'[' {
            read_bracketed(alloc, text)?
        } else {
            read_bare(alloc, text)?
        };
        Ok(Path::of_parts(parts))
    }

    /// The path of these parts, of which there is at least one: into `meta` where the first is
    /// `@metadata`, whatever the bytes of the others. It takes no memory.
    pub fn of_parts(parts: Items<Text>) -> Path
        requires { 0 < length parts }
        ensures { result ≡ way_of parts }
    {
        let mut parts = parts;
        let meta = match parts.get(0) {
            Some(first) => first.as_str() == "@metadata",
            None => false,
        };
        if meta {
            let _ = parts.remove(0);
        }
        Path { meta, parts }
    }

    /// Whether the path leads into `meta`.
    pub fn is_meta(&self) -> bool
        ensures { result ≡ self.now.meta }
    {
        self.meta
    }

    /// The parts, without `@metadata` in front: at least one where the path leads into `fields`.
    pub fn parts(&self) -> &[Text]
        ensures given { result.now ≡ self.now.parts }
        ensures some { self.now.meta ≡ false → 0 < length result.now }
    {
        self.parts.as_slice()
    }

    /// The same path again, in memory of the same allocator.
    pub fn copy(&self) -> Result<Path, AllocError>
        ensures { IfOk result (λ copy. copy ≡ self.now) }
    {
        Ok(Path {
            meta: self.meta,
            parts: self.parts.clone()?,
        })
    }

    /// Whether two paths have the same parts and lead into the same of `fields` and `meta`.
    #[tactic(auto, using(plain_data::proofs::ImplLemmas::exact))]
    pub fn same(&self, other: &Path) -> bool
        ensures { IsTrue result ↔ (self.now ≡ other.now) }
    {
        self.meta == other.meta && self.parts == other.parts
    }
}

// The place of the first bracket from `from` on, or the end.
fn name_end(bytes: &[u8], from: usize) -> usize
    requires { from ≤ length bytes.now }
    ensures after { from ≤ result }
    ensures within { result ≤ length bytes.now }
    ensures name { NoBracket (take (result - from) (drop from bytes.now)) }
    ensures end { result < length bytes.now → is_bracket (slice_index bytes.now result) ≡ true }
{
    for at in from..bytes.len() {
        if bytes[at] == b'[' || bytes[at] == b']' {
            return at;
        }
    }
    bytes.len()
}

fn read_bare(alloc: Global, text: &str) -> Result<Items<Text>, PathFault>
    requires some { 0 < length text.now }
    requires bare { slice_index text.now 0 ≢ opening_bracket }
    ensures reads { PartsRead result text.now }
    ensures some { IfOk result (λ ps. 0 < length ps) }
{
    let end = name_end(text.as_bytes(), 0);
    if end < text.len() {
        return Err(PathFault::Stray(end));
    }
    let mut parts = Items::new(alloc);
    parts.push(Text::of(alloc, text)?)?;
    Ok(parts)
}

// The place of the bracket that closes the part behind the one at this place.
fn part_end(bytes: &[u8], at: usize) -> Result<usize, PathFault>
    requires within { at < length bytes.now }
    requires open { slice_index bytes.now at ≡ opening_bracket }
    ensures part { IfOk result (IsPartAt bytes.now at) }
    ensures fault { IfErr result (IsFaultAt bytes.now at) }
{
    let end = name_end(bytes, at + 1);
    if end == bytes.len() || bytes[end] == b'[' {
        return Err(PathFault::Unclosed(at));
    }
    if end == at + 1 {
        return Err(PathFault::Empty);
    }
    Ok(end)
}

fn read_bracketed(alloc: Global, text: &str) -> Result<Items<Text>, PathFault>
    requires { slice_index text.now 0 ≡ opening_bracket }
    ensures reads { PartsRead result text.now }
    ensures some { IfOk result (λ ps. 0 < length ps) }
{
    let bytes = text.as_bytes();
    let mut parts = Items::new(alloc);
    let mut at = 0;
    while at < bytes.len() {
        if bytes[at] != b'[' {
            return Err(PathFault::Stray(at));
        }
        let end = part_end(bytes, at)?;
        parts.push(Text::of(alloc, &text[at + 1..end])?)?;
        at = end + 1;
    }
    Ok(parts)
}
