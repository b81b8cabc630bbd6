// What an append writes and removes.
ghost use Rattle.std.specs.Prelude.{◌≡◌, ◌≤◌, ◌<◌, ◌+◌, ◌-◌, ◌^◌, IfOk, drop, get_or, length};
ghost use Rattle.dead_letters.specs.Segments.{segments};
ghost use Rattle.dead_letters.specs.Views.{held_last, names_from, sizes_with};

use crate::queue::segment_name;
use crate::segments::Segments;
use crate::shedding::Shedding;
use event_tree::{Items, Text};
use std::alloc::{AllocError, Global};

/// What joins a queue in an append.
#[derive(Drop)]
pub(crate) struct Joining {
    pub(crate) shedding: Shedding,
    /// The records that join, one behind the other.
    pub(crate) bytes: Vec<u8>,
    /// How many of these bytes each segment takes.
    pub(crate) pieces: Items<u64>,
}

/// What an append writes and removes, made before the first call of its store.
#[derive(Drop)]
pub(crate) struct AppendPlan {
    pub(crate) joining: Joining,
    /// The files of the segments that take bytes.
    pub(crate) names: Vec<Text>,
    /// The files of the segments that leave.
    pub(crate) gone: Vec<Text>,
    /// The file that names the segments which count.
    pub(crate) slot: Text,
    /// The turn of the slot that is written there, and what it says.
    pub(crate) turn: u64,
    pub(crate) segments: Segments,
    /// How many bytes each segment has then.
    pub(crate) sizes: Items<u64>,
}

/// The files of so many segments, from a number on.
pub(crate) fn names_from(
    alloc: Global,
    folder: &str,
    first: u32,
    count: u64,
) -> Result<Vec<Text>, AllocError>
    requires { first + count ≤ 2 ^ 32 }
    ensures { IfOk result (λ names. names.items ≡ names_from folder.now first count) }
{
    let mut names = Vec::new(alloc);
    for place in 0..count {
        names.push(segment_name(alloc, folder, first + place as u32)?)?;
    }
    Ok(names)
}

/// The bytes of segments without so many of the oldest, of which the last one takes the first piece, and of
/// those that come behind it.
pub(crate) fn sizes_with(
    alloc: Global,
    sizes: &[u64],
    older: usize,
    pieces: &[u64],
) -> Result<Items<u64>, AllocError>
    requires stays { older < length sizes.now }
    requires piece { 0 < length pieces.now }
    requires room { held_last sizes.now + get_or pieces.now 0 0 < 2 ^ 64 }
    ensures { IfOk result (λ grown. grown ≡ sizes_with (drop older sizes.now) pieces.now) }
{
    let last = sizes.len() - 1;
    let mut grown = Vec::new(alloc);
    grown.extend_from_slice(&sizes[older..last])?;
    grown.push(sizes[last] + pieces[0])?;
    grown.extend_from_slice(&pieces[1..])?;
    Ok(Items::from_vec(grown))
}

/// The segments that begin with this number and have so many bytes each.
pub(crate) fn segments_of(first: u32, sizes: &[u64]) -> Segments
    requires some { 0 < length sizes.now }
    requires numbers { first + length sizes.now ≤ 2 ^ 32 }
    ensures { result ≡ segments first (first + (length sizes.now - 1)) (held_last sizes.now) }
{
    let before = sizes.len() - 1;
    Segments {
        first,
        last: first + before as u32,
        length: sizes[before],
    }
}
