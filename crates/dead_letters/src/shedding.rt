// What a queue gives up where it has no room for all.
ghost use Rattle.std.specs.Prelude.{◌≡◌, ◌≤◌, ◌<◌, ◌^◌, ◌+◌, nat_le, length, IfOk};
ghost use Rattle.std.specs.List.{sum};
ghost use Rattle.dead_letters.specs.Shedding.{fewest, not_kept, older, shed};

use event_tree::Items;
use settings_lines::Policy;
use std::alloc::{AllocError, Global};

/// What an append gives up.
#[derive(Drop)]
pub struct Shedding {
    /// How many of the oldest segments leave the queue.
    pub older: u64,
    /// The places of the new letters that don't enter it, in order; the first letter has the place 0.
    pub newer: Items<usize>,
}

/// What a queue sheds by its policy, so that it stays within its limit: of segments of these bytes, the
/// oldest first, and of new records of these bytes, in order.
///
/// Nothing, where all of it is within the limit. Otherwise, under `DropOlder`, the fewest of the oldest
/// segments leave with which it is, and one stays in any case; and of the records each is kept for which
/// there is room behind those that are kept before it. It goes over each list once.
pub fn shed(
    alloc: Global,
    policy: Policy,
    limit: u64,
    segments: &[u64],
    records: &[u64],
) -> Result<Shedding, AllocError>
    ensures { IfOk result (λ s. s ≡ shed policy limit segments.now records.now) }
{
    let added = total(records);
    if fits_all(limit, segments, added) {
        return Ok(Shedding {
            older: 0,
            newer: Items::new(alloc),
        });
    }
    let older = older_of(policy, limit, added, segments);
    let used = total(&segments[older..]);
    let newer = not_kept(alloc, limit, used, records)?;
    Ok(Shedding {
        older: older as u64,
        newer,
    })
}

pub(crate) fn total(sizes: &[u64]) -> u128
    ensures sum { result ≡ sum sizes.now }
    ensures low { result < 2 ^ 127 }
{
    let mut total = 0;
    for size in sizes {
        total += u128::from(*size);
    }
    total
}

fn fits_all(limit: u64, segments: &[u64], added: u128) -> bool
    requires { added < 2 ^ 127 }
    ensures { result ≡ nat_le (sum segments.now + added) limit }
{
    total(segments) + added <= u128::from(limit)
}

// How many of the oldest segments leave, where not all is within the limit.
fn older_of(policy: Policy, limit: u64, added: u128, segments: &[u64]) -> usize
    requires { added < 2 ^ 127 }
    ensures older { result ≡ older policy limit added segments.now }
    ensures within { result ≤ length segments.now }
{
    match policy {
        Policy::DropOlder => fewest(limit, added, segments),
        Policy::DropNewer => 0,
        Policy::Hold => 0,
    }
}

fn fewest(limit: u64, added: u128, segments: &[u64]) -> usize
    requires { added < 2 ^ 127 }
    ensures fewest { result ≡ fewest limit added segments.now }
    ensures within { result ≤ length segments.now }
{
    let mut left = total(segments) + added;
    let mut older = 0;
    for size in segments {
        if older + 1 == segments.len() {
            return older;
        }
        if left <= u128::from(limit) {
            return older;
        }
        left -= u128::from(*size);
        older += 1;
    }
    older
}

// The places of the records for which there is no room.
fn not_kept(
    alloc: Global,
    limit: u64,
    used: u128,
    records: &[u64],
) -> Result<Items<usize>, AllocError>
    ensures { IfOk result (λ places. places ≡ not_kept limit used 0 records.now) }
{
    let mut taken = used;
    let mut places = Items::new(alloc);
    for (place, size) in records.iter().enumerate() {
        let next = taken.saturating_add(u128::from(*size));
        if next <= u128::from(limit) {
            taken = next;
        } else {
            places.push(place)?;
        }
    }
    Ok(places)
}
