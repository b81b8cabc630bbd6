// The fates of a batch's events, settled reply by reply.
ghost use Rattle.std.specs.Prelude.{◌≡◌, ◌↔◌, ◌++◌, drop, map, IfOk, IsTrue, OnOk};
ghost use Rattle.foreign_parts.specs.Delivering.{taken};
ghost use Rattle.out_bulk.specs.Fates as spec;

use bulk_replies::ItemResult;
use event_tree::{Event, Events};
use foreign_parts::{Fate, Fates};
use plain_data::Items;
use std::alloc::{AllocError, Global};

/// The fates of a batch: one for each event, where it is settled; none at all where no event of it is.
pub(crate) type Settled = Items<Option<Fate>>;

/// Whether the fate of the event at a place is settled.
pub(crate) fn is_settled(settled: &[Option<Fate>], place: usize) -> bool
    ensures { result ≡ spec.first_settled (drop place settled.now) }
{
    match settled.get(place) {
        Some(Some(_)) => true,
        Some(None) | None => false,
    }
}

/// The fates once it was said what became of the events that weren't settled.
#[tactic(auto, using(crate::proofs::FateRuns::filling))]
pub(crate) fn fill(
    alloc: Global,
    settled: &[Option<Fate>],
    said: &[ItemResult],
) -> Result<Settled, AllocError>
    ensures { IfOk result (λ all. all ≡ spec.filled settled.now (map spec.settled_by said.now)) }
{
    let mut all = Items::with_capacity(alloc, settled.len().max(said.len()))?;
    let mut left = said;
    for fate in settled {
        all.push(next_of(fate, left)?)?;
        left = left_of(fate, left);
    }
    add_all(&mut all, left)?;
    Ok(all)
}

#[tactic(auto, using(crate::proofs::FateRuns::filling))]
fn add_all(to: &mut Settled, said: &[ItemResult]) -> Result<(), AllocError>
    ensures { OnOk result (to.new ≡ to.old ++ map spec.settled_by said.now) }
{
    for one in said {
        to.push(settled_by(one)?)?;
    }
    Ok(())
}

// What stands at a place where this stood.
fn next_of(fate: &Option<Fate>, said: &[ItemResult]) -> Result<Option<Fate>, AllocError>
    ensures { IfOk result (λ next. next ≡ spec.next_of fate.now (map spec.settled_by said.now)) }
{
    match fate {
        Some(fate) => Ok(Some(copy(fate)?)),
        None => match said.first() {
            Some(said) => settled_by(said),
            None => Ok(None),
        },
    }
}

// What is then left to be filled in.
fn left_of<'a>(fate: &Option<Fate>, said: &'a [ItemResult]) -> &'a [ItemResult]
    ensures { map spec.settled_by result.now ≡ spec.left_of fate.now (map spec.settled_by said.now) }
{
    match fate {
        Some(_) => said,
        None => behind(said),
    }
}

// All but the first.
fn behind(said: &[ItemResult]) -> &[ItemResult]
    ensures { result.now ≡ drop 1 said.now }
{
    match said.split_first() {
        Some((_, behind)) => behind,
        None => said,
    }
}

fn settled_by(said: &ItemResult) -> Result<Option<Fate>, AllocError>
    ensures { IfOk result (λ fate. fate ≡ spec.settled_by said.now) }
{
    match said {
        ItemResult::Took => Ok(Some(Fate::Took)),
        ItemResult::Rejected(status, reason) => Ok(Some(Fate::Rejected(*status, reason.copy()?))),
        ItemResult::Retry => Ok(None),
    }
}

fn copy(fate: &Fate) -> Result<Fate, AllocError>
    ensures { IfOk result (λ copy. copy ≡ fate.now) }
{
    match fate {
        Fate::Took => Ok(Fate::Took),
        Fate::Rejected(status, reason) => Ok(Fate::Rejected(*status, reason.copy()?)),
    }
}

/// The fates, where each is settled.
pub(crate) fn all_settled(
    alloc: Global,
    settled: &[Option<Fate>],
) -> Result<Option<Fates>, AllocError>
    ensures { IfOk result (λ fates. fates ≡ spec.all_settled settled.now) }
{
    let mut fates = Fates::with_capacity(alloc, settled.len())?;
    for fate in settled {
        match fate {
            Some(fate) => fates.push(copy(fate)?)?,
            None => return Ok(None),
        }
    }
    Ok(Some(fates))
}

/// Whether these are the same events.
pub(crate) fn are_same(left: &[Event], right: &[Event]) -> bool
    ensures { IsTrue result ↔ (left.now ≡ right.now) }
{
    if left.len() != right.len() {
        return false;
    }
    for i in 0..left.len() {
        if !left[i].same(&right[i]) {
            return false;
        }
    }
    true
}

/// The same events again.
pub(crate) fn copies(alloc: Global, events: &[Event]) -> Result<Events, AllocError>
    ensures { IfOk result (λ copies. copies ≡ events.now) }
{
    let mut copies = Events::with_capacity(alloc, events.len())?;
    for event in events {
        copies.push(event.copy()?)?;
    }
    Ok(copies)
}

/// The events that were taken, by their fates.
#[tactic(auto, using(crate::proofs::FateRuns::holding))]
pub(crate) fn taken(alloc: Global, events: &[Event], fates: &[Fate]) -> Result<Events, AllocError>
    ensures { IfOk result (λ held. held ≡ taken fates.now events.now) }
{
    let mut held = Events::new(alloc);
    let count = events.len().min(fates.len());
    for i in 0..count {
        add_taken(&mut held, &events[i], &fates[i])?;
    }
    Ok(held)
}

// Adds an event where it was taken.
fn add_taken(to: &mut Events, event: &Event, fate: &Fate) -> Result<(), AllocError>
    ensures { OnOk result (to.new ≡ to.old ++ spec.held_of fate.now event.now) }
{
    match fate {
        Fate::Took => to.push(event.copy()?),
        Fate::Rejected(_, _) => Ok(()),
    }
}
