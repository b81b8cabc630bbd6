// What dead letters hold after what a pipeline told.

use crate::judge::Judge;
use dead_letters::{DeadLetter, Letters, Shedding, shed, write_record};
use event_tree::{DeadList, DeadPart};
use history_book::KeptEntry;
use history_judges::rejections::{are_kept, are_some_rejected, is_box, rejections};
use history_judges::{Between, Due, Fault, Judged, Meaning, Out, Shed, State};
use settings_lines::Policy;
use std::alloc::Global;

/// The dead letters that a pipeline keeps: the number of the oldest segment, and the bytes of each one.
#[derive(Clone, PartialEq, Drop)]
pub struct HeldLetters {
    pub first: u64,
    pub segments: Vec<Vec<u8>>,
}

/// The letters that were appended to the dead letters, which no history tells with their moments: by each entry, if any,
/// and by one delivery more that a stop left.
#[derive(Drop)]
pub struct AppendedLetters {
    /// One for each entry.
    pub by_entries: Vec<Option<Letters>>,
    pub last: Option<Letters>,
}

impl<M: Meaning> Judge<'_, M> {
    /// Whether a dead letter queue may hold these segments after the history, where each entry appended the letters
    /// beside it, if any, and then perhaps one delivery more that was next.
    pub fn holds_letters(
        &self,
        base: &HeldLetters,
        appended: &AppendedLetters,
        content: &HeldLetters,
    ) -> Judged<bool> {
        if self.history.len() != appended.by_entries.len() {
            return Ok(false);
        }
        let mut state = State::start(self.alloc());
        let mut held = base.clone()?;
        for (place, by) in appended.by_entries.iter().enumerate() {
            let Some((entry, rest)) = self.history[place..].split_first() else {
                return Ok(false);
            };
            let next = rest.first().copied();
            if !held.follows(&state, entry, next, by)? {
                return Ok(false);
            }
            state.step(self.meaning, entry)?;
        }
        Ok(held.is_left(&state, &appended.last)? && held == *content)
    }
}

impl HeldLetters {
    // Whether an entry, behind which this one is told, may append these letters, if any; they are appended.
    fn follows(
        &mut self,
        state: &State,
        entry: &KeptEntry,
        next: Option<&KeptEntry>,
        by: &Option<Letters>,
    ) -> Judged<bool> {
        match (entry, by) {
            (KeptEntry::Opened { .. }, _) => self.is_left(state, by),
            (KeptEntry::Letters { batch, letters }, Some(added)) => {
                let added = added.as_slice();
                let shed = state.shed_now();
                let told = letters.as_slice();
                let are = are_told(state, *batch, told, next, added)?;
                Ok(are && self.append(state, Some(shed), added)?)
            }
            (KeptEntry::Letters { .. }, None) => Ok(false),
            (_, by) => Ok(by.is_none()),
        }
    }

    // Whether one delivery that was not told may have left these letters, if any; they are appended. What is shed with
    // them was told just before, or nothing was told of it.
    fn is_left(&mut self, state: &State, by: &Option<Letters>) -> Judged<bool> {
        let Some(added) = by else {
            return Ok(true);
        };
        let letters = parts_of(state.alloc(), added.as_slice())?;
        for out in state.out.iter() {
            let (fits, shed) = match state.between {
                Between::Nothing => (true, None),
                Between::Shed(of, shed) => (of == out.batch, Some(shed)),
                Between::Rejecting(_, _, _) => (false, None),
            };
            if fits && would_append(out, letters.as_slice())? {
                return self.append(state, shed, added.as_slice());
            }
        }
        Ok(false)
    }

    // Appends letters, where this is shed, if it is said, just as the limits and the policy want it.
    fn append(
        &mut self,
        state: &State,
        told: Option<Shed>,
        letters: &[DeadLetter],
    ) -> Judged<bool> {
        let Some(limits) = state.limits else {
            return Ok(false);
        };
        let alloc = state.alloc();
        let records = records_of(alloc, letters)?;
        let held = lengths(alloc, self.segments.as_slice())?;
        let added = lengths(alloc, records.as_slice())?;
        let wanted = shed(
            alloc,
            limits.policy,
            limits.limit,
            held.as_slice(),
            added.as_slice(),
        )?;
        if !fits_policy(limits.policy, &wanted) || !told.is_none_or(|told| is_same(told, &wanted)) {
            return Ok(false);
        }
        self.leave(wanted.older);
        for (place, record) in records.iter().enumerate() {
            if !wanted.newer.as_slice().contains(&place) {
                self.add_record(limits.limit, record.as_slice())?;
            }
        }
        Ok(true)
    }

    // So many of the oldest segments leave.
    fn leave(&mut self, older: u64) {
        for _ in 0..older.min(self.segments.len() as u64) {
            if !self.segments.is_empty() {
                self.segments.remove(0);
            }
        }
        self.first = self.first.saturating_add(older);
    }

    // A record joins the last segment. It begins the next one where the last has a record and with this one exceeds an
    // eighth of the limit, and where there is a next number.
    fn add_record(&mut self, limit: u64, record: &[u8]) -> Judged<()> {
        let next = self.first.saturating_add(self.segments.len() as u64);
        match self.segments.last_mut() {
            Some(last) if !begins_next(limit, next, last.len(), record.len()) => {
                last.extend_from_slice(record)?;
            }
            _ => {
                let alloc = *self.segments.allocator();
                self.segments.push(Vec::from_slice(alloc, record)?)?;
            }
        }
        Ok(())
    }
}

fn begins_next(limit: u64, next: u64, held: usize, size: usize) -> bool {
    let grown = held.saturating_add(size) as u64;
    held > 0 && grown > limit / 8 && next <= u64::from(u32::MAX)
}

// Under `hold` nothing is shed.
fn fits_policy(policy: Policy, shed: &Shedding) -> bool {
    match policy {
        Policy::Hold => shed.older == 0 && shed.newer.is_empty(),
        Policy::DropNewer | Policy::DropOlder => true,
    }
}

fn is_same(told: Shed, wanted: &Shedding) -> bool {
    told.older == wanted.older && told.newer == wanted.newer.as_slice()
}

// Whether letters are those that are told of a batch: those that are due, or those of what its next delivery rejects, of
// which these are told that aren't shed. Where that delivery isn't told next, they are of some of its events.
fn are_told(
    state: &State,
    batch: u64,
    told: &[DeadPart],
    next: Option<&KeptEntry>,
    added: &[DeadLetter],
) -> Judged<bool> {
    let letters = parts_of(state.alloc(), added)?;
    match state.batch(batch).and_then(|out| out.next()) {
        None => Ok(false),
        Some(Due::Letters(due)) => Ok(are_kept(letters.as_slice(), &[], due.as_slice())),
        Some(Due::Events(due)) => {
            if !are_kept(told, state.shed_now().newer, letters.as_slice()) {
                return Ok(false);
            }
            match next {
                Some(KeptEntry::Deliver { events, fates, .. }) => {
                    let all = rejections(due, fates.as_slice(), events.as_slice())?;
                    Ok(are_kept(letters.as_slice(), &[], all.as_slice()))
                }
                _ => are_some_rejected(due, &[], letters.as_slice()),
            }
        }
    }
}

// Whether the next delivery of a batch would append these letters.
fn would_append(out: &Out, letters: &[DeadPart]) -> Judged<bool> {
    match out.next() {
        Some(Due::Letters(due)) => Ok(are_kept(letters, &[], due.as_slice())),
        Some(Due::Events(due)) if is_box(&due.place) => { are_some_rejected(due, &[], letters) }
        _ => Ok(false),
    }
}

// What letters say, but for their moments.
fn parts_of(alloc: Global, letters: &[DeadLetter]) -> Judged<DeadList> {
    let mut parts = DeadList::with_capacity(alloc, letters.len())?;
    for letter in letters {
        parts.push(DeadPart {
            kind: letter.kind.copy()?,
            id: letter.id.copy()?,
            reason: letter.reason.copy()?,
            event: letter.event.copy()?,
        })?;
    }
    Ok(parts)
}

// The record of each letter. One that has too many bytes for a record is taken for want of memory.
fn records_of(alloc: Global, letters: &[DeadLetter]) -> Judged<Vec<Vec<u8>>> {
    let mut records = Vec::with_capacity(alloc, letters.len())?;
    for letter in letters {
        if !letter.fits_record() {
            return Err(Fault::Memory);
        }
        let mut record = Vec::new(alloc);
        write_record(letter, &mut record)?;
        records.push(record)?;
    }
    Ok(records)
}

fn lengths(alloc: Global, lists: &[Vec<u8>]) -> Judged<Vec<u64>> {
    Ok(lists.iter().map(|list| list.len() as u64).collect(alloc)?)
}
