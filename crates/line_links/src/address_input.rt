// An input that listens on an address: its takers, polled in turn.
ghost use Rattle.std.specs.Prelude.{◌≡◌, ◌↔◌, ◌≤◌, ◌<◌, ◌-◌, ◌++◌, ℕ, [], false, length, Ok, Some, IfNone};
ghost use Rattle.std.specs.Option.{option_to_list};
ghost use Rattle.line_links.specs.declared.taker.Polled.TheVariants as polled;
ghost use Rattle.line_links.specs.Listening as spec;
ghost use Rattle.line_links.specs.Listening.{states};
ghost use Rattle.line_links.specs.Answers.{numbers_from};

use crate::taker::{AddressTaker, Polled};
use event_tree::Event;
use pipeline_bus::Answer;
use std::alloc::AllocError;
use std::marker::Model;

/// An input that listens on an address: the takers of its address, one for each pipeline that sends to it, each by its place.
///
/// At most one parcel is held, whose events are given in order; another is taken once each of them stands in a row.
#[derive(Drop)]
pub struct AddressInput {
    takers: Vec<AddressTaker>,
    /// The place of the taker that is polled first: that behind the one whose parcel came last.
    first: usize,
}

impl Model for AddressInput {
    ghost use Rattle.std.specs.Coded.{codes};
    ghost use Rattle.event_tree.specs.contracts.value.Value as tree;
    ghost use Rattle.line_links.specs.Listening.{Listening, states};

    ghost Value = { Listening };

    ghost coded = { Prim.hlevel (codes, tree.the_row.coded) };

    ghost view = { λ a. record { takers = states a.takers.items; first = a.first } };
}

impl AddressInput {
    /// The input of these takers. The first of them is polled first.
    pub fn new(takers: Vec<AddressTaker>) -> AddressInput
        ensures { result ≡ record { takers = states takers.items; first = 0 } }
    {
        AddressInput { takers, first: 0 }
    }

    /// How many takers it has.
    pub fn taker_count(&self) -> usize
        ensures { result ≡ length self.now.takers }
    {
        self.takers.len()
    }

    /// Polls its takers in turn, where none holds a parcel, up to the first that has one with events:
    ///
    /// - `Events`: it has one; its events are held then, to be given by [`AddressInput::next`].
    /// - `Ended`: none has one, and each is at its end: its last parcel came last, and its ring shows none behind it. Without
    ///   takers it is at its end.
    /// - `NotYet`: neither.
    ///
    /// Where a parcel is held nothing is polled: it is `Events` while one of its events wasn't given, and else `NotYet`. The only
    /// error is want of memory; then those that were polled before gave no parcel with events.
    pub fn poll(&mut self) -> Result<Polled, AllocError>
        ensures held { spec.giving_place self.old.takers < length self.old.takers → (self.new ≡ self.old)
            × ((spec.events_left self.old.takers ≡ [] → result ≡ Ok polled.NotYet)
            × ((spec.events_left self.old.takers ≡ [] → ⊥) → result ≡ Ok polled.Events)) }
        ensures polls { length self.old.takers ≤ spec.giving_place self.old.takers
            → spec.PollsAll result self.old self.new }
    {
        if giving_place(self.takers.as_slice()) < self.takers.len() {
            return Ok(self.poll_held());
        }
        if let Some(place) = poll_in_turn(&mut self.takers, self.first)? {
            self.first = place + 1;
            return Ok(Polled::Events);
        }
        if are_at_end(&mut self.takers) {
            Ok(Polled::Ended)
        } else {
            Ok(Polled::NotYet)
        }
    }

    // What a poll comes to where a parcel is held.
    fn poll_held(&self) -> Polled
        ensures none { spec.events_left self.now.takers ≡ [] → result ≡ polled.NotYet }
        ensures some { (spec.events_left self.now.takers ≡ [] → ⊥) → result ≡ polled.Events }
    {
        if self.holds() {
            Polled::Events
        } else {
            Polled::NotYet
        }
    }

    /// Whether an event is held, which [`AddressInput::next`] gives.
    pub fn holds(&self) -> bool
        ensures { (result ≡ false) ↔ (spec.events_left self.now.takers ≡ []) }
    {
        let place = giving_place(self.takers.as_slice());
        place < self.takers.len() && self.takers[place].holds()
    }

    /// The next event of the parcel that is held; none exactly where none is held.
    pub fn next(&mut self) -> Option<Event>
        ensures gives { spec.GivesNext result self.old self.new }
        ensures events { spec.events_left self.old.takers
            ≡ option_to_list result ++ spec.events_left self.new.takers }
        ensures none { IfNone result (spec.events_left self.old.takers ≡ []) }
    {
        let place = giving_place(self.takers.as_slice());
        if place >= self.takers.len() {
            return None;
        }
        self.takers[place].next()
    }

    /// Notes that the oldest event that was given, and isn't in a row, stands in the row of this number, where there is such
    /// an event. It takes no memory. Numbers rise from row to row.
    pub fn note_row(&mut self, number: u64)
        ensures { self.new ≡ spec.with_row number self.old }
    {
        let place = giving_place(self.takers.as_slice());
        if place < self.takers.len() {
            self.takers[place].note_given(number);
        }
    }

    /// Whether each taker is at its end: its last parcel came last, none of its events is to be given, and its ring shows no
    /// parcel with events.
    pub fn is_at_end(&mut self) -> bool
        ensures ends { spec.EndsAll result self.old.takers self.new.takers }
        ensures events { spec.events_left self.new.takers ≡ spec.events_left self.old.takers }
        ensures first { self.new.first ≡ self.old.first }
    {
        are_at_end(&mut self.takers)
    }

    /// Whether the taker at a place has a parcel that waits for an answer, and the oldest of these has each of its events in
    /// a row up to `front`.
    pub fn is_due(&self, at: usize, front: u64) -> bool
        ensures { result ≡ spec.is_due_at front at self.now.takers }
    {
        at < self.takers.len() && self.takers[at].is_due(front)
    }

    /// Answers `Assured` to the oldest parcel that waits of the taker at a place, where each of its events stands in a row up
    /// to `front`, and gives that answer; none where there is no such taker or parcel, or where the ring showed no free slot.
    /// It takes no memory.
    pub fn answer(&mut self, at: usize, front: u64) -> Option<Answer>
        ensures answers { spec.AnswersAt at front result self.old self.new }
        ensures events { spec.events_left self.new.takers ≡ spec.events_left self.old.takers }
        ensures many { length self.new.takers ≡ length self.old.takers }
    {
        if at >= self.takers.len() {
            return None;
        }
        self.takers[at].assure(front)
    }
}

// The place of the first taker of which a parcel is held, or how many there are.
fn giving_place(takers: &[AddressTaker]) -> usize
    ensures { result ≡ spec.giving_place (states takers.now) }
{
    for place in 0..takers.len() {
        if takers[place].is_giving() {
            return place;
        }
    }
    takers.len()
}

// Polls the takers in turn, up to the first that has a parcel with events, and gives its place.
fn poll_in_turn(takers: &mut Vec<AddressTaker>, first: usize) -> Result<Option<usize>, AllocError>
    ensures polls { spec.PollsInTurn (spec.in_turn first (length takers.old.items)) result
        (states takers.old.items) (states takers.new.items) }
    ensures within { (place : ℕ) → result ≡ Ok (Some place) → place < length takers.old.items }
{
    let many = takers.len();
    let begin = first.min(many);
    match poll_from(takers, begin, many)? {
        Some(place) => Ok(Some(place)),
        None => poll_from(takers, 0, begin),
    }
}

// Polls the takers from one place up to another, up to the first that has a parcel with events, and gives its place.
fn poll_from(
    takers: &mut Vec<AddressTaker>,
    from: usize,
    end: usize,
) -> Result<Option<usize>, AllocError>
    requires within { end ≤ length takers.old.items }
    ensures polls { spec.PollsOn result (numbers_from from (end - from))
        (states takers.old.items) (states takers.new.items) }
    ensures many { length takers.new.items ≡ length takers.old.items }
    ensures within { (place : ℕ) → result ≡ Ok (Some place) → place < end }
{
    for place in from..end {
        if takers[place].look()? {
            return Ok(Some(place));
        }
    }
    Ok(None)
}

// Whether each taker is at its end.
fn are_at_end(takers: &mut Vec<AddressTaker>) -> bool
    ensures ends { spec.EndsAll result (states takers.old.items) (states takers.new.items) }
    ensures events { spec.events_left (states takers.new.items)
        ≡ spec.events_left (states takers.old.items) }
{
    for place in 0..takers.len() {
        if !takers[place].is_at_end() {
            return false;
        }
    }
    true
}
