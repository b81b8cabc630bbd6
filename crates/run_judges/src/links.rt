// Whether what went through a link agrees with what the pipelines at its two ends did.

use crate::run::{Line, Run};
use event_tree::{Event, Text};
use history_judges::{Judged, Meaning, Written};
use pipeline_bus::{Answer, Heard, Parcel};

/// A link by which a pipeline, or something outside of all of them, sends to an address where another pipeline, or the
/// same, listens. The lists are those that the two ends tell.
#[derive(Drop)]
pub struct LinkTraffic {
    /// None, where what sends is outside.
    pub from: Option<u32>,
    pub to: u32,
    pub address: Text,
    /// The place of its end among those that the listener got since it was last opened.
    pub place: usize,
    /// The parcels and answers that were taken and given there by earlier listeners, and then by this one.
    pub taken_before: usize,
    pub taken: Vec<Parcel>,
    pub given_before: usize,
    pub given: Vec<Answer>,
    /// The numbers of the parcels that lay in the ring, not taken, when an adoption closed the input that listened there.
    pub lost: Vec<u64>,
}

impl<'a> Run<'a> {
    /// Whether a link agrees with what was done.
    pub fn link_is_sound<M: Meaning>(&self, meaning: &M, link: &LinkTraffic) -> Judged<bool> {
        let Some(taker) = self.line(link.to) else {
            return Ok(false);
        };
        let sender = match link.from {
            Some(number) => self.line(number),
            None => None,
        };
        if let Some(sender) = sender {
            if !is_in_order(sender, link) {
                return Ok(false);
            }
        }
        for answer in link.given.iter() {
            let is_true = match answer.answer {
                Heard::Assured => is_assured(taker, link, answer.number),
                Heard::NotListening => {
                    is_refused(taker, link, answer.number)
                        && was_lost(sender, taker, link, answer.number)
                }
            };
            if !is_true {
                return Ok(false);
            }
        }
        are_made(meaning, taker, link)
    }
}

// Nothing is lost, repeated or made up on the way: the parcels that were taken are among those that were sent, and the
// answers that were heard among those that were given, in their order.
fn is_in_order(sender: &Line, link: &LinkTraffic) -> bool {
    let sent = sender
        .sent
        .iter()
        .filter(|s| s.parcel.address == link.address);
    let mut left = sent.skip(link.taken_before);
    for taken in link.taken.iter() {
        match left.next() {
            Some(sent) if is_same(sent.parcel, taken) => {}
            _ => return false,
        }
    }
    let heard = sender.heard.iter().filter(|heard| *heard.0 == link.address);
    let mut given = link.given.iter();
    for (_, answer) in heard.skip(link.given_before) {
        if given.next() != Some(answer) {
            return false;
        }
    }
    true
}

fn is_same(left: &Parcel, right: &Parcel) -> bool {
    left.number == right.number
        && left.address == right.address
        && left.events.len() == right.events.len()
        && left
            .events
            .as_slice()
            .iter()
            .zip(right.events.as_slice())
            .all(|(a, b)| a.same(b))
}

// Whether a row was made of the parcel of this number, since the listener was last opened.
fn is_from(row: &Written, link: &LinkTraffic, number: u64) -> bool {
    match row.parcel {
        Some(at) => row.is_new && at.place == link.place && at.number == number,
        None => false,
    }
}

fn rows_from(taker: &Line, link: &LinkTraffic, number: u64) -> usize {
    let rows = taker.state.rows.iter();
    rows.filter(|row| is_from(row, link, number)).count()
}

// The parcel with events that has this number, of those that were taken.
fn taken_at(link: &LinkTraffic, number: u64) -> Option<&Parcel> {
    let mut taken = link.taken.iter();
    taken.find(|parcel| parcel.number == number && !parcel.is_last())
}

// All events of this parcel stand in rows that are settled.
fn is_assured(taker: &Line, link: &LinkTraffic, number: u64) -> bool {
    let front = taker.state.front;
    let mut rows = taker.state.rows.iter();
    let settled = rows.all(|row| row.number <= front || !is_from(row, link, number));
    match taken_at(link, number) {
        Some(parcel) => settled && rows_from(taker, link, number) == parcel.events.len(),
        None => false,
    }
}

// No parcel of this number was taken, and no event of it was accepted.
fn is_refused(taker: &Line, link: &LinkTraffic, number: u64) -> bool {
    taken_at(link, number).is_none() && rows_from(taker, link, number) == 0
}

// Behind the sending of this parcel a configuration was adopted that closed the listener of its address; of one that came
// from outside, while it lay in the ring.
fn was_lost(sender: Option<&Line>, taker: &Line, link: &LinkTraffic, number: u64) -> bool {
    let sent_at = match sender {
        None if link.lost.contains(&number) => Some(0),
        None => None,
        Some(line) => {
            let mut sent = line.sent.iter();
            sent.find(|s| s.parcel.number == number && s.parcel.address == link.address)
                .map(|sent| sent.at)
        }
    };
    let mut closings = taker.closings.iter();
    match sent_at {
        Some(at) => closings.any(|closing| closing.address == link.address && closing.at >= at),
        None => false,
    }
}

// Whether each row that names a parcel of the link is made of one that was taken, and the rows of each parcel are what
// the settings of inputs that listen on the address make of its first events, in order.
fn are_made<M: Meaning>(meaning: &M, taker: &Line, link: &LinkTraffic) -> Judged<bool> {
    for row in taker.state.rows.iter() {
        if let Some(at) = row.parcel {
            let here = row.is_new && at.place == link.place;
            if here && taken_at(link, at.number).is_none() {
                return Ok(false);
            }
        }
    }
    for parcel in link.taken.iter() {
        let mut left = parcel.events.as_slice();
        for row in taker.state.rows.iter() {
            if !parcel.is_last() && is_from(row, link, parcel.number) {
                match left {
                    [event, later @ ..] if is_made(meaning, row, link, event)? => left = later,
                    _ => return Ok(false),
                }
            }
        }
    }
    Ok(true)
}

fn is_made<M: Meaning>(
    meaning: &M,
    row: &Written,
    link: &LinkTraffic,
    event: &Event,
) -> Judged<bool> {
    let listens = match meaning.address(row.statement)? {
        Some(address) => address == link.address,
        None => false,
    };
    Ok(listens && meaning.applied(row.statement, event)?.same(row.event))
}
