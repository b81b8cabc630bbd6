// The end of a link on which a pipeline sends events to one address.
ghost use Rattle.std.specs.Prelude.{◌≡◌, ◌<◌, ◌≤◌, ◌+◌, ◌-◌, [], true, if◌then◌else◌, length, vec_capacity, IfOk, IfErr, IsSome, None, OnOk, OnErr};
ghost use Rattle.std.specs.Option.{ForSome};
ghost use Rattle.pipeline_bus.specs.Ends.{sending};
ghost use Rattle.pipeline_bus.specs.Parcels.{ends_with_last, with_events};
ghost use Rattle.line_links.specs.Answers.{IsLastParcel, are_in_turn, refused_of};

use event_tree::Event;
use pipeline_bus::{Heard, LinkSender, Parcel};
use plain_data::{Items, Text};
use std::alloc::{AllocError, Global};

/// What a pipeline sends to one address. Parcels that were answered `NotListening` are kept by their numbers, 8 bytes
/// each: there are some at an adoption alone.
#[derive(Drop)]
pub struct AddressSender {
    alloc: Global,
    pub(crate) address: Text,
    pub(crate) end: LinkSender,
    /// How many parcels with events were sent.
    sent: u64,
    /// How many of them were answered.
    heard: u64,
    /// The numbers of those that were answered `NotListening`, with room for one of each that isn't answered.
    refused: Vec<u64>,
    /// Whether a last parcel was sent behind all others.
    ended: bool,
    /// The next last parcel, if it is made.
    last: Option<Parcel>,
    ghost sent_is: { sent ≡ with_events (sending end).sent },
    ghost fewer: { heard ≤ sent },
    ghost heard_is: { heard ≡ length (sending end).heard },
    ghost in_turn: { are_in_turn 0 (sending end).heard ≡ true },
    ghost refused_is: { refused.items ≡ refused_of (sending end).heard },
    ghost room: { length refused.items + (sent - heard) ≤ vec_capacity refused },
    ghost ended_is: { ended ≡ ends_with_last (sending end).sent },
    ghost last_is: { ForSome last (IsLastParcel address) },
    ghost last_made: { last ≡ None → ended ≡ true },
}

impl AddressSender {
    ghost use Rattle.pipeline_bus.specs.Ends.{IsSameSender};
    ghost use Rattle.line_links.specs.Answers.{answer_to};
    ghost use Rattle.line_links.specs.Senders.{send_state, end_of, Hears, HearsOne, SendsLast, SendsNext};

    /// An end of a link on which nothing was sent, as the sender to an address. The only error is want of memory; it
    /// gives the end back.
    #[tactic(auto, unfolding(pipeline_bus::specs::Parcels::with_events, pipeline_bus::specs::Parcels::ends_with_last, crate::specs::Answers::are_in_turn))]
    pub fn new(
        alloc: Global,
        address: Text,
        end: LinkSender,
    ) -> Result<AddressSender, (LinkSender, AllocError)>
        requires sent { (sending end).sent ≡ [] }
        requires heard { (sending end).heard ≡ [] }
        ensures made { IfOk result (λ s. send_state s ≡ record {
          address = address;
          sends = sending end;
        }) }
        ensures back { IfErr result (λ e. e.0 ≡ end) }
    {
        match last_parcel(alloc, &address) {
            Ok(last) => Ok(AddressSender {
                alloc,
                address,
                end,
                sent: 0,
                heard: 0,
                refused: Vec::new(alloc),
                ended: false,
                last: Some(last),
            }),
            Err(error) => Err((end, error)),
        }
    }

    /// The address.
    pub fn address(&self) -> &Text
        ensures { result.now ≡ (send_state self.now).address }
    {
        &self.address
    }

    /// How many parcels with events were sent.
    pub fn sent(&self) -> u64
        ensures { result ≡ with_events (send_state self.now).sends.sent }
    {
        self.sent
    }

    /// Sends copies of events, of which there is one at least, in the next parcel, and gives its number; none where the
    /// ring showed no free slot. The only error is want of memory, or of a number: there are 2^64 - 1 for one link. Then
    /// nothing was sent.
    #[tactic(auto, using(crate::proofs::Sending::filled_more, crate::proofs::Sending::goes_on_more))]
    pub fn send(&mut self, events: &[Event]) -> Result<Option<u64>, AllocError>
        requires { 0 < length events.now }
        ensures sends { IfOk result
            (λ number. SendsNext events.now number (send_state self.old) (send_state self.new)) }
        ensures err { OnErr result (send_state self.new ≡ send_state self.old) }
        ensures same { IsSameSender (end_of self.old) (end_of self.new) }
    {
        let number = self.sent.checked_add(1).ok_or(AllocError)?;
        let parcel = Parcel {
            number,
            address: self.address.copy()?,
            events: copies(self.alloc, events)?,
        };
        self.make_room()?;
        match self.end.push(parcel) {
            Some(_) => Ok(None),
            None => {
                self.sent = number;
                self.ended = false;
                Ok(Some(number))
            }
        }
    }

    // Makes room for the answer to one parcel more, and makes the last parcel that is due behind it.
    fn make_room(&mut self) -> Result<(), AllocError>
        ensures end { self.new.end ≡ self.old.end }
        ensures address { self.new.address ≡ self.old.address }
        ensures sent { self.new.sent ≡ self.old.sent }
        ensures heard { self.new.heard ≡ self.old.heard }
        ensures ended { self.new.ended ≡ self.old.ended }
        ensures room { OnOk result (length self.new.refused.items
            + (self.new.sent - self.new.heard) + 1 ≤ vec_capacity self.new.refused) }
        ensures last { OnOk result (IsSome self.new.last) }
    {
        let open = self.sent - self.heard;
        let more = open.checked_add(1).ok_or(AllocError)? as usize;
        self.refused.reserve(more)?;
        if self.last.is_none() {
            self.last = Some(last_parcel(self.alloc, &self.address)?);
        }
        Ok(())
    }

    /// What was answered to the parcel of a number, which was sent; none where the ring showed no answer up to it. It
    /// hears no answer behind that one, and looks for none where that one was heard before.
    pub fn hear(&mut self, number: u64) -> Option<Heard>
        requires some { 1 ≤ number }
        requires sent { number ≤ with_events (send_state self.old).sends.sent }
        ensures hears { Hears number (send_state self.old) (send_state self.new) result }
        ensures answer { result ≡ answer_to number (send_state self.new).sends.heard }
        ensures same { IsSameSender (end_of self.old) (end_of self.new) }
    {
        while self.heard < number {
            if !self.hear_next() {
                return None;
            }
        }
        if self.refused.as_slice().contains(&number) {
            Some(Heard::NotListening)
        } else {
            Some(Heard::Assured)
        }
    }

    // Hears one answer; false where the ring showed none. A parcel with events has none yet.
    #[tactic(auto, using(crate::proofs::Sending::in_turn_more, crate::proofs::Sending::refused_more))]
    fn hear_next(&mut self) -> bool
        requires { self.old.heard < self.old.sent }
        ensures hears { HearsOne result (send_state self.old) (send_state self.new) }
        ensures sent { self.new.sent ≡ self.old.sent }
        ensures heard { self.new.heard ≡ (if result then self.old.heard + 1 else self.old.heard) }
        ensures same { IsSameSender (end_of self.old) (end_of self.new) }
    {
        let Some(answer) = self.end.answer() else {
            return false;
        };
        self.heard += 1;
        match answer.answer {
            Heard::Assured => {}
            Heard::NotListening => self.refused.push_reserved(answer.number),
        }
        true
    }

    /// Whether a last parcel was sent behind all others.
    pub fn has_sent_last(&self) -> bool
        ensures { result ≡ ends_with_last (send_state self.now).sends.sent }
    {
        self.ended
    }

    /// Sends a last parcel, unless one was sent behind all others; false where the ring showed no free slot. It takes
    /// no memory.
    #[tactic(auto, using(crate::proofs::Sending::filled_same, crate::proofs::Sending::ends_then))]
    pub fn push_last(&mut self) -> bool
        ensures sends { SendsLast result (send_state self.old) (send_state self.new) }
        ensures same { IsSameSender (end_of self.old) (end_of self.new) }
    {
        if self.ended {
            return true;
        }
        let Some(last) = self.last.take() else {
            return true;
        };
        self.last = self.end.push(last);
        self.ended = self.last.is_none();
        self.ended
    }
}

// A parcel without events, to an address.
fn last_parcel(alloc: Global, address: &Text) -> Result<Parcel, AllocError>
    ensures { IfOk result (IsLastParcel address.now) }
{
    Ok(Parcel {
        number: 0,
        address: address.copy()?,
        events: Items::new(alloc),
    })
}

fn copies(alloc: Global, events: &[Event]) -> Result<Items<Event>, AllocError>
    ensures { IfOk result (λ copies. copies ≡ events.now) }
{
    let mut copies = Items::with_capacity(alloc, events.len())?;
    for event in events {
        copies.push(event.copy()?)?;
    }
    Ok(copies)
}
