// What a pipeline sends, address by address.
ghost use Rattle.std.specs.Prelude.{◌≡◌, ◌≢◌, ◌≤◌, ◌<◌, [], ℕ, None, Ok, IfOk, IfErr, IfSome, length, slice_set};
ghost use Rattle.std.specs.List.{AllByRecursion};
ghost use Rattle.io_traits.specs.Counts.{Rose};
ghost use Rattle.pipeline_bus.specs.Parcels.{with_events};
ghost use Rattle.line_links.specs.SenderTables.{AssuredNow, HasToWait, IsAssured, IsFresh, WaitsOn, sender_place};
ghost use Rattle.line_links.specs.Senders.{send_state};
ghost use Rattle.line_links.specs.declared.senders.Sent.TheVariants as sent;

use crate::sender::AddressSender;
use event_tree::Event;
use pipeline_bus::{Heard, LinkSender};
use plain_data::{Items, Text};
use std::alloc::{AllocError, Global};

/// How a delivery to an address stands.
#[derive(Clone, Copy, Debug, PartialEq, Eq)]
pub enum Sent {
    /// It was taken, and what was taken is settled.
    Assured,
    /// It isn't, yet.
    Waits,
}

/// The ends of links on which a pipeline sends, at most one for each address.
#[derive(Drop)]
pub struct AddressSenders {
    pub(crate) senders: Vec<AddressSender>,
}

impl AddressSenders {
    ghost use Rattle.line_links.specs.SenderTables.{send_states};

    /// The senders to these addresses, on whose links nothing was sent. The only error is want of memory.
    pub fn of(alloc: Global, ends: Items<(Text, LinkSender)>) -> Result<AddressSenders, AllocError>
        requires { AllByRecursion IsFresh ends }
    {
        let mut senders = Vec::with_capacity(alloc, ends.len())?;
        for (address, end) in ends.into_vec() {
            match AddressSender::new(alloc, address, end) {
                Ok(sender) => senders.push(sender)?,
                Err((_, error)) => return Err(error),
            }
        }
        Ok(AddressSenders { senders })
    }

    /// Delivers events, of which there is one at least, to an address: sends copies of them in a parcel, unless the parcel of
    /// this number was sent of them before, and hears what was answered to it. The number of a parcel that was sent and isn't
    /// answered is left in `parcel`.
    ///
    /// `Waits` comes only where there is no sender to the address, where its ring showed no free slot or no answer, or where the
    /// answer is that nobody listens; then the events are sent again by the next call. The only error is want of memory.
    pub fn deliver(
        &mut self,
        address: &str,
        parcel: &mut Option<u64>,
        events: &[Event],
    ) -> Result<Sent, AllocError>
        requires { 0 < length events.now }
        ensures assured { IfOk result (λ s. s ≡ sent.Assured
            → IsAssured (send_states self.new)) }
        ensures waits { IfOk result (λ s. s ≡ sent.Waits
            → HasToWait address.now (send_states self.old) (send_states self.new)) }
    {
        let at = place_of(self.senders.as_slice(), address);
        if at >= self.senders.len() {
            return Ok(Sent::Waits);
        }
        self.senders[at].deliver(parcel, events)
    }

    /// Whether a last parcel was sent on each link, behind all others.
    pub fn has_sent_last(&self) -> bool {
        for at in 0..self.senders.len() {
            if !self.senders[at].has_sent_last() {
                return false;
            }
        }
        true
    }

    /// Sends a last parcel on each link on which none was sent behind all others; false where a ring showed no free slot. It
    /// takes no memory.
    pub fn push_last(&mut self) -> bool {
        let mut pushed = true;
        for at in 0..self.senders.len() {
            pushed &= self.senders[at].push_last();
        }
        pushed
    }
}

impl AddressSender {
    // Delivers events, as above.
    fn deliver(&mut self, parcel: &mut Option<u64>, events: &[Event]) -> Result<Sent, AllocError>
        requires { 0 < length events.now }
        ensures assured { IfOk result (λ s. s ≡ sent.Assured
            → AssuredNow (send_state self.new)) }
        ensures waits { IfOk result (λ s. s ≡ sent.Waits
            → WaitsOn (send_state self.old) (send_state self.new)) }
        ensures address { (send_state self.new).address ≡ (send_state self.old).address }
    {
        let Some(number) = self.send_once(*parcel, events)? else {
            return Ok(Sent::Waits);
        };
        *parcel = Some(number);
        match self.hear(number) {
            Some(Heard::Assured) => {
                *parcel = None;
                Ok(Sent::Assured)
            }
            Some(Heard::NotListening) => {
                *parcel = None;
                Ok(Sent::Waits)
            }
            None => Ok(Sent::Waits),
        }
    }

    // The number of the parcel of events: of that which was sent before, or of one that is sent now.
    fn send_once(
        &mut self,
        parcel: Option<u64>,
        events: &[Event],
    ) -> Result<Option<u64>, AllocError>
        requires { 0 < length events.now }
        ensures some { IfOk result (λ number. IfSome number (λ n.
            (1 ≤ n) × (n ≤ with_events (send_state self.new).sends.sent))) }
        ensures none { result ≡ Ok None → Rose (send_state self.old).sends.push_misses
            (send_state self.new).sends.push_misses }
        ensures looks { (send_state self.new).sends.answer_misses
            ≡ (send_state self.old).sends.answer_misses }
        ensures address { (send_state self.new).address ≡ (send_state self.old).address }
    {
        if let Some(number) = parcel {
            if 1 <= number && number <= self.sent() {
                return Ok(Some(number));
            }
        }
        self.send(events)
    }
}

// The place of the sender to an address, or how many there are.
fn place_of(senders: &[AddressSender], address: &str) -> usize
    ensures { result ≡ sender_place address.now senders.now }
{
    for at in 0..senders.len() {
        if senders[at].address().as_str() == address {
            return at;
        }
    }
    senders.len()
}
