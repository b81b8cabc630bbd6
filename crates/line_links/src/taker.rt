// The end of a link on which an input takes parcels of one address.
ghost use Rattle.std.specs.Prelude.{◌≡◌, ◌<◌, ◌≤◌, ◌+◌, [], true, false, length, map, vec_capacity, Some, None, Ok, IfOk, IfSome, IfNone, OnErr};
ghost use Rattle.std.specs.Option.{ForSome};
ghost use Rattle.pipeline_bus.specs.Ends.{taking};
ghost use Rattle.pipeline_bus.specs.Parcels.{with_events};
ghost use Rattle.line_links.specs.Answers.{numbers_from, one_if_some};

use event_tree::Event;
use pipeline_bus::{Answer, Heard, LinkTaker, Parcel};
use plain_data::Text;
use std::alloc::{AllocError, Global};
use std::collections::VecDeque;

/// What a poll found.
#[derive(Clone, Copy, Debug, PartialEq, Eq)]
pub enum Polled {
    /// A parcel with events, which is held then.
    Events,
    /// The ring showed no parcel.
    NotYet,
    /// The parcel that came last is a last parcel.
    Ended,
}

/// A parcel that was taken, of which not all events stand in rows.
#[derive(Drop)]
pub(crate) struct PartParcel {
    pub number: u64,
    /// The events that weren't given yet.
    pub left: VecDeque<Event>,
    /// How many events it has.
    pub total: usize,
    /// How many of them stand in rows.
    pub rows: usize,
}

/// A parcel of which all events stand in rows, and which isn't answered.
#[derive(Clone, Copy)]
pub(crate) struct WholeParcel {
    pub number: u64,
    /// The number of the last of its rows.
    pub row: u64,
}

/// What an input takes of one address.
#[derive(Drop)]
pub struct AddressTaker {
    pub(crate) address: Text,
    pub(crate) end: LinkTaker,
    /// Whether the input listens.
    pub(crate) listens: bool,
    /// The parcel whose events are given.
    pub(crate) part: Option<PartParcel>,
    /// The parcels that wait for an answer, the oldest first.
    pub(crate) whole: Vec<WholeParcel>,
    /// The number of a parcel that was dropped, since nobody listens, and isn't answered yet.
    pub(crate) refusing: Option<u64>,
    /// How many parcels with events are to be refused behind it, of those that lay in the ring when the input was closed.
    pub(crate) lost: u32,
    ghost counted: { with_events (taking end).taken ≡ length (taking end).given
        + length whole.items + (one_if_some part + one_if_some refusing) },
    ghost numbers: { map (λ w. w.number) whole.items
        ≡ numbers_from (length (taking end).given + 1) (length whole.items) },
    ghost part_is: { ForSome part (λ p.
        p.number ≡ length (taking end).given + length whole.items + 1) },
    ghost part_left: { ForSome part (λ p. p.rows + length p.left.items ≤ p.total) },
    ghost part_some: { ForSome part (λ p. p.rows < p.total) },
    ghost room: { ForSome part (λ _. length whole.items < vec_capacity whole) },
    ghost refused_is: { ForSome refusing (λ n. n ≡ length (taking end).given + 1) },
    ghost refused_last: { ForSome refusing (λ _. whole.items ≡ []) },
    ghost refused_part: { ForSome refusing (λ _. part ≡ None) },
    ghost none_lost: { listens ≡ true → (lost ≡ 0) × (refusing ≡ None) },
}

impl AddressTaker {
    ghost use Rattle.pipeline_bus.specs.Ends.{IsSameTaker};
    ghost use Rattle.line_links.specs.Takers.{take_state, taker_end, has_given, holds, is_free, may_poll, Closes, DropsNone, EndsBy, Gives, IsRefusing, Notes, Polls, Refuses, Settles};
    ghost use Rattle.line_links.specs.Listening.{is_due, is_giving, row_noted, Finds, PassesOver};

    /// The end of a link as the taker of an address. Each parcel that was taken on it is answered.
    pub fn new(alloc: Global, address: Text, end: LinkTaker) -> AddressTaker
        requires { with_events (taking end).taken ≡ length (taking end).given }
        ensures { take_state result ≡ record {
          address = address;
          taking = taking end;
          listens = true;
          part = None;
          whole = [];
          refusing = None;
          lost = 0;
        } }
    {
        AddressTaker {
            address,
            end,
            listens: true,
            part: None,
            whole: Vec::new(alloc),
            refusing: None,
            lost: 0,
        }
    }

    /// The address.
    pub fn address(&self) -> &Text
        ensures { result.now ≡ (take_state self.now).address }
    {
        &self.address
    }

    /// Whether the input listens, and each event of the parcels that it took stands in a row: so whether
    /// [`AddressTaker::poll`] may be called.
    pub fn may_poll(&self) -> bool
        ensures { result ≡ may_poll (take_state self.now) }
    {
        self.listens && self.part.is_none()
    }

    /// Looks for the next parcel, where the input listens and holds none. Its events are held then, to be given by
    /// [`AddressTaker::next`]. The only error is want of memory; then nothing was taken.
    #[tactic(auto, using(crate::proofs::Taking::taken_one, crate::proofs::Taking::taken_last, crate::proofs::Taking::ends_behind, crate::proofs::Taking::number_of_one))]
    pub fn poll(&mut self) -> Result<Polled, AllocError>
        requires { may_poll (take_state self.old) ≡ true }
        ensures polls { IfOk result (λ found. Polls found (take_state self.old) (take_state self.new)) }
        ensures err { OnErr result (take_state self.new ≡ take_state self.old) }
        ensures same { IsSameTaker (taker_end self.old) (taker_end self.new) }
    {
        self.whole.reserve(1)?;
        let Some(parcel) = self.end.take() else {
            return Ok(if self.end.ended() {
                Polled::Ended
            } else {
                Polled::NotYet
            });
        };
        if parcel.is_last() {
            return Ok(Polled::Ended);
        }
        let Parcel { number, events, .. } = parcel;
        let left = VecDeque::from_vec(events.into_vec());
        let total = left.len();
        self.part = Some(PartParcel {
            number,
            left,
            total,
            rows: 0,
        });
        Ok(Polled::Events)
    }

    /// Polls it where that may be, and says whether a parcel with events came. The only error is want of memory; then nothing
    /// was taken.
    pub(crate) fn look(&mut self) -> Result<bool, AllocError>
        ensures found { result ≡ Ok true → Finds (take_state self.old) (take_state self.new) }
        ensures none { result ≡ Ok false → PassesOver (take_state self.old) (take_state self.new) }
        ensures err { OnErr result (take_state self.new ≡ take_state self.old) }
        ensures same { IsSameTaker (taker_end self.old) (taker_end self.new) }
    {
        if !self.may_poll() {
            return Ok(false);
        }
        match self.poll()? {
            Polled::Events => Ok(true),
            Polled::NotYet | Polled::Ended => Ok(false),
        }
    }

    /// Whether a parcel was taken of which not all events stand in rows.
    pub fn is_giving(&self) -> bool
        ensures { result ≡ is_giving (take_state self.now) }
    {
        self.part.is_some()
    }

    /// Whether an event is held, which [`AddressTaker::next`] gives.
    pub fn holds(&self) -> bool
        ensures { result ≡ holds (take_state self.now) }
    {
        match &self.part {
            Some(part) => !part.left.is_empty(),
            None => false,
        }
    }

    /// The next event of the parcel that is held; none exactly where none is held.
    pub fn next(&mut self) -> Option<Event>
        ensures gives { Gives result (take_state self.old) (take_state self.new) }
        ensures same { taker_end self.new ≡ taker_end self.old }
    {
        let mut part = self.part.take()?;
        let event = part.left.pop_front();
        self.part = Some(part);
        event
    }

    /// Whether an event was given that isn't noted in a row: so whether [`AddressTaker::note_row`] may be called.
    pub fn has_given(&self) -> bool
        ensures { result ≡ has_given (take_state self.now) }
    {
        match &self.part {
            Some(part) => part.left.len() < part.total - part.rows,
            None => false,
        }
    }

    /// Notes that the oldest event that was given, and for which this wasn't called, stands in the row of this number. It
    /// takes no memory. Numbers rise from row to row.
    #[tactic(auto, using(crate::proofs::Taking::whole_more))]
    pub fn note_row(&mut self, number: u64)
        requires { has_given (take_state self.old) ≡ true }
        ensures notes { Notes number (take_state self.old) (take_state self.new) }
        ensures same { taker_end self.new ≡ taker_end self.old }
    {
        let Some(mut part) = self.part.take() else {
            return;
        };
        part.rows += 1;
        if part.rows < part.total {
            self.part = Some(part);
        } else {
            self.whole.push_reserved(WholeParcel {
                number: part.number,
                row: number,
            });
        }
    }

    /// The same, where an event was given that isn't noted in a row; else nothing.
    pub(crate) fn note_given(&mut self, number: u64)
        ensures notes { take_state self.new ≡ row_noted number (take_state self.old) }
        ensures same { taker_end self.new ≡ taker_end self.old }
    {
        if self.has_given() {
            self.note_row(number);
        }
    }

    /// Whether the oldest parcel that waits for an answer has each of its events in a row up to `front`.
    pub fn is_due(&self, front: u64) -> bool
        ensures { result ≡ is_due front (take_state self.now) }
    {
        match self.whole.first() {
            Some(oldest) => oldest.row <= front,
            None => false,
        }
    }

    /// Answers `Assured` to the oldest parcel that waits, where each of its events stands in a row up to `front`, and gives
    /// that answer; none where there is no such parcel, or where the ring showed no free slot. It takes no memory.
    pub fn assure(&mut self, front: u64) -> Option<Answer>
        ensures settles { Settles front result (take_state self.old) (take_state self.new) }
        ensures same { IsSameTaker (taker_end self.old) (taker_end self.new) }
    {
        let oldest = *self.whole.first()?;
        if front < oldest.row {
            return None;
        }
        let answer = Answer {
            number: oldest.number,
            answer: Heard::Assured,
        };
        if let Some(_back) = self.end.tell(answer) {
            return None;
        }
        self.whole.remove(0);
        Some(answer)
    }

    /// Whether the input listens.
    pub fn listens(&self) -> bool
        ensures { result ≡ (take_state self.now).listens }
    {
        self.listens
    }

    /// Says that the input listens no longer: what of a parcel isn't given yet is given as before, and the parcels with
    /// events that the ring shows now, at most sixteen, are to be refused. It takes no memory.
    pub fn close(&mut self)
        requires { (take_state self.old).listens ≡ true }
        ensures closes { Closes (take_state self.old) (take_state self.new) }
        ensures same { IsSameTaker (taker_end self.old) (taker_end self.new) }
    {
        self.lost = self.end.waiting();
        self.listens = false;
    }

    /// Drops the oldest parcel that is to be refused, answers `NotListening` to it, and gives that answer; none where there
    /// is none, while a parcel that was taken isn't answered, where the ring showed none or a last parcel, which is passed
    /// over, or where it showed no free slot for the answer: then it is given at a later call. It takes no memory.
    pub fn refuse(&mut self) -> Option<Answer>
        ensures refuses { Refuses result (take_state self.old) (take_state self.new) }
        ensures same { IsSameTaker (taker_end self.old) (taker_end self.new) }
    {
        if self.part.is_some() || !self.whole.is_empty() {
            return None;
        }
        let Some(number) = self.begin_refusal() else {
            return None;
        };
        let answer = Answer {
            number,
            answer: Heard::NotListening,
        };
        if let Some(_back) = self.end.tell(answer) {
            return None;
        }
        self.refusing = None;
        Some(answer)
    }

    // Drops the oldest parcel that is to be refused, unless one was dropped before and isn't answered, and gives its number.
    fn begin_refusal(&mut self) -> Option<u64>
        requires part { self.old.part ≡ None }
        requires whole { self.old.whole.items ≡ [] }
        ensures some { IfSome result (λ n. IsRefusing (take_state self.old) (take_state self.new)) }
        ensures number { IfSome result (λ n. self.new.refusing ≡ Some n) }
        ensures none { IfNone result (DropsNone (take_state self.old) (take_state self.new)) }
        ensures no_number { IfNone result (self.old.refusing ≡ None) }
        ensures given { (taking (taker_end self.new)).given ≡ (taking (taker_end self.old)).given }
        ensures part { self.new.part ≡ None }
        ensures whole { self.new.whole ≡ self.old.whole }
        ensures same { IsSameTaker (taker_end self.old) (taker_end self.new) }
    {
        if let Some(number) = self.refusing {
            return Some(number);
        }
        if self.lost == 0 {
            return None;
        }
        let Some(parcel) = self.end.take() else {
            return None;
        };
        if parcel.is_last() {
            return None;
        }
        self.lost -= 1;
        self.refusing = Some(parcel.number);
        self.refusing
    }

    /// Whether the parcel that was taken last is a last parcel, all its events were given before, and the ring shows no
    /// parcel with events.
    #[tactic(auto, using(crate::proofs::Taking::room_more))]
    pub fn is_at_end(&mut self) -> bool
        ensures ends { EndsBy result (take_state self.old) (take_state self.new) }
        ensures same { IsSameTaker (taker_end self.old) (taker_end self.new) }
    {
        self.part.is_none() && self.end.ended() && self.end.waiting() == 0
    }

    /// Whether nobody listens any more, and each parcel that was taken, or was to be refused, is answered.
    pub fn is_free(&self) -> bool
        ensures { result ≡ is_free (take_state self.now) }
    {
        !self.listens
            && self.part.is_none()
            && self.whole.is_empty()
            && self.refusing.is_none()
            && self.lost == 0
    }

    /// The end of the link, on which each parcel that was taken is answered.
    pub fn into_end(self) -> LinkTaker
        requires { is_free (take_state self) ≡ true }
        ensures end { result ≡ taker_end self }
        ensures answered { with_events (taking result).taken ≡ length (taking result).given }
    {
        self.end
    }
}
