// Links between pipelines: parcels one way, answers the other.
ghost use Rattle.std.specs.Prelude.{◌≡◌, ◌≤◌, ◌<◌, ◌++◌, [], true, length, None, IfOk, IfSome, IfNone};
ghost use Rattle.pipeline_bus.specs.Parcels.{HasNextNumber, IsInTurn, ends_with_last, numbered, taken_of};
ghost use Rattle.pipeline_bus.specs.Counted.{popped};

use crate::counted::CountedEnd;
use crate::parcel::{Answer, InTurn, Numbered, Parcel};
use crate::room::Room;
use rtrb::{Consumer, Producer, RingBuffer};
use std::alloc::{AllocError, Global};

/// How many values each of a link's two rings holds.
pub(crate) const SLOTS: usize = 16;

/// The end of a link that sends parcels and hears answers.
#[derive(Drop)]
pub struct LinkSender {
    pub(crate) parcels: CountedEnd<Producer<Parcel, Global, Numbered>>,
    pub(crate) answers: CountedEnd<Consumer<Answer, Global, InTurn>>,
}

/// The end of a link that takes parcels and tells answers.
#[derive(Drop)]
pub struct LinkTaker {
    pub(crate) parcels: CountedEnd<Consumer<Parcel, Global, Numbered>>,
    pub(crate) answers: CountedEnd<Producer<Answer, Global, InTurn>>,
    /// What `waiting` moved out of the ring and `take` hasn't given yet.
    pub(crate) room: Room,
    /// Whether `take` gave a last parcel last.
    ended: bool,
    ghost few: { length room ≤ 16 },
    ghost split: { popped parcels ≡ taken_of (popped parcels) room ++ room },
    ghost numbers: { numbered 0 (popped parcels) ≡ true },
    ghost end: { ended ≡ ends_with_last (taken_of (popped parcels) room) },
}

impl LinkSender {
    ghost use Rattle.pipeline_bus.specs.Ends.{sending, pushed_as, heard_as, IsSameSender};

    /// Sends a parcel, or hands it back where the ring showed no free slot.
    ///
    /// The parcel has to have the next number of its link: with events, one more than the parcels with events that
    /// were sent before; without, 0.
    pub fn push(&mut self, parcel: Parcel) -> Option<Parcel>
        requires { HasNextNumber (sending self.old).sent parcel }
        ensures same { IsSameSender self.old self.new }
        ensures sent { sending self.new ≡ pushed_as result parcel (sending self.old) }
        ensures back { IfSome result (λ back. back ≡ parcel) }
    {
        self.parcels.push(parcel)
    }

    /// Hears the next answer, which is of the oldest parcel with events that has none yet; none where the ring
    /// showed none.
    pub fn answer(&mut self) -> Option<Answer>
        ensures same { IsSameSender self.old self.new }
        ensures heard { sending self.new ≡ heard_as result (sending self.old) }
        ensures number { IfSome result (IsInTurn (sending self.old).heard) }
    {
        self.answers.pop()
    }

    /// How many pushes were handed back.
    pub fn push_misses(&self) -> u64
        ensures { result ≡ (sending self.now).push_misses }
    {
        self.parcels.misses()
    }

    /// How many looks for an answer found none.
    pub fn answer_misses(&self) -> u64
        ensures { result ≡ (sending self.now).answer_misses }
    {
        self.answers.misses()
    }
}

impl LinkTaker {
    ghost use Rattle.pipeline_bus.specs.Ends.{taking, taken_as, told_as, TakesOne, ShowsOne, Waits, IsSameTaker};

    /// Takes the oldest parcel that was sent and not taken; none where the ring showed none.
    pub fn take(&mut self) -> Option<Parcel>
        ensures same { IsSameTaker self.old self.new }
        ensures taken { taking self.new ≡ taken_as result (taking self.old) }
        ensures number { IfSome result (HasNextNumber (taking self.old).taken) }
    {
        match self.take_from_room() {
            Some(parcel) => Some(parcel),
            None => self.take_from_ring(),
        }
    }

    fn take_from_room(&mut self) -> Option<Parcel>
        ensures same { IsSameTaker self.old self.new }
        ensures some { IfSome result (TakesOne (taking self.old) (taking self.new)) }
        ensures none { IfNone result ((taking self.old).room ≡ []) }
        ensures unchanged { IfNone result (taking self.new ≡ taking self.old) }
    {
        let parcel = self.room.take_oldest()?;
        self.ended = parcel.is_last();
        Some(parcel)
    }

    fn take_from_ring(&mut self) -> Option<Parcel>
        requires { (taking self.old).room ≡ [] }
        ensures same { IsSameTaker self.old self.new }
        ensures some { IfSome result (TakesOne (taking self.old) (taking self.new)) }
        ensures none { IfNone result (taking self.new ≡ taken_as None (taking self.old)) }
    {
        let parcel = self.parcels.pop()?;
        self.ended = parcel.is_last();
        Some(parcel)
    }

    /// Tells the answer to the oldest parcel with events that has none yet, or hands it back where the ring showed
    /// no free slot.
    pub fn tell(&mut self, answer: Answer) -> Option<Answer>
        requires { IsInTurn (taking self.old).given answer }
        ensures same { IsSameTaker self.old self.new }
        ensures told { taking self.new ≡ told_as result answer (taking self.old) }
        ensures back { IfSome result (λ back. back ≡ answer) }
    {
        self.answers.push(answer)
    }

    /// How many parcels with events wait to be taken, of those that the ring shows, and at most of the sixteen
    /// oldest that wait. It takes none away: what it sees it keeps in a room of this end's own, where it counts as
    /// not taken.
    pub fn waiting(&mut self) -> u32
        ensures same { IsSameTaker self.old self.new }
        ensures waits { Waits result (taking self.old) (taking self.new) }
    {
        while self.room.has_room() {
            if !self.show_one() {
                break;
            }
        }
        self.room.with_events()
    }

    /// Moves a parcel from the ring into the room; false where the ring showed none.
    fn show_one(&mut self) -> bool
        requires { length (taking self.old).room < 16 }
        ensures same { IsSameTaker self.old self.new }
        ensures shows { ShowsOne result (taking self.old) (taking self.new) }
    {
        match self.parcels.pop() {
            Some(parcel) => {
                self.room.add(parcel);
                true
            }
            None => false,
        }
    }

    /// Whether the parcel that `take` gave last is a last parcel; false before the first.
    pub fn ended(&self) -> bool
        ensures { result ≡ ends_with_last (taking self.now).taken }
    {
        self.ended
    }

    /// How many looks for a parcel found none, those of `waiting` among them.
    pub fn take_misses(&self) -> u64
        ensures { result ≡ (taking self.now).take_misses }
    {
        self.parcels.misses()
    }

    /// How many answers were handed back.
    pub fn tell_misses(&self) -> u64
        ensures { result ≡ (taking self.now).tell_misses }
    {
        self.answers.misses()
    }
}

/// What is done with both ends of a link.
pub struct Link;

impl Link {
    ghost use Rattle.pipeline_bus.specs.Ends.{sending, taking, no_sending, no_taking, AreLinked, IsSameSender, IsSameTaker, InOrder};

    /// A new link, on which nothing was sent.
    pub fn pair(alloc: Global) -> Result<(LinkSender, LinkTaker), AllocError>
        ensures linked { IfOk result (λ ends. AreLinked ends.0 ends.1) }
        ensures sending { IfOk result (λ ends. sending ends.0 ≡ no_sending) }
        ensures taking { IfOk result (λ ends. taking ends.1 ≡ no_taking) }
    {
        let (sends, takes) = RingBuffer::with_protocol(alloc, SLOTS)?;
        let (tells, hears) = RingBuffer::with_protocol(alloc, SLOTS)?;
        let sender = LinkSender {
            parcels: CountedEnd::new(sends),
            answers: CountedEnd::new(hears),
        };
        let taker = LinkTaker {
            parcels: CountedEnd::new(takes),
            answers: CountedEnd::new(tells),
            room: Room::new(alloc)?,
            ended: false,
        };
        Ok((sender, taker))
    }

    /// Looks at both ends of one link, and changes nothing: the parcels that were taken, then those that wait in
    /// the taker's room, then those in the ring are the parcels that were sent, in order; and the answers that were
    /// heard, then those in the ring are the answers that were given.
    pub fn beside(sender: &mut LinkSender, taker: &mut LinkTaker)
        requires { AreLinked sender.old taker.old }
        ensures sender { IsSameSender sender.old sender.new }
        ensures taker { IsSameTaker taker.old taker.new }
        ensures sending { sending sender.new ≡ sending sender.old }
        ensures taking { taking taker.new ≡ taking taker.old }
        ensures order { InOrder (sending sender.new) (taking taker.new) }
    {
        let _parcels = taker.parcels.end.slots_beside(&mut sender.parcels.end);
        let _answers = sender.answers.end.slots_beside(&mut taker.answers.end);
    }
}
