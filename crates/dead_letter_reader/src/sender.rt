// A reader of dead letters, which sends them in parcels and records what is answered.
ghost use Rattle.std.specs.Prelude.{◌≡◌, ◌↔◌, ◌<◌, ◌≤◌, [], IsTrue, IsErr, Ok, Err, length, IfOk, IfErr, OnOk};
ghost use Rattle.pipeline_bus.specs.Ends.{sending};
ghost use Rattle.pipeline_bus.specs.Parcels.{ends_with_last, with_events};

use crate::marks::events_of;
use crate::opening::{OpenedReader, open_folder};
use crate::recording::record;
use dead_letters::{Counted, DeadRow, DeadRows};
use event_tree::{Items, Text};
use io_traits::{Failed, QueueFault, Store};
use pipeline_bus::{Heard, LinkSender, Parcel};
use std::alloc::{AllocError, Global};

/// How many letters a parcel has at most.
const PARCEL_LETTERS: usize = 125;

/// What a step did.
#[derive(Clone, Copy, Debug, PartialEq, Eq)]
pub enum SendOutcome {
    /// A parcel with letters was sent.
    Parcel,
    /// The ring of the link showed no free slot, or no answer to the parcel that is out.
    NotYet,
    /// Each letter is answered `Assured`, and the last parcel is sent.
    Ended,
}

/// The reader of a queue of dead letters: it sends the letters that stood in a folder when it was opened, behind
/// the place that is recorded, 125 in a parcel and one parcel after the other, and then a last parcel.
#[derive(Drop)]
pub struct DeadSender {
    pub(crate) sender: LinkSender,
    /// The address that letters are sent to.
    pub(crate) address: Text,
    /// The file of the place up to which they were answered.
    pub(crate) file: Text,
    /// What that file says.
    pub(crate) recorded: Counted,
    /// The letters that are to be sent.
    pub(crate) rows: DeadRows,
    /// How many of them were answered `Assured`.
    pub(crate) done: usize,
    /// How many behind these are out in a parcel without an answer.
    pub(crate) out: usize,
    /// How many parcels with events were sent.
    number: u64,
    /// Whether the last parcel was sent.
    ended: bool,
    ghost numbers: { number ≡ with_events (sending sender).sent },
    ghost end: { ended ≡ ends_with_last (sending sender).sent },
}

impl DeadSender {
    ghost use Rattle.io_traits.specs.Counts.{HasCause};
    ghost use Rattle.io_traits.specs.Folders.{folder_start};
    ghost use Rattle.io_traits.specs.Moments.{EachMoment, ReadsBeside};
    ghost use Rattle.io_traits.specs.declared.queue_faults.Damage.{Damage as DamageValue};
    ghost use Rattle.io_traits.specs.declared.queue_faults.QueueFault.TheVariants as f;
    ghost use Rattle.pipeline_bus.specs.Ends.{IsSameSender};
    ghost use Rattle.dead_letters.specs.Views.{IsOwn};
    ghost use Rattle.dead_letter_reader.specs.Names.{address_of, place_file};
    ghost use Rattle.dead_letter_reader.specs.Opening.{AreLeft, IsDamaged, LeavesQueue};
    ghost use Rattle.dead_letter_reader.specs.Ready.{IsReady, LeavesPlace};
    ghost use Rattle.dead_letter_reader.specs.Steps.{Begins, HasMissed, HasPushed, HearsBy, Pushes, SendsLast, SendsNext, Steps, next_rows};
    ghost use Rattle.dead_letter_reader.specs.Work.{InOrder, IsAllSent, IsSending, sender_of, work};
    ghost use Rattle.dead_letter_reader.specs.declared.sender.SendOutcome.TheVariants as s;

    /// Opens the queue of dead letters of a folder, whose path ends with a slash, and the file of the place up to
    /// which its letters were answered, `dlq.pos` in the folder beside it whose name ends with `.dlq`. The end of
    /// the link is one on which nothing was sent.
    ///
    /// The letters behind that place, all where nothing is recorded, are those that will be sent. It reads all of
    /// them, and takes memory in proportion. `Damaged` is a damage of the queue, of a letter, or of the file of the
    /// place. An error gives the end of the link back, and leaves what the queue holds.
    pub fn open_on<S: Store>(
        alloc: Global,
        store: &mut S,
        folder: &str,
        sender: LinkSender,
    ) -> Result<DeadSender, (LinkSender, QueueFault)>
        requires start { folder_start folder.now ≡ folder.now }
        requires sent { (sending sender).sent ≡ [] }
        requires heard { (sending sender).heard ≡ [] }
        ensures names { IfOk result (λ d. ((work d).address ≡ address_of folder.now)
            × ((work d).file ≡ place_file folder.now)) }
        ensures sender { IfOk result (λ d. sender_of d ≡ sender) }
        ensures begins { IfOk result (λ d. Begins (work d)) }
        ensures left { IfOk result (λ d. IsTrue S.tells
            → AreLeft folder.now (S.seen store.old) (work d).rows) }
        ensures ready { IfOk result (λ d. IsReady S.Store (work d) store.new) }
        ensures back { IfErr result (λ e. e.0 ≡ sender) }
        ensures damaged { (damage : DamageValue) → result ≡ Err (sender, f.Damaged damage)
            → IsTrue S.tells → IsDamaged folder.now (S.seen store.old) damage }
        ensures any_moment { EachMoment S.Store store.old store.new
            (LeavesQueue S.Store folder.now store.old) }
        ensures beside { ReadsBeside S.Store (IsOwn folder.now) store.old store.new }
        ensures cause { HasCause (S.faults store.old) (S.faults store.new)
            (result ≡ Err (sender, f.Fault)) }
    {
        match open_folder(alloc, store, folder) {
            Ok(
                OpenedReader {
                    address,
                    file,
                    recorded,
                    rows,
                },
            ) => Ok(DeadSender {
                sender,
                address,
                file,
                recorded,
                rows,
                done: 0,
                out: 0,
                number: 0,
                ended: false,
            }),
            Err(fault) => Err((sender, fault)),
        }
    }

    /// The end of the link, on which whoever has it may send a last parcel.
    pub fn into_sender(self) -> LinkSender
        ensures { result ≡ sender_of self }
    {
        self.sender
    }

    /// Hears the answer to the parcel that is out, if one is, and sends the next: the next 125 letters, or those that
    /// are left, once the one before is answered `Assured`; the same letters again where it was answered
    /// `NotListening`; and, once each letter is answered `Assured`, the last parcel, once. Behind an answer `Assured`
    /// it records the place of the last letter of the parcel and syncs, before it sends.
    ///
    /// `Memory` is want of memory for a parcel, or of a number: there are 2^64 - 1 for one link. What it heard and
    /// recorded before stands, and it may be called again. Behind `Fault` it takes no further step.
    pub fn step<S: Store>(&mut self, store: &mut S) -> Result<SendOutcome, QueueFault>
        requires ready { IsReady S.Store (work self.old) store.old }
        ensures steps { Steps (work self.old) (work self.new) result }
        ensures ready { (result ≡ Err f.Fault → ⊥) → IsReady S.Store (work self.new) store.new }
        ensures same { IsSameSender (sender_of self.old) (sender_of self.new) }

        // The parcels have a front of the letters, in order and each once.
        ensures in_order { InOrder (work self.new) }
        ensures parcel { result ≡ Ok s.Parcel → HasPushed (work self.old) (work self.new) }
        ensures not_yet { result ≡ Ok s.NotYet → HasMissed (work self.old) (work self.new) }
        ensures ended { result ≡ Ok s.Ended ↔ IsAllSent (work self.new) }

        // The place that is recorded passes only letters that were answered Assured.
        ensures any_moment { EachMoment S.Store store.old store.new (LeavesPlace S.Store
            (work self.old).file (work self.old).rows (work self.new).done store.old) }
        ensures beside { ReadsBeside S.Store (λ n. n ≡ (work self.old).file) store.old store.new }
        ensures cause { HasCause (S.faults store.old) (S.faults store.new) (result ≡ Err f.Fault) }
    {
        if self.out > 0 {
            match self.hear(store) {
                Ok(true) => {}
                Ok(false) => return Ok(SendOutcome::NotYet),
                Err(_) => return Err(QueueFault::Fault),
            }
        }
        self.send()
    }

    // Hears the answer to the parcel that is out, and records the place where it is Assured; false where the ring
    // showed none.
    fn hear<S: Store>(&mut self, store: &mut S) -> Result<bool, Failed>
        requires ready { IsReady S.Store (work self.old) store.old }
        requires out { 0 < (work self.old).out }
        ensures hears { HearsBy result (work self.old) (work self.new) }
        ensures ready { OnOk result (IsReady S.Store (work self.new) store.new) }
        ensures same { IsSameSender (sender_of self.old) (sender_of self.new) }
        ensures any_moment { EachMoment S.Store store.old store.new (LeavesPlace S.Store
            (work self.old).file (work self.old).rows (work self.new).done store.old) }
        ensures beside { ReadsBeside S.Store (λ n. n ≡ (work self.old).file) store.old store.new }
        ensures cause { HasCause (S.faults store.old) (S.faults store.new) (IsErr result) }
    {
        let Some(answer) = self.sender.answer() else {
            return Ok(false);
        };
        match answer.answer {
            Heard::NotListening => {
                self.out = 0;
            }
            Heard::Assured => {
                let rows = self.rows.as_slice();
                self.done += self.out;
                self.out = 0;
                let last = &rows[self.done - 1];
                self.recorded = record(store, self.file.as_str(), self.recorded, last)?;
            }
        }
        Ok(true)
    }

    // Sends the next parcel, or the last one. None is out.
    fn send(&mut self) -> Result<SendOutcome, QueueFault>
        requires sending { IsSending (work self.old) }
        requires none { (work self.old).out ≡ 0 }
        ensures pushes { Pushes (work self.old) (work self.new) result }
        ensures same { IsSameSender (sender_of self.old) (sender_of self.new) }
    {
        if self.done < self.rows.len() {
            return Ok(self.send_next()?);
        }
        if self.ended {
            return Ok(SendOutcome::Ended);
        }
        Ok(self.send_last()?)
    }

    // Sends the next letters.
    fn send_next(&mut self) -> Result<SendOutcome, AllocError>
        requires sending { IsSending (work self.old) }
        requires some { (work self.old).done < length (work self.old).rows }
        ensures sent { IfOk result (SendsNext (work self.old) (work self.new)) }
        ensures err { IfErr result (λ _. work self.new ≡ work self.old) }
        ensures same { IsSameSender (sender_of self.old) (sender_of self.new) }
    {
        let alloc = self.rows.allocator();
        let next = self.next();
        let out = next.len();
        let Some(number) = self.number.checked_add(1) else {
            return Err(AllocError);
        };
        let parcel = Parcel {
            number,
            address: self.address.copy()?,
            events: events_of(alloc, next)?,
        };
        match self.sender.push(parcel) {
            Some(_) => Ok(SendOutcome::NotYet),
            None => {
                self.number = number;
                self.out = out;
                Ok(SendOutcome::Parcel)
            }
        }
    }

    // The letters of the next parcel.
    fn next(&self) -> &[DeadRow]
        requires { (work self.now).done ≤ length (work self.now).rows }
        ensures { result.now ≡ next_rows (work self.now) }
    {
        let left = &self.rows.as_slice()[self.done..];
        &left[..left.len().min(PARCEL_LETTERS)]
    }

    // Sends the last parcel.
    fn send_last(&mut self) -> Result<SendOutcome, AllocError>
        ensures sent { IfOk result (SendsLast (work self.old) (work self.new)) }
        ensures err { IfErr result (λ _. work self.new ≡ work self.old) }
        ensures same { IsSameSender (sender_of self.old) (sender_of self.new) }
    {
        let parcel = Parcel {
            number: 0,
            address: self.address.copy()?,
            events: Items::new(self.rows.allocator()),
        };
        match self.sender.push(parcel) {
            Some(_) => Ok(SendOutcome::NotYet),
            None => {
                self.ended = true;
                Ok(SendOutcome::Ended)
            }
        }
    }
}
