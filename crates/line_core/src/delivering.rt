// What is due of batches, delivered.
ghost use Rattle.std.specs.Prelude.{◌≡◌, ◌⊎◌, ◌<◌, ◌≤◌, ℕ, List, [], length, remove};
ghost use Rattle.std.specs.Prelude.{IsTrue, Ok, Err, OnOk};
ghost use Rattle.std.specs.Result.{IfErr};
ghost use Rattle.std.specs.List.{AllByRecursion};
ghost use Rattle.io_traits.specs.Counts.{HasCause, Rose};
ghost use Rattle.io_traits.specs.declared.queue_faults.Damage.{Damage as DamageValue};
ghost use Rattle.slot_files.specs.Contents.{counted_in};
ghost use Rattle.dead_letters.specs.Appends.{AllFit};
ghost use Rattle.line_outputs.specs.BoxTables.{IsKnown};
ghost use Rattle.line_outputs.specs.OpenFiles.{IsOutside, slot_in};
ghost use Rattle.line_machine.specs.declared.calls.Delivered.TheVariants as delivered;
ghost use Rattle.line_machine.specs.declared.calls.LineFault.TheVariants as fault;
ghost use Rattle.line_core.specs.Batches.{HasNothingLeft, IsBatchOf, IsOut};
ghost use Rattle.line_core.specs.Causes.{BoxRose, IsOfNoInput, LettersAreFull};
ghost use Rattle.line_core.specs.Deliveries.{AnswersOn, FailsOn, no_grounds, unappended};
ghost use Rattle.line_core.specs.Deliveries.{ChangesFolder, ChangesOutputs};
ghost use Rattle.line_core.specs.Parts.{batches_of, boxes_of, inputs_of, queue_of};
ghost use Rattle.line_core.specs.Parts.{letters_of, path_of};
ghost use Rattle.line_core.specs.Readiness.{CanDeliver, DueFits, IsReady, IsSame};
ghost use Rattle.line_core.specs.declared.batches.LineBatch.{LineBatch as LineBatchValue};

use crate::batches::{LeftOver, place_of};
use crate::line::Line;
use dead_letters::{DeadLetter, Shedding};
use event_tree::DeadPart;
use foreign_parts::{DeliverFault, Delivery, Fate, FilterCall, Place};
use history_book::{Book, Entry};
use io_traits::{Clock, Sink, Store};
use line_jobs::DueDelivery;
use line_machine::{Delivered, LineFault};
use line_outputs::laws::fates_are_as_many_as_events;
use line_outputs::{LetterFault, OutputCall, new_letters, write_flushed};
use plain_data::{Items, Text};

impl<F: FilterCall, O: OutputCall> Line<F, O> {
    /// Makes the next delivery of a batch that came home, and tells it: the letters of its dead events first, and then what
    /// its outputs send, in order. What stdout takes is flushed before it is told.
    ///
    /// - `Told` says that the delivery was made; of what a boxed output rejected the letters were appended before.
    /// - `Waiting` comes only where it goes to another pipeline, and `Later` only where the count of its box's laters rose.
    /// - `Finished` comes only where nothing of the batch is left to deliver, and nothing was done.
    /// - `Output` comes only where the count of faults of stdout, or of its box, rose; `Store` where that of the store did;
    ///   `Damaged` only where the file of an output, which is opened, is damaged so; `DeadFull` only where the letters have no
    ///   room, by their policy. Behind these, and behind `Memory`, the line takes no further call.
    pub fn deliver_one<S: Store, T: Sink, K: Clock, B: Book>(
        &mut self,
        batch: u64,
        store: &mut S,
        stdout: &mut T,
        clock: &mut K,
        book: &mut B,
    ) -> Result<Delivered, LineFault>
        requires ready { IsReady S.Store self.old store.old }
        requires can { CanDeliver O.number self.old }
        requires out { IsOut batch (batches_of self.old) }
        ensures ready { OnOk result (IsReady S.Store self.new store.new) }
        ensures can { OnOk result (CanDeliver O.number self.new) }
        ensures same { IsSame self.old self.new }
        ensures inputs { inputs_of self.new ≡ inputs_of self.old }
        ensures queue { queue_of self.new ≡ queue_of self.old }

        // When each answer comes.
        ensures finished { result ≡ Ok delivered.Finished → (b : LineBatchValue)
            → IsBatchOf batch (batches_of self.old) b → HasNothingLeft b.stage }
        ensures later { result ≡ Ok delivered.Later
            → BoxRose O.laters (boxes_of self.old) (boxes_of self.new) }
        ensures failed { (id : List ℕ) → result ≡ Err (fault.Output id)
            → Rose (T.faults stdout.old) (T.faults stdout.new)
            ⊎ BoxRose O.faults (boxes_of self.old) (boxes_of self.new) }
        ensures damaged { (damage : DamageValue) → result ≡ Err (fault.Damaged damage)
            → IsTrue S.tells → (path : List ℕ)
            × (counted_in path (slot_in (path_of self.old) path) (S.seen store.old) ≡ Err damage) }
        ensures full { (size added limit : ℕ) → result ≡ Err (fault.DeadFull size added limit)
            → LettersAreFull (letters_of self.old) size added limit }
        ensures others { IfErr result IsOfNoInput }
        ensures counts { T.faults stdout.old ≤ T.faults stdout.new }
        ensures cause { HasCause (S.faults store.old) (S.faults store.new)
            (result ≡ Err fault.Store) }
    {
        let at = place_of(self.batches.as_slice(), batch);
        let mut left = self.batches[at].take_left(self.alloc);
        let delivered = self.deliver_first(batch, &mut left, store, stdout, clock, book);
        let of = &mut self.batches[at];
        of.put_left(left);
        of.refused = is_refused(&delivered);
        delivered
    }

    // Makes the next delivery of what is left.
    fn deliver_first<S: Store, T: Sink, K: Clock, B: Book>(
        &mut self,
        batch: u64,
        left: &mut LeftOver,
        store: &mut S,
        stdout: &mut T,
        clock: &mut K,
        book: &mut B,
    ) -> Result<Delivered, LineFault>
        requires ready { IsReady S.Store self.old store.old }
        requires fits { AllByRecursion (DueFits O.number (path_of self.old) (boxes_of self.old))
            left.old.due }
        ensures ready { OnOk result (IsReady S.Store self.new store.new) }
        ensures changes { ChangesOutputs O.number self.old self.new }
        ensures fits { AllByRecursion (DueFits O.number (path_of self.old) (boxes_of self.old))
            left.new.due }
        ensures answers { AnswersOn (record {
          finished = (left.old.dead ≡ []) × (left.old.due ≡ []);
          later = BoxRose O.laters (boxes_of self.old) (boxes_of self.new);
          failed = Rose (T.faults stdout.old) (T.faults stdout.new)
              ⊎ BoxRose O.faults (boxes_of self.old) (boxes_of self.new);
          damaged = λ damage. IsTrue S.tells → (path : List ℕ)
              × (counted_in path (slot_in (path_of self.old) path) (S.seen store.old)
              ≡ Err damage);
          full = LettersAreFull (letters_of self.old);
          lost = Unit {0};
        }) result }
        ensures counts { T.faults stdout.old ≤ T.faults stdout.new }
        ensures cause { HasCause (S.faults store.old) (S.faults store.new)
            (result ≡ Err fault.Store) }
    {
        if !left.dead.is_empty() {
            self.add_letters(batch, left.dead.as_slice(), store, clock, book)?;
            left.dead.clear();
            return Ok(Delivered::Told);
        }
        let Some(due) = left.due.get(0) else {
            return Ok(Delivered::Finished);
        };
        let delivered = self.deliver(batch, due, store, stdout, clock, book);
        pass_on(&mut left.due, &delivered);
        delivered
    }

    // Makes a delivery, and tells it where it was made.
    fn deliver<S: Store, T: Sink, K: Clock, B: Book>(
        &mut self,
        batch: u64,
        due: &DueDelivery,
        store: &mut S,
        stdout: &mut T,
        clock: &mut K,
        book: &mut B,
    ) -> Result<Delivered, LineFault>
        requires ready { IsReady S.Store self.old store.old }
        requires fits { DueFits O.number (path_of self.old) (boxes_of self.old) due.now }
        ensures ready { OnOk result (IsReady S.Store self.new store.new) }
        ensures changes { ChangesOutputs O.number self.old self.new }
        ensures answers { AnswersOn (record no_grounds {
          later = BoxRose O.laters (boxes_of self.old) (boxes_of self.new);
          failed = Rose (T.faults stdout.old) (T.faults stdout.new)
              ⊎ BoxRose O.faults (boxes_of self.old) (boxes_of self.new);
          damaged = λ damage. IsTrue S.tells → (path : List ℕ)
              × (counted_in path (slot_in (path_of self.old) path) (S.seen store.old)
              ≡ Err damage);
          full = LettersAreFull (letters_of self.old);
          lost = Unit {0};
        }) result }
        ensures counts { T.faults stdout.old ≤ T.faults stdout.new }
        ensures cause { HasCause (S.faults store.old) (S.faults store.new)
            (result ≡ Err fault.Store) }
    {
        match &due.target.get().place {
            Place::Stdout => self.deliver_out(batch, due, stdout, book),
            Place::File(path) => self.deliver_to_file(batch, due, path, store, book),
            Place::Foreign(number) => self.deliver_boxed(batch, due, *number, store, clock, book),
            Place::Address(_) => Ok(Delivered::Waiting),
            Place::Discard | Place::Dead => {
                self.tell_delivered(batch, due, &[], book);
                Ok(Delivered::Told)
            }
        }
    }

    // Writes to stdout, and flushes it before the delivery is told.
    fn deliver_out<T: Sink, B: Book>(
        &self,
        batch: u64,
        due: &DueDelivery,
        stdout: &mut T,
        book: &mut B,
    ) -> Result<Delivered, LineFault>
        ensures answers { AnswersOn (record no_grounds {
          failed = Rose (T.faults stdout.old) (T.faults stdout.new);
        }) result }
        ensures counts { T.faults stdout.old ≤ T.faults stdout.new }
    {
        if write_flushed(stdout, due.bytes.as_slice()).is_err() {
            return Err(output_fault(&due.target.get().output));
        }
        self.tell_delivered(batch, due, &[], book);
        Ok(Delivered::Told)
    }

    // Appends to the file of a path, which stands outside of the folder.
    fn deliver_to_file<S: Store, B: Book>(
        &mut self,
        batch: u64,
        due: &DueDelivery,
        path: &Text,
        store: &mut S,
        book: &mut B,
    ) -> Result<Delivered, LineFault>
        requires ready { IsReady S.Store self.old store.old }
        requires outside { IsOutside (path_of self.old) path.now }
        ensures ready { OnOk result (IsReady S.Store self.new store.new) }
        ensures changes { ChangesFolder self.old self.new }
        ensures answers { AnswersOn (record no_grounds {
          damaged = λ damage. IsTrue S.tells → counted_in path.now
              (slot_in (path_of self.old) path.now) (S.seen store.old) ≡ Err damage;
          lost = Unit {0};
        }) result }
        ensures cause { HasCause (S.faults store.old) (S.faults store.new)
            (result ≡ Err fault.Store) }
    {
        self.folder
            .append(store, path.as_str(), due.bytes.as_slice())?;
        self.tell_delivered(batch, due, &[], book);
        Ok(Delivered::Told)
    }

    // Delivers to a boxed output. What it rejects is appended to the dead letters before the delivery is told.
    fn deliver_boxed<S: Store, K: Clock, B: Book>(
        &mut self,
        batch: u64,
        due: &DueDelivery,
        number: u64,
        store: &mut S,
        clock: &mut K,
        book: &mut B,
    ) -> Result<Delivered, LineFault>
        requires ready { IsReady S.Store self.old store.old }
        requires known { IsKnown O.number number (boxes_of self.old) }
        requires some { 0 < length due.now.events }
        ensures ready { OnOk result (IsReady S.Store self.new store.new) }
        ensures changes { ChangesOutputs O.number self.old self.new }
        ensures answers { AnswersOn (record no_grounds {
          later = BoxRose O.laters (boxes_of self.old) (boxes_of self.new);
          failed = BoxRose O.faults (boxes_of self.old) (boxes_of self.new);
          full = LettersAreFull (letters_of self.old);
          lost = Unit {0};
        }) result }
        ensures cause { HasCause (S.faults store.old) (S.faults store.new)
            (result ≡ Err fault.Store) }
    {
        match self.boxes.deliver(number, due.events.as_slice()) {
            Ok(Delivery::Took(fates)) => {
                fates_are_as_many_as_events();
                self.tell_fates(batch, due, number, fates.as_slice(), store, clock, book)
            }
            Ok(Delivery::Later) => Ok(Delivered::Later),
            Err(DeliverFault::Failed) => Err(output_fault(&due.target.get().output)),
            Err(DeliverFault::Memory) => Err(LineFault::Memory),
        }
    }

    // Appends letters of what a boxed output rejected, and tells the delivery.
    fn tell_fates<S: Store, K: Clock, B: Book>(
        &mut self,
        batch: u64,
        due: &DueDelivery,
        number: u64,
        fates: &[Fate],
        store: &mut S,
        clock: &mut K,
        book: &mut B,
    ) -> Result<Delivered, LineFault>
        requires ready { IsReady S.Store self.old store.old }
        requires known { IsKnown O.number number (boxes_of self.old) }
        requires each { length fates.now ≡ length due.now.events }
        ensures ready { OnOk result (IsReady S.Store self.new store.new) }
        ensures changes { ChangesFolder self.old self.new }
        ensures answers { AnswersOn (record no_grounds {
          full = LettersAreFull (letters_of self.old);
          lost = Unit {0};
        }) result }
        ensures cause { HasCause (S.faults store.old) (S.faults store.new)
            (result ≡ Err fault.Store) }
    {
        let rejected = self.boxes.rejections(number, fates, due.events.as_slice())?;
        self.add_letters(batch, rejected.as_slice(), store, clock, book)?;
        self.tell_delivered(batch, due, fates, book);
        Ok(Delivered::Told)
    }

    // Appends letters, where there are any, and tells them.
    fn add_letters<S: Store, K: Clock, B: Book>(
        &mut self,
        batch: u64,
        parts: &[DeadPart],
        store: &mut S,
        clock: &mut K,
        book: &mut B,
    ) -> Result<(), LineFault>
        requires ready { IsReady S.Store self.old store.old }
        ensures ready { OnOk result (IsReady S.Store self.new store.new) }
        ensures changes { ChangesFolder self.old self.new }
        ensures answers { IfErr result (FailsOn (record no_grounds {
          full = LettersAreFull (letters_of self.old);
          lost = Unit {0};
        })) }
        ensures cause { HasCause (S.faults store.old) (S.faults store.new)
            (result ≡ Err fault.Store) }
    {
        if parts.is_empty() {
            return Ok(());
        }
        let shed = self.append_letters(parts, store, clock)?;
        self.tell_letters(batch, parts, &shed, book);
        Ok(())
    }

    // Appends letters of a moment of the clock. Those whose records can't be written are refused before, so that `DeadFull` is
    // told of letters that can be.
    fn append_letters<S: Store, K: Clock>(
        &mut self,
        parts: &[DeadPart],
        store: &mut S,
        clock: &mut K,
    ) -> Result<Shedding, LineFault>
        requires ready { IsReady S.Store self.old store.old }
        ensures ready { OnOk result (IsReady S.Store self.new store.new) }
        ensures changes { ChangesFolder self.old self.new }
        ensures answers { IfErr result (FailsOn (record no_grounds {
          full = LettersAreFull (letters_of self.old);
          lost = Unit {0};
        })) }
        ensures cause { HasCause (S.faults store.old) (S.faults store.new)
            (result ≡ Err fault.Store) }
    {
        let letters = new_letters(self.alloc, clock.now(), parts)?;
        if !all_fit(letters.as_slice()) {
            return Err(LineFault::Memory);
        }
        match self.folder.append_letters(store, letters.as_slice()) {
            Ok(shed) => Ok(shed),
            Err(fault) => Err(letter_fault(fault)),
        }
    }

    // Tells what was given up for letters, and then the letters.
    fn tell_letters<B: Book>(
        &self,
        batch: u64,
        letters: &[DeadPart],
        shed: &Shedding,
        book: &mut B,
    ) {
        if shed.older > 0 || !shed.newer.is_empty() {
            let given_up = Entry::Shed {
                batch,
                older: shed.older,
                newer: shed.newer.as_slice(),
            };
            book.tell(self.slot, given_up);
        }
        let told = Entry::Letters { batch, letters };
        book.tell(self.slot, told);
    }

    fn tell_delivered<B: Book>(&self, batch: u64, due: &DueDelivery, fates: &[Fate], book: &mut B) {
        let told = Entry::Deliver {
            batch,
            place: &due.target.get().place,
            events: due.events.as_slice(),
            fates,
        };
        book.tell(self.slot, told);
    }
}

// Whether what is delivered next has to wait.
fn is_refused(delivered: &Result<Delivered, LineFault>) -> bool {
    matches!(delivered, Ok(Delivered::Waiting) | Ok(Delivered::Later))
}

// Lets the first of what is due go, where it was told.
fn pass_on(due: &mut Items<DueDelivery>, delivered: &Result<Delivered, LineFault>)
    requires { 0 < length due.old }
    ensures { (due.new ≡ due.old) ⊎ (due.new ≡ remove due.old 0) }
{
    if matches!(delivered, Ok(Delivered::Told)) {
        let _ = due.remove(0);
    }
}

// The output of this id failed.
fn output_fault(id: &Text) -> LineFault
    ensures { FailsOn (record no_grounds { failed = Unit {0} }) result }
{
    match id.copy() {
        Ok(id) => LineFault::Output(id),
        Err(_) => LineFault::Memory,
    }
}

// What is said of letters that weren't appended. A record that can't be written takes more memory than there is.
fn letter_fault(fault: LetterFault) -> LineFault
    ensures { result ≡ unappended fault }
{
    match fault {
        LetterFault::Full(size, added, limit) => LineFault::DeadFull { size, added, limit },
        LetterFault::TooLong | LetterFault::Memory => LineFault::Memory,
        LetterFault::Fault => LineFault::Store,
    }
}

// Whether the records of all letters can be written.
fn all_fit(letters: &[DeadLetter]) -> bool
    ensures { IsTrue result → AllFit letters.now }
{
    for letter in letters {
        if !letter.fits_record() {
            return false;
        }
    }
    true
}
