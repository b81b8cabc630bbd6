// Events that come by inputs and are written to the queue.
ghost use Rattle.std.specs.Prelude.{◌≡◌, ◌≤◌, ◌<◌, ◌⊎◌, ℕ, [], true, false, length, slice_index_or, None, Some, Ok, Err, IfOk, IfErr, IfSome, OnOk};
ghost use Rattle.io_traits.specs.Counts.{HasCause};
ghost use Rattle.queue_core.specs.Calls.{end_of};
ghost use Rattle.line_inputs.specs.Inputs.{coming};
ghost use Rattle.line_inputs.specs.Positions.{stored};
ghost use Rattle.line_inputs.specs.Sources.{AreCame, LastHasRoom, around, connections_of, files_of};
ghost use Rattle.line_machine.specs.declared.calls.Accepted.TheVariants as accepted;
ghost use Rattle.line_machine.specs.declared.calls.LineFault.TheVariants as fault;
ghost use Rattle.queue_files.specs.Folders.{IsOwn, names_in};
ghost use Rattle.line_outputs.specs.Readiness.{LeavesOthers};
ghost use Rattle.line_folder.specs.Readiness.{IsFolderReady};
ghost use Rattle.line_core.specs.Causes.{CountsStand, FailedToRead, GoesOnBehind, HasNoNumber, HasNoRoom, Holds, IsOfNoOutput, IsHeld, refusal_of};
ghost use Rattle.line_core.specs.Parts.{queue_of, inputs_of};
ghost use Rattle.line_core.specs.Readiness.{CanDeliver, HaveCome, IsReady, IsSame};
ghost use Rattle.line_core.specs.declared.line.LineInput.{LineInput as LineInputValue};

use crate::line::{Line, LineInput, SinceMark};
use event_tree::Event;
use history_book::{Book, Entry};
use in_lines::PollFault;
use io_traits::{Clock, Files, Links, Source, Store};
use line_folder::LineFolder;
use line_machine::{Accepted, LineFault};
use line_outputs::OutputCall;
use queue_core::{Unwritten, WriteFault};
use std::alloc::{AllocError, Global};

impl<F: Drop, O: OutputCall> Line<F, O> {
    /// Writes the next event of an input to the queue; where none is held the input is polled.
    ///
    /// - `Row` has the number of the row that it became, which is told.
    /// - `Full` comes only where the queue has no room for the event, which stays held.
    /// - `NotYet` and `Ended` come only where nothing is held behind a poll, by whether a poll met the end.
    /// - `Input` comes only where the count of faults rose of what the input reads, and `NumbersSpent` only where the queue
    ///   has no number for the event, which stays held.
    /// - `Store` comes where the count of the store's faults rose.
    pub fn accept<S: Store, I: Source, P: Files, L: Links, K: Clock, B: Book>(
        &mut self,
        input: usize,
        store: &mut S,
        stdin: &mut I,
        files: &mut P,
        links: &mut L,
        clock: &mut K,
        book: &mut B,
    ) -> Result<Accepted, LineFault>
        requires ready { IsReady S.Store self.old store.old }
        requires came { HaveCome L.Links (inputs_of self.old) links.old }
        requires input { input < length (inputs_of self.old) }
        ensures ready { GoesOnBehind result → IsReady S.Store self.new store.new }
        ensures came { HaveCome L.Links (inputs_of self.new) links.new }
        ensures can { CanDeliver O.number self.old → CanDeliver O.number self.new }
        ensures same { IsSame self.old self.new }

        // When each answer comes.
        ensures row { (n : ℕ) → result ≡ Ok (accepted.Row n)
            → n ≡ end_of (queue_of self.old).top }
        ensures full { result ≡ Ok accepted.Full
            → Holds HasNoRoom input (inputs_of self.new) (queue_of self.old) }
        ensures spent { result ≡ Err fault.NumbersSpent
            → Holds HasNoNumber input (inputs_of self.new) (queue_of self.old) }
        ensures failed { (n : ℕ) → result ≡ Err (fault.Input n) → (n ≡ input)
            × ((from : LineInputValue) → from ≡ slice_index_or (inputs_of self.old) input from
            → FailedToRead I.Source P.Files L.Links from.open.source
            (around I.Source P.Files L.Links stdin.old stdin.new files.old files.new
            links.old links.new)) }
        ensures counts { CountsStand I.Source P.Files L.Links
            (around I.Source P.Files L.Links stdin.old stdin.new files.old files.new
            links.old links.new) }
        ensures others { IfErr result IsOfNoOutput }
        ensures cause { HasCause (S.faults store.old) (S.faults store.new)
            (result ≡ Err fault.Store) }
    {
        let from = &mut self.inputs[input];
        from.hold_next(input, stdin, files, links, clock)?;
        let folder = &mut self.folder;
        let accepted = write_held(self.alloc, folder, from, store, self.slot, input, book);
        self.since.note_accepted(&accepted);
        accepted
    }
}

impl SinceMark {
    // Counts a row that was written.
    fn note_accepted(&mut self, accepted: &Result<Accepted, LineFault>) {
        if let Ok(Accepted::Row(_)) = accepted {
            self.written = self.written.saturating_add(1);
        }
    }
}

// Writes the event that an input holds to the queue, and holds it again where that is refused.
fn write_held<S: Store, B: Book>(
    alloc: Global,
    folder: &mut LineFolder,
    from: &mut LineInput,
    store: &mut S,
    slot: u32,
    input: usize,
    book: &mut B,
) -> Result<Accepted, LineFault>
    requires ready { IsFolderReady S.Store folder.old store.old }
    ensures ready { GoesOnBehind result → IsFolderReady S.Store folder.new store.new }
    ensures path { folder.new.queue.folder ≡ folder.old.queue.folder }
    ensures leaves { LeavesOthers S.Store (IsOwn (names_in folder.old.queue.folder)) store.old
        store.new }
    ensures stored { stored (files_of from.new.open.source)
        ≡ stored (files_of from.old.open.source) }
    ensures connections { connections_of from.new.open.source
        ≡ connections_of from.old.open.source }
    ensures row { (n : ℕ) → result ≡ Ok (accepted.Row n) → n ≡ end_of folder.old.queue.top }
    ensures full { result ≡ Ok accepted.Full → IsHeld HasNoRoom from.new folder.old.queue }
    ensures spent { result ≡ Err fault.NumbersSpent
        → IsHeld HasNoNumber from.new folder.old.queue }
    ensures input { (n : ℕ) → result ≡ Err (fault.Input n) → ⊥ }
    ensures others { IfErr result IsOfNoOutput }
    ensures cause { HasCause (S.faults store.old) (S.faults store.new)
        (result ≡ Err fault.Store) }
{
    match from.held.take() {
        Some(event) => write_event(alloc, folder, from, event, store, slot, input, book),
        None => Ok(from.nothing_came()),
    }
}

// The same, of the event that the input held.
fn write_event<S: Store, B: Book>(
    alloc: Global,
    folder: &mut LineFolder,
    from: &mut LineInput,
    event: Event,
    store: &mut S,
    slot: u32,
    input: usize,
    book: &mut B,
) -> Result<Accepted, LineFault>
    requires ready { IsFolderReady S.Store folder.old store.old }
    requires room { LastHasRoom from.old.open.source }
    requires none { from.old.held ≡ None }
    ensures ready { GoesOnBehind result → IsFolderReady S.Store folder.new store.new }
    ensures path { folder.new.queue.folder ≡ folder.old.queue.folder }
    ensures leaves { LeavesOthers S.Store (IsOwn (names_in folder.old.queue.folder)) store.old
        store.new }
    ensures stored { stored (files_of from.new.open.source)
        ≡ stored (files_of from.old.open.source) }
    ensures connections { connections_of from.new.open.source
        ≡ connections_of from.old.open.source }
    ensures row { (n : ℕ) → result ≡ Ok (accepted.Row n) → n ≡ end_of folder.old.queue.top }
    ensures full { result ≡ Ok accepted.Full → IsHeld HasNoRoom from.new folder.old.queue }
    ensures spent { result ≡ Err fault.NumbersSpent
        → IsHeld HasNoNumber from.new folder.old.queue }
    ensures input { (n : ℕ) → result ≡ Err (fault.Input n) → ⊥ }
    ensures others { IfErr result IsOfNoOutput }
    ensures cause { HasCause (S.faults store.old) (S.faults store.new)
        (result ≡ Err fault.Store) }
{
    let told = match copy_to_tell(&event, book) {
        Ok(told) => told,
        Err(_) => {
            from.held = Some(event);
            return Err(LineFault::Memory);
        }
    };
    match folder.write_and_keep(alloc, store, from.id.as_str(), event) {
        Ok(number) => {
            from.note_row(number);
            tell_accepted(book, slot, input, number, told);
            Ok(Accepted::Row(number))
        }
        Err(unwritten) => from.refuse(unwritten),
    }
}

impl LineInput {
    // Takes the next event of the input, where none is held, and polls it, where none is to come.
    fn hold_next<I: Source, P: Files, L: Links, K: Clock>(
        &mut self,
        input: usize,
        stdin: &mut I,
        files: &mut P,
        links: &mut L,
        clock: &mut K,
    ) -> Result<(), LineFault>
        requires { AreCame I.Source P.Files L.Links self.old.open.source links.old }
        ensures came { AreCame I.Source P.Files L.Links self.new.open.source links.new }
        ensures more { L.came links.old ≤ L.came links.new }
        ensures counts { CountsStand I.Source P.Files L.Links
            (around I.Source P.Files L.Links stdin.old stdin.new files.old files.new
            links.old links.new) }
        ensures stored { stored (files_of self.new.open.source)
            ≡ stored (files_of self.old.open.source) }
        ensures id { self.new.id ≡ self.old.id }
        ensures none { OnOk result (self.new.held ≡ None → coming self.new.open ≡ []) }
        ensures failed { (n : ℕ) → result ≡ Err (fault.Input n) → (n ≡ input)
            × FailedToRead I.Source P.Files L.Links self.old.open.source
            (around I.Source P.Files L.Links stdin.old stdin.new files.old files.new
            links.old links.new) }
        ensures faults { IfErr result (λ f. (f ≡ fault.Input input → ⊥) → f ≡ fault.Memory) }
        ensures others { IfErr result IsOfNoOutput }
    {
        if self.held.is_some() {
            return Ok(());
        }
        self.poll(input, stdin, files, links, clock)?;
        self.held = self.open.next()?;
        Ok(())
    }

    // Polls it, unless an event is to come.
    fn poll<I: Source, P: Files, L: Links, K: Clock>(
        &mut self,
        input: usize,
        stdin: &mut I,
        files: &mut P,
        links: &mut L,
        clock: &mut K,
    ) -> Result<(), LineFault>
        requires came { AreCame I.Source P.Files L.Links self.old.open.source links.old }
        requires none { self.old.held ≡ None }
        ensures came { AreCame I.Source P.Files L.Links self.new.open.source links.new }
        ensures more { L.came links.old ≤ L.came links.new }
        ensures counts { CountsStand I.Source P.Files L.Links
            (around I.Source P.Files L.Links stdin.old stdin.new files.old files.new
            links.old links.new) }
        ensures stored { stored (files_of self.new.open.source)
            ≡ stored (files_of self.old.open.source) }
        ensures id { self.new.id ≡ self.old.id }
        ensures none { self.new.held ≡ None }
        ensures failed { (n : ℕ) → result ≡ Err (fault.Input n) → (n ≡ input)
            × FailedToRead I.Source P.Files L.Links self.old.open.source
            (around I.Source P.Files L.Links stdin.old stdin.new files.old files.new
            links.old links.new) }
        ensures faults { IfErr result (λ f. (f ≡ fault.Input input → ⊥) → f ≡ fault.Memory) }
        ensures others { IfErr result IsOfNoOutput }
    {
        if self.open.holds() {
            return Ok(());
        }
        match self.open.poll(stdin, files, links, clock.now()) {
            Ok(_) => Ok(()),
            Err(PollFault::Fault) => Err(LineFault::Input(input)),
            Err(PollFault::Memory) => Err(LineFault::Memory),
        }
    }

    // Nothing is held behind a poll.
    fn nothing_came(&mut self) -> Accepted
        ensures rest { self.new ≡ record self.old { refused = self.new.refused } }
        ensures ended { result ≡ accepted.Ended → self.old.open.ended ≡ true }
        ensures waits { result ≡ accepted.NotYet → self.old.open.ended ≡ false }
        ensures either { (result ≡ accepted.Ended) ⊎ (result ≡ accepted.NotYet) }
    {
        if self.open.is_ended() {
            return Accepted::Ended;
        }
        self.refused = true;
        Accepted::NotYet
    }

    // Its event is the row of this number.
    fn note_row(&mut self, number: u64)
        requires room { LastHasRoom self.old.open.source }
        requires none { self.old.held ≡ None }
        ensures stored { stored (files_of self.new.open.source)
            ≡ stored (files_of self.old.open.source) }
        ensures connections { connections_of self.new.open.source
            ≡ connections_of self.old.open.source }
        ensures id { self.new.id ≡ self.old.id }
    {
        self.open.note_row(number);
        self.behind = true;
    }

    // Its event wasn't written, and is held again.
    fn refuse(&mut self, unwritten: Unwritten) -> Result<Accepted, LineFault>
        requires { LastHasRoom self.old.open.source }
        ensures held { self.new.held ≡ Some unwritten.event }
        ensures open { self.new.open ≡ self.old.open }
        ensures id { self.new.id ≡ self.old.id }
        ensures answer { result ≡ refusal_of unwritten.cause }
    {
        let Unwritten { cause, event } = unwritten;
        self.held = Some(event);
        match cause {
            WriteFault::Full => {
                self.refused = true;
                Ok(Accepted::Full)
            }
            WriteFault::NumbersSpent => Err(LineFault::NumbersSpent),
            WriteFault::Memory => Err(LineFault::Memory),
            WriteFault::Fault => Err(LineFault::Store),
        }
    }
}

// The event again, where the book keeps it.
fn copy_to_tell<B: Book>(event: &Event, book: &B) -> Result<Option<Event>, AllocError>
    ensures { IfOk result (λ told. IfSome told (λ copy. copy ≡ event.now)) }
{
    if !book.keeps() {
        return Ok(None);
    }
    Ok(Some(event.copy()?))
}

// Tells that the event is the row of this number.
fn tell_accepted<B: Book>(book: &mut B, slot: u32, input: usize, number: u64, told: Option<Event>) {
    if let Some(event) = told {
        let entry = Entry::Accept {
            input,
            parcel: None,
            number,
            event: &event,
        };
        book.tell(slot, entry);
    }
}
