// A row that is written and kept for the batch that gives it.
ghost use Rattle.std.specs.Prelude.{◌≡◌, ◌≤◌, ◌==◌, if◌then◌else◌, ◌↔◌, ◌⊎◌, true, false, length, IfOk, IfErr, OnOk, OnErr, Err};
ghost use Rattle.io_traits.specs.Counts.{HasCause};
ghost use Rattle.io_traits.specs.Folders.{Content};
ghost use Rattle.io_traits.specs.Moments.{EachMoment, LeavesBeside, ReadsBeside};
ghost use Rattle.io_traits.specs.Reads.{bytes_of};
ghost use Rattle.queue_files.specs.Folders.{page, IsOwn, names_in};
ghost use Rattle.queue_core.specs.Calls.{end_of};
ghost use Rattle.queue_core.specs.Kept.{StandsIn};
ghost use Rattle.queue_core.specs.Keeping.{cause_of, kept_row, with_kept, KeepsOne};
ghost use Rattle.queue_core.specs.Opens.{Becomes, IsOfFiles, IsReady};
ghost use Rattle.queue_core.specs.Writing.{behind_write, frame_size, is_full, numbers_spent, with_written, KeepsEither};
ghost use Rattle.queue_core.specs.declared.writing.WriteFault.TheVariants as w;

use crate::kept::KeptRow;
use crate::pages::OpenPage;
use crate::queue::Queue;
use crate::writing::WriteFault;
use element_code::Origin;
use event_tree::Event;
use io_traits::Store;
use plain_data::Text;
use queue_page::PageRow;
use std::alloc::Global;

/// The place of the first row in the file of a page.
const FIRST_PLACE: u64 = 1;

/// A row that wasn't written.
#[derive(Drop)]
pub struct Unwritten {
    /// Why.
    pub cause: WriteFault,
    /// The event of the row.
    pub event: Event,
}

/// Where the last row begins in the head page: behind so many bytes, where that has still this number, and first in another.
fn place_of(top: &OpenPage, page: u32, length: u64) -> u64
    ensures { result ≡ (if top.now.number == page then length else 1) }
{
    if top.number() == page {
        length
    } else {
        FIRST_PLACE
    }
}

impl Queue {
    /// Appends a row as `write` does, and keeps its event for the batch that gives the row, so that it needn't be read:
    /// as long as the head page is the same and there is memory, and while the elements of all rows that are kept have at
    /// most 1 MiB. An event whose row wasn't written comes back.
    pub fn write_and_keep<S: Store>(
        &mut self,
        alloc: Global,
        store: &mut S,
        origin: &str,
        event: Event,
    ) -> Result<u64, Unwritten>
        requires some { 1 ≤ length origin.now }
        requires short { length origin.now ≤ 255 }
        requires ready { IsReady S.Store self.old store.old }
        ensures number { IfOk result (λ number. number ≡ end_of self.old.top) }
        ensures written { OnOk result (self.new ≡ with_kept self.new.cursor.kept
            (behind_write (frame_size origin.now event) self.old)) }
        ensures kept { OnOk result (KeepsOne self.old.cursor.kept self.new.cursor.kept) }
        ensures err { OnErr result (self.new ≡ self.old) }
        ensures event { IfErr result (λ unwritten. unwritten.event ≡ event) }
        ensures ready { OnOk result (IsReady S.Store self.new store.new) }

        // Of the queue of a folder: a stop at any moment leaves it, or it with the row, which may be missing.
        ensures keeps { KeepsEither S.Store (with_written self.old origin.now event) self.old
            store.old store.new }
        ensures adds { OnOk result (Becomes S.Store (with_written self.old origin.now event)
            self.old self.new store.old store.new) }

        // Other files read as before, and a stop leaves them as it might have left them.
        ensures beside { ReadsBeside S.Store (IsOwn (names_in self.old.folder)) store.old
            store.new }
        ensures beside_moments { EachMoment S.Store store.old store.new
            (LeavesBeside S.Store (IsOwn (names_in self.old.folder)) store.old) }

        // Each fault exactly where it has its cause.
        ensures spent { (cause_of result ≡ Err w.NumbersSpent)
            ↔ (numbers_spent (frame_size origin.now event) self.old ≡ true) }
        ensures full { (cause_of result ≡ Err w.Full)
            ↔ ((numbers_spent (frame_size origin.now event) self.old ≡ false)
            × (is_full (frame_size origin.now event) self.old ≡ true)) }
        ensures refused { IfErr result (λ unwritten.
            (unwritten.cause ≡ w.Fault) ⊎ (store.new ≡ store.old)) }
        ensures cause { HasCause (S.faults store.old) (S.faults store.new)
            (cause_of result ≡ Err w.Fault) }
    {
        let page = self.top.number();
        let length = self.top.length();
        match self.write(alloc, store, origin, &event) {
            Ok(number) => {
                let place = place_of(&self.top, page, length);
                self.keep(alloc, number, place, origin, event);
                Ok(number)
            }
            Err(cause) => Err(Unwritten { cause, event }),
        }
    }

    /// Keeps the last row, whose element begins at this place of the head page.
    fn keep(&mut self, alloc: Global, number: u64, place: u64, origin: &str, event: Event)
        ensures same { self.new ≡ with_kept self.new.cursor.kept self.old }
        ensures kept { KeepsOne self.old.cursor.kept self.new.cursor.kept }
        ensures stands { (content : Content) → IsOfFiles self.old content
            → StandsIn self.old.top.page.version
            (bytes_of (content (names_in self.old.folder (page self.old.top.number))))
            (kept_row self.old number place origin.now event) → IsOfFiles self.new content }
    {
        let Ok(origin) = Text::of(alloc, origin) else {
            return;
        };
        let row = PageRow {
            number,
            origin: Origin::Id(origin),
            event,
            next: self.top.length(),
        };
        let page = self.top.number();
        self.cursor.hold(KeptRow { page, place, row });
    }
}
