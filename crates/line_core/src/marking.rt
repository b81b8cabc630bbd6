// What is settled: rows that are acknowledged, marks, positions of inputs, and pages that are removed.
ghost use Rattle.std.specs.Prelude.{◌≡◌, ◌<◌, length, IsErr, IfErr, IfOk, OnOk, OnErr};
ghost use Rattle.io_traits.specs.Counts.{HasCause};
ghost use Rattle.io_traits.specs.Moments.{EachMoment, LeavesBeside, ReadsBeside};
ghost use Rattle.line_inputs.specs.Openings.{slots_of};
ghost use Rattle.line_inputs.specs.Positions.{AreReady, IsOfThese};
ghost use Rattle.line_inputs.specs.Sources.{connections_of, files_of};
ghost use Rattle.queue_core.specs.Calls.{behind_acknowledge, behind_mark, behind_purge, first_spent, last_number};
ghost use Rattle.line_machine.specs.declared.calls.LineFault.TheVariants as fault;
ghost use Rattle.line_core.specs.Batches.{IsBatchOf, IsOut};
ghost use Rattle.line_core.specs.Parts.{batches_of, folder_of, inputs_of, queue_of};
ghost use Rattle.line_core.specs.Readiness.{CanDeliver, IsReady, IsSame, connections_by, watched_by};
ghost use Rattle.line_core.specs.declared.batches.LineBatch.{LineBatch as LineBatchValue};

use crate::batches::place_of;
use crate::line::{Line, LineInput};
use history_book::{Book, Entry};
use io_traits::{Failed, Store};
use line_machine::LineFault;
use line_outputs::OutputCall;

impl<F: Drop, O: OutputCall> Line<F, O> {
    /// Acknowledges the rows of a batch of which all is delivered, and tells it. It takes no memory.
    pub fn acknowledge<B: Book>(&mut self, batch: u64, book: &mut B)
        requires out { IsOut batch (batches_of self.old) }
        ensures can { CanDeliver O.number self.old → CanDeliver O.number self.new }
        ensures same { IsSame self.old self.new }
        ensures folder { (b : LineBatchValue) → IsBatchOf batch (batches_of self.old) b
            → folder_of self.new ≡ record (folder_of self.old) {
              queue = behind_acknowledge b.numbers (queue_of self.old);
            } }
        ensures inputs { inputs_of self.new ≡ inputs_of self.old }
    {
        let at = place_of(self.batches.as_slice(), batch);
        let finished = self.batches.remove(at);
        self.folder.acknowledge(finished.numbers);
        self.since.acknowledged = self.since.acknowledged.saturating_add(finished.rows);
        book.tell(self.slot, Entry::Ack { batch });
    }

    /// Settles all that was written, and records what is acknowledged. It takes no memory.
    pub fn mark<S: Store, B: Book>(&mut self, store: &mut S, book: &mut B) -> Result<u64, LineFault>
        requires ready { IsReady S.Store self.old store.old }
        ensures ready { OnOk result (IsReady S.Store self.new store.new) }
        ensures can { CanDeliver O.number self.old → CanDeliver O.number self.new }
        ensures same { IsSame self.old self.new }
        ensures number { IfOk result (λ front. front ≡ last_number (queue_of self.old)) }
        ensures marked { OnOk result (queue_of self.new ≡ behind_mark (queue_of self.old)) }
        ensures connections { connections_by (inputs_of self.new)
            ≡ connections_by (inputs_of self.old) }
        ensures err { OnErr result (self.new ≡ self.old) }
        ensures store { IfErr result (λ why. why ≡ fault.Store) }
        ensures cause { HasCause (S.faults store.old) (S.faults store.new) (IsErr result) }
    {
        let front = self.folder.mark(store)?;
        self.since.written = 0;
        self.since.acknowledged = 0;
        self.since.front = front;
        settle_all(&mut self.inputs);
        book.tell(self.slot, Entry::Mark { front });
        Ok(front)
    }

    /// Tells an input that its rows up to the last mark are settled, which it records. It takes no memory.
    pub fn assure<S: Store, B: Book>(
        &mut self,
        input: usize,
        store: &mut S,
        book: &mut B,
    ) -> Result<u64, LineFault>
        requires input { input < length (inputs_of self.old) }
        requires ready { IsReady S.Store self.old store.old }
        ensures ready { OnOk result (IsReady S.Store self.new store.new) }
        ensures can { CanDeliver O.number self.old → CanDeliver O.number self.new }
        ensures same { IsSame self.old self.new }
        ensures connections { connections_by (inputs_of self.new)
            ≡ connections_by (inputs_of self.old) }
        ensures folder { folder_of self.new ≡ folder_of self.old }
        ensures store { IfErr result (λ why. why ≡ fault.Store) }
        ensures cause { HasCause (S.faults store.old) (S.faults store.new) (IsErr result) }
    {
        let front = self.since.front;
        self.inputs[input].assure(store, front)?;
        book.tell(self.slot, Entry::Assure { input, front });
        Ok(front)
    }

    /// Removes the least page whose rows are all recorded as acknowledged. It takes no memory.
    pub fn purge<S: Store, B: Book>(
        &mut self,
        store: &mut S,
        book: &mut B,
    ) -> Result<Option<u32>, LineFault>
        requires ready { IsReady S.Store self.old store.old }
        ensures ready { OnOk result (IsReady S.Store self.new store.new) }
        ensures can { CanDeliver O.number self.old → CanDeliver O.number self.new }
        ensures same { IsSame self.old self.new }
        ensures number { IfOk result (λ page. page ≡ first_spent (queue_of self.old).tails) }
        ensures purged { OnOk result (queue_of self.new ≡ behind_purge (queue_of self.old)) }
        ensures inputs { inputs_of self.new ≡ inputs_of self.old }
        ensures err { OnErr result (self.new ≡ self.old) }
        ensures store { IfErr result (λ why. why ≡ fault.Store) }
        ensures cause { HasCause (S.faults store.old) (S.faults store.new) (IsErr result) }
    {
        let removed = self.folder.purge(store)?;
        if let Some(page) = removed {
            book.tell(self.slot, Entry::Purge { page });
        }
        Ok(removed)
    }
}

// The rows of inputs up to the mark are settled.
fn settle_all(inputs: &mut Vec<LineInput>)
    ensures files { watched_by inputs.new.items ≡ watched_by inputs.old.items }
    ensures connections { connections_by inputs.new.items ≡ connections_by inputs.old.items }
    ensures many { length inputs.new.items ≡ length inputs.old.items }
{
    for at in 0..inputs.len() {
        inputs[at].settle_rows();
    }
}

impl LineInput {
    // Records the places that its rows up to a front reach. None is settled and not recorded then.
    fn assure<S: Store>(&mut self, store: &mut S, front: u64) -> Result<(), Failed>
        requires { AreReady S.Store (files_of self.old.open.source) store.old }
        ensures ready { OnOk result
            (AreReady S.Store (files_of self.new.open.source) store.new) }
        ensures slots { OnOk result (slots_of (files_of self.new.open.source)
            ≡ slots_of (files_of self.old.open.source)) }
        ensures connections { connections_of self.new.open.source
            ≡ connections_of self.old.open.source }
        ensures any_moment { EachMoment S.Store store.old store.new
            (LeavesBeside S.Store (IsOfThese (files_of self.old.open.source)) store.old) }
        ensures beside { ReadsBeside S.Store (IsOfThese (files_of self.old.open.source))
            store.old store.new }
        ensures cause { HasCause (S.faults store.old) (S.faults store.new) (IsErr result) }
    {
        self.open.assure(store, front)?;
        self.settled = false;
        Ok(())
    }

    // Its rows up to the mark are settled.
    fn settle_rows(&mut self)
        ensures { self.new.open ≡ self.old.open }
    {
        self.settled = self.settled || self.behind;
        self.behind = false;
    }
}
