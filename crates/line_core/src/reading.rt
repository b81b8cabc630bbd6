// Batches that are read from the queue, given to workers, and come home.
ghost use Rattle.std.specs.Prelude.{◌≡◌, ◌≢◌, ◌↔◌, ◌<◌, ◌^◌, ◌-◌, suc, List, length, vec_len, vec_capacity, Ok, Err, IsErr, IfErr};
ghost use Rattle.io_traits.specs.Counts.{HasCause};
ghost use Rattle.graph_checks.specs.declared.drawn.Drawn.{Drawn as DrawnValue};
ghost use Rattle.line_jobs.specs.declared.job.Job.{Job as JobValue};
ghost use Rattle.line_machine.specs.declared.calls.ReadOut.TheVariants as readout;
ghost use Rattle.line_machine.specs.declared.calls.LineFault.TheVariants as fault;
ghost use Rattle.line_core.specs.Causes.{IsOfNoInput, IsOfNoOutput};
ghost use Rattle.line_core.specs.Jobs.{AreOthers, AreOut, IsResult};
ghost use Rattle.line_core.specs.Parts.{folder_of, home_of, inputs_of, kit_count, outgoing_of, path_of};
ghost use Rattle.line_core.specs.Readiness.{CanDeliver, IsReady};

use crate::batches::{BatchStage, LineBatch, place_of};
use crate::line::Line;
use batch_shop::Shop;
use built_plugins::Shared;
use foreign_parts::FilterCall;
use graph_checks::{Drawn, PlannedOutputs};
use history_book::{Book, Entry};
use io_traits::Store;
use line_jobs::{BatchResult, Job, JobDone};
use line_machine::{LineFault, ReadOut};
use line_outputs::OutputCall;
use plain_data::Items;
use plugin_graph::{Graph, Kit};
use queue_core::{Batch, Numbers};
use std::alloc::AllocError;

impl<F: FilterCall, O: OutputCall> Line<F, O> {
    /// Reads the next batch of the queue and gives it to a worker, and tells it.
    ///
    /// - `Given` has the number of the batch, whose job is out then.
    /// - `Nothing` comes where no row is unread, and `NoKit` only where every kit, or every worker, is out: then no job was given.
    /// - `Store` comes where the count of the store's faults rose, and `Damaged` where an element of the queue is damaged.
    ///
    /// Behind an error no batch was read, or it is kept for the next call; the line takes further calls.
    pub fn read_batch<S: Store, W: Shop<Job<Drawn<F>>>, B: Book>(
        &mut self,
        store: &mut S,
        shop: &mut W,
        book: &mut B,
    ) -> Result<ReadOut, LineFault>
        requires ready { IsReady S.Store self.old store.old }
        requires out { AreOut self.old (W.out shop.old) }
        ensures ready { IsReady S.Store self.new store.new }
        ensures out { AreOut self.new (W.out shop.new) }
        ensures can { CanDeliver O.number self.old → CanDeliver O.number self.new }
        ensures inputs { inputs_of self.new ≡ inputs_of self.old }

        // When each answer comes.
        ensures none { result ≡ Ok readout.NoKit → W.out shop.new ≡ W.out shop.old }
        ensures others { IfErr result (λ f. IsOfNoInput f × IsOfNoOutput f) }
        ensures cause { HasCause (S.faults store.old) (S.faults store.new)
            (result ≡ Err fault.Store) }
    {
        if self.unread() == 0 {
            return Ok(ReadOut::Nothing);
        }
        if self.generation.kits.is_empty() {
            self.read_refused = true;
            return Ok(ReadOut::NoKit);
        }
        if self.next_batch == u64::MAX {
            return Err(LineFault::Memory);
        }
        self.batches.reserve(1)?;
        let graph = self.generation.graph.share()?;
        let outgoing = self.generation.outgoing.share()?;
        let Some(batch) = self.next_rows(store)? else {
            return Ok(ReadOut::Nothing);
        };
        Ok(self.give(batch, graph, outgoing, shop, book))
    }

    /// How many rows no worker got.
    pub(crate) fn unread(&self) -> u64 {
        let kept = match &self.kept {
            Some(batch) => batch.rows.len() as u64,
            None => 0,
        };
        self.folder.unread().saturating_add(kept)
    }

    // The batch that is kept, or the next one of the queue.
    fn next_rows<S: Store>(&mut self, store: &mut S) -> Result<Option<Batch>, LineFault>
        requires ready { IsReady S.Store self.old store.old }
        ensures ready { IsReady S.Store self.new store.new }
        ensures rest { self.new ≡ record self.old {
          folder = self.new.folder;
          kept = self.new.kept;
        } }
        ensures path { path_of self.new ≡ path_of self.old }
        ensures others { IfErr result (λ f. IsOfNoInput f × IsOfNoOutput f) }
        ensures cause { HasCause (S.faults store.old) (S.faults store.new)
            (result ≡ Err fault.Store) }
    {
        if let Some(batch) = self.kept.take() {
            return Ok(Some(batch));
        }
        let batch = self
            .folder
            .take_batch(self.alloc, store, self.limits.batch)?;
        Ok(batch)
    }

    // Gives a batch to a worker, for which there is room.
    fn give<W: Shop<Job<Drawn<F>>>, B: Book>(
        &mut self,
        batch: Batch,
        graph: Shared<Graph>,
        outgoing: Shared<PlannedOutputs>,
        shop: &mut W,
        book: &mut B,
    ) -> ReadOut
        requires out { AreOut self.old (W.out shop.old) }
        requires outgoing { outgoing ≡ outgoing_of self.old }
        requires room { vec_len self.old.batches < vec_capacity self.old.batches }
        requires number { self.old.next_batch < 2 ^ 64 - 1 }
        ensures out { AreOut self.new (W.out shop.new) }
        ensures can { CanDeliver O.number self.old → CanDeliver O.number self.new }
        ensures folder { folder_of self.new ≡ folder_of self.old }
        ensures inputs { inputs_of self.new ≡ inputs_of self.old }
        ensures none { result ≡ readout.NoKit → W.out shop.new ≡ W.out shop.old }
    {
        let Some(kit) = self.generation.kits.take() else {
            self.kept = Some(batch);
            return ReadOut::NoKit;
        };
        let Batch {
            numbers,
            rows,
            events,
        } = batch;
        let job = Job {
            line: self.slot as usize,
            batch: self.next_batch,
            generation: self.generation.number,
            events,
            kit,
            graph,
            outgoing,
        };
        match shop.give(job) {
            None => self.note_read(numbers, rows, book),
            Some(back) => self.keep(back, numbers, rows),
        }
    }

    // A worker has the batch of these rows.
    fn note_read<B: Book>(&mut self, numbers: Numbers, rows: Items<u64>, book: &mut B) -> ReadOut
        requires room { vec_len self.old.batches < vec_capacity self.old.batches }
        requires number { self.old.next_batch < 2 ^ 64 - 1 }
        ensures rest { self.new ≡ record self.old {
          batches = self.new.batches;
          next_batch = self.new.next_batch;
        } }
        ensures can { CanDeliver O.number self.old → CanDeliver O.number self.new }
        ensures given { result ≢ readout.NoKit }
    {
        let batch = self.next_batch;
        self.batches.push_reserved(LineBatch {
            number: batch,
            generation: self.generation.number,
            numbers,
            rows: rows.len() as u64,
            stage: BatchStage::Away,
            refused: false,
        });
        self.next_batch = batch + 1;
        let read = Entry::Read {
            batch,
            generation: self.generation.number,
            numbers: rows.as_slice(),
        };
        book.tell(self.slot, read);
        ReadOut::Given(batch)
    }

    // No worker took the batch: its kit is at home, and the batch is kept.
    fn keep(&mut self, back: Job<Drawn<F>>, numbers: Numbers, rows: Items<u64>) -> ReadOut
        requires { length (home_of self.old) < kit_count self.old }
        ensures home { length (home_of self.new) ≡ suc (length (home_of self.old)) }
        ensures kits { kit_count self.new ≡ kit_count self.old }
        ensures outgoing { outgoing_of self.new ≡ outgoing_of self.old }
        ensures rest { self.new ≡ record self.old {
          generation = self.new.generation;
          kept = self.new.kept;
          read_refused = self.new.read_refused;
        } }
    {
        let Job { events, kit, .. } = back;
        self.generation.kits.put_back(kit);
        self.kept = Some(Batch {
            numbers,
            rows,
            events,
        });
        self.read_refused = true;
        ReadOut::NoKit
    }

    /// Takes the result of a job of this line that was out: its kit is at home, and so is what is due of its batch, which is
    /// told. Where the worker found no memory the result is lost, and the batch stays out.
    ///
    /// The only error is `Memory`, which comes exactly where the worker found none.
    pub fn collect<B: Book>(
        &mut self,
        done: JobDone<Drawn<F>>,
        book: &mut B,
    ) -> Result<(), LineFault>
        requires result { IsResult self.old done }
        requires can { CanDeliver O.number self.old }
        ensures can { CanDeliver O.number self.new }
        ensures out { (others : List (JobValue (DrawnValue F))) → AreOthers self.old others
            → AreOut self.new others }
        ensures folder { folder_of self.new ≡ folder_of self.old }
        ensures inputs { inputs_of self.new ≡ inputs_of self.old }
        ensures fault { IfErr result (λ f. f ≡ fault.Memory) }
        ensures lost { IsErr result ↔ IsErr done.result }
    {
        let JobDone {
            batch,
            kit,
            result,
            ..
        } = done;
        self.generation.kits.put_back(kit);
        let at = place_of(self.batches.as_slice(), batch);
        if at >= self.batches.len() {
            return or_memory(result);
        }
        let of = &mut self.batches[at];
        match result {
            Ok(made) => {
                let BatchResult {
                    dead,
                    verdicts,
                    due,
                } = made;
                of.come_home(dead, due);
                let back = Entry::Back {
                    batch,
                    verdicts: verdicts.as_slice(),
                };
                book.tell(self.slot, back);
                Ok(())
            }
            Err(_) => {
                of.lose();
                Err(LineFault::Memory)
            }
        }
    }
}

// The result of a batch that isn't out.
fn or_memory(made: Result<BatchResult, AllocError>) -> Result<(), LineFault>
    ensures fault { IfErr result (λ f. f ≡ fault.Memory) }
    ensures lost { IsErr result ↔ IsErr made }
{
    let _ = made?;
    Ok(())
}
