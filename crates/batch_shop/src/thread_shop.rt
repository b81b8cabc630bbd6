// A shop that hands jobs to workers in threads.
ghost use Rattle.std.specs.Prelude.{◌≡◌, ◌≤◌, ◌<◌, ◌+◌, ◌⊎◌, [], length, IsTrue, IsFalse, vec_len, vec_capacity, IfOk, IfSome, IfNone, OnOk, OnErr};
ghost use Rattle.batch_shop.specs.Desks.{job_out};
ghost use Rattle.batch_shop.specs.Adding.{AddsResult};
ghost use Rattle.batch_shop.specs.Jobs.{ComesHome};

use crate::task::{Shop, Task};
use crate::worker::Worker;
use crate::worker_slot::WorkerSlot;
use plain_data::Items;
use std::alloc::{AllocError, Global};
use std::sync::Wait;

/// How often a wait for a result looks for one before it sleeps.
const LOOKS: u32 = 64;

/// How long a wait sleeps on the word of one worker at most, in microseconds, since another may be done before.
const REST: u64 = 100;

/// Results that came home.
pub type Dones<T> = Items<<T as Task>::Done>;

/// Hands each job to a worker in a thread.
#[derive(Drop)]
pub struct ThreadShop<T: Task> {
    /// One for each worker that was hired.
    desks: Vec<WorkerSlot<T>>,
    /// Room for the results that `close` gives.
    dones: Vec<T::Done>,
    ghost empty: { dones.items ≡ [] },
    ghost room: { length desks.items ≤ vec_capacity dones },
}

impl<T: Task> ThreadShop<T> {
    ghost use Rattle.batch_shop.specs.Started.{jobs_of, started_of, last_is_idle, AreResults, IsFree};

    /// A shop with room for so many workers, which has none yet.
    pub fn new(alloc: Global, workers: u32) -> Result<ThreadShop<T>, AllocError>
        ensures out { IfOk result (λ shop. jobs_of shop ≡ []) }
        ensures started { IfOk result (λ shop. started_of shop ≡ 0) }
    {
        Ok(ThreadShop {
            desks: Vec::new(alloc),
            dones: Vec::with_capacity(alloc, workers as usize)?,
        })
    }

    /// One worker more, who has no job. Its caller has it serve in a thread of its own:
    /// `thread::spawn(&rt, move || worker.serve(&rt))`; where no thread can be started, [`ThreadShop::dismiss`] is
    /// called before anything else. Where memory runs out, or the shop has no room for another, there is none, and the
    /// shop is as it was.
    pub fn hire(&mut self) -> Result<Worker<T>, AllocError>
        ensures out { jobs_of self.new ≡ jobs_of self.old }
        ensures started { OnOk result (started_of self.new ≡ started_of self.old + 1) }
        ensures same { OnErr result (started_of self.new ≡ started_of self.old) }
    {
        if self.desks.len() >= self.dones.capacity() {
            return Err(AllocError);
        }
        let (desk, worker) = WorkerSlot::open(*self.dones.allocator())?;
        match self.desks.push(desk) {
            Ok(()) => Ok(worker),
            Err(_) => Err(AllocError),
        }
    }

    /// Takes back the last worker that was hired, if it has no job; false exactly where it has one, or where there is
    /// none. So it is true wherever a worker was hired and no job is out.
    pub fn dismiss(&mut self) -> bool
        ensures answer { result ≡ last_is_idle self.old }
        ensures refused { IsFalse result → (started_of self.old ≡ 0) ⊎
            (0 < length (jobs_of self.old)) }
        ensures out { jobs_of self.new ≡ jobs_of self.old }
        ensures dismissed { IsTrue result → started_of self.new + 1 ≡ started_of self.old }
        ensures kept { IsFalse result → started_of self.new ≡ started_of self.old }
    {
        match self.desks.pop() {
            None => false,
            Some(desk) => {
                if desk.has_job() {
                    self.desks.push_reserved(desk);
                    return false;
                }
                desk.close();
                true
            }
        }
    }

    /// The result of a job that is out, which is then home. Where none is done yet it waits until one is, and sleeps
    /// meanwhile. None exactly where no job is out.
    pub fn take_next<R: Wait>(&mut self, rt: &R) -> Option<T::Done>
        ensures home { IfSome result (ComesHome T.gives (jobs_of self.old) (jobs_of self.new)) }
        ensures none { IfNone result ((jobs_of self.old ≡ []) × (jobs_of self.new ≡ [])) }
        ensures same { started_of self.new ≡ started_of self.old }
    {
        if let Some(done) = self.look() {
            return Some(done);
        }
        for _ in rt.forever() {
            match self.busy_desk() {
                Some(at) => self.desks[at].rest(rt, REST),
                None => return None,
            }
            if let Some(done) = self.take() {
                return Some(done);
            }
        }
        None
    }

    /// Waits for each job that is out, ends the workers, and gives the results, one for each job.
    pub fn close<R: Wait>(self, rt: &R) -> Dones<T>
        ensures { AreResults T.gives (jobs_of self) result }
    {
        let ThreadShop {
            mut desks,
            mut dones,
        } = self;
        while let Some(desk) = desks.pop() {
            settle(rt, desk, &mut dones);
        }
        Items::from_vec(dones)
    }

    /// Looks some times for the result of a job that is out.
    fn look(&mut self) -> Option<T::Done>
        ensures home { IfSome result (ComesHome T.gives (jobs_of self.old) (jobs_of self.new)) }
        ensures none { IfNone result (jobs_of self.new ≡ jobs_of self.old) }
        ensures same { started_of self.new ≡ started_of self.old }
    {
        for _ in 0..LOOKS {
            if let Some(done) = self.take() {
                return Some(done);
            }
        }
        None
    }

    /// The first worker's slot that has a job out; none where none has.
    fn busy_desk(&self) -> Option<usize>
        ensures some { IfSome result (λ at. at < length self.now.desks.items) }
        ensures none { IfNone result (jobs_of self.now ≡ []) }
    {
        for at in 0..self.desks.len() {
            if self.desks[at].has_job() {
                return Some(at);
            }
        }
        None
    }

    /// The first worker's slot from this one on that has no job out; none where each has.
    fn free_desk(&self) -> Option<usize>
        ensures some { IfSome result (IsFree self.now.desks.items) }
        ensures none { IfNone result (length self.now.desks.items ≤ length (jobs_of self.now)) }
    {
        for at in 0..self.desks.len() {
            if !self.desks[at].has_job() {
                return Some(at);
            }
        }
        None
    }
}

/// Waits for the job of a worker, if one is out, adds its result, and ends the worker.
fn settle<T: Task, R: Wait>(rt: &R, mut desk: WorkerSlot<T>, dones: &mut Vec<T::Done>)
    requires { vec_len dones.old < vec_capacity dones.old }
    ensures capacity { vec_capacity dones.new ≡ vec_capacity dones.old }
    ensures adds { AddsResult T.gives (job_out desk) dones.old.items dones.new.items }
{
    if let Some(done) = desk.wait(rt) {
        dones.push_reserved(done);
    }
    desk.close();
}

impl<T: Task> Shop<T> for ThreadShop<T> {
    ghost use Rattle.batch_shop.specs.Started.{jobs_of, started_of, looks_of};

    ghost out = { jobs_of };

    ghost started = { started_of };

    ghost looks = { looks_of };

    fn give(&mut self, job: T) -> Option<T> {
        match self.free_desk() {
            Some(at) => {
                self.desks[at].give(job);
                None
            }
            None => Some(job),
        }
    }

    fn take(&mut self) -> Option<T::Done> {
        for at in 0..self.desks.len() {
            match self.desks[at].take() {
                Some(done) => return Some(done),
                None => {}
            }
        }
        None
    }
}
