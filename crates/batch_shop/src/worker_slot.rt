// A shop's slot for one worker, with the job that is out.
ghost use Rattle.std.specs.Prelude.{◌≡◌, [], ◌∷◌, false, length, IfOk, IsTrue, IsFalse, if◌then◌else◌};
ghost use Rattle.batch_shop.specs.Rule.{stance};
ghost use Rattle.batch_shop.specs.Sides.{me_of};

use crate::endpoint::Endpoint;
use crate::task::Task;
use crate::worker::Worker;
use std::alloc::{AllocError, Global};
use std::sync::Wait;

/// The shop's place for one worker.
#[derive(Drop)]
pub(crate) struct WorkerSlot<T: Task> {
    side: Endpoint<T>,
    /// Whether a job is out.
    out: bool,
    ghost stands: { stance (me_of side) ≡ (if out then 2 else 1) },
}

impl<T: Task> WorkerSlot<T> {
    ghost use Rattle.batch_shop.specs.Desks.{is_out, job_out, looks, TakesFrom, Finishes};

    /// A slot, and the worker on its other side.
    pub(crate) fn open(alloc: Global) -> Result<(WorkerSlot<T>, Worker<T>), AllocError>
        ensures out { IfOk result (λ sides. job_out sides.0 ≡ []) }
        ensures looks { IfOk result (λ sides. looks sides.0 ≡ 0) }
    {
        let (shop, worker) = Endpoint::open(alloc)?;
        let desk = WorkerSlot {
            side: shop,
            out: false,
        };
        Ok((desk, Worker::new(worker)))
    }

    /// Whether a job is out.
    pub(crate) fn has_job(&self) -> bool
        ensures out { result ≡ is_out self.now }
        ensures none { IsFalse result → job_out self.now ≡ [] }
        ensures one { IsTrue result → length (job_out self.now) ≡ 1 }
    {
        self.out
    }

    /// Gives a job to the worker.
    pub(crate) fn give(&mut self, job: T)
        requires { is_out self.old ≡ false }
        ensures out { job_out self.new ≡ job ∷ [] }
        ensures looks { looks self.new ≡ looks self.old }
    {
        self.side.give(job);
        self.out = true;
    }

    /// The result of the job that is out. None where none is out, or where it isn't done yet, which counts a look.
    pub(crate) fn take(&mut self) -> Option<T::Done>
        ensures { TakesFrom T.gives result self.old self.new }
    {
        if !self.out {
            return None;
        }
        let done = self.side.fetch()?;
        self.out = false;
        Some(done)
    }

    /// The result of the job that is out, for which it waits.
    pub(crate) fn wait<R: Wait>(&mut self, rt: &R) -> Option<T::Done>
        ensures { Finishes T.gives result self.old self.new }
    {
        for _ in rt.forever() {
            if !self.out {
                return None;
            }
            if let Some(done) = self.take() {
                return Some(done);
            }
            match self.side.word() {
                1 => self.side.sleep(rt, 1),
                2 => self.side.sleep(rt, 2),
                _ => {}
            }
        }
        None
    }

    /// Sleeps until the job that is out is done, or for so many microseconds. It may also return for no reason.
    pub(crate) fn rest<R: Wait>(&self, rt: &R, micros: u64) {
        match self.side.word() {
            1 => self.side.rest(rt, 1, micros),
            2 => self.side.rest(rt, 2, micros),
            _ => {}
        }
    }

    /// Tells the worker that no job will come.
    pub(crate) fn close(self)
        requires { is_out self ≡ false }
    {
        let WorkerSlot { mut side, out: _ } = self;
        side.close();
    }
}
