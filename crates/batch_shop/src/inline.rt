// A shop that does each job itself, in the thread of its caller.
ghost use Rattle.std.specs.Prelude.{◌≡◌, ◌≤◌, ◌<◌, [], length, IfOk, IfSome, IfNone};
ghost use Rattle.std.specs.VecDeque.{deque_capacity};

use crate::task::{Shop, Task};
use std::alloc::{AllocError, Global};
use std::collections::VecDeque;

/// Does each job itself, when its result is taken: the oldest first.
#[derive(Drop)]
pub struct InlineShop<T> {
    jobs: VecDeque<T>,
    workers: usize,
    ghost room: { workers ≤ deque_capacity jobs },
    ghost few: { length jobs.items ≤ workers },
}

impl<T: Task> InlineShop<T> {
    ghost use Rattle.batch_shop.specs.Inline.{jobs_of, workers_of, DoesOldest};

    /// A shop that has room for one job for each of so many workers, from 1 to 64. No job is out.
    pub fn new(alloc: Global, workers: u32) -> Result<InlineShop<T>, AllocError>
        requires some { 0 < workers }
        requires few { workers ≤ 64 }
        ensures out { IfOk result (λ shop. jobs_of shop ≡ []) }
        ensures started { IfOk result (λ shop. workers_of shop ≡ workers) }
    {
        let workers = workers as usize;
        Ok(InlineShop {
            jobs: VecDeque::with_capacity(alloc, workers)?,
            workers,
        })
    }

    /// Does the oldest job that is out, and gives its result. None exactly where no job is out.
    pub fn take_oldest(&mut self) -> Option<T::Done>
        ensures some { IfSome result (DoesOldest T.gives (jobs_of self.old) (jobs_of self.new)) }
        ensures none { IfNone result ((jobs_of self.old ≡ []) × (jobs_of self.new ≡ [])) }
        ensures same { workers_of self.new ≡ workers_of self.old }
    {
        let job = self.jobs.pop_front()?;
        Some(job.work())
    }
}

impl<T: Task> Shop<T> for InlineShop<T> {
    ghost use Rattle.batch_shop.specs.Inline.{jobs_of, workers_of};

    ghost out = { jobs_of };

    ghost started = { workers_of };

    ghost looks = { λ _. 0 };

    fn give(&mut self, job: T) -> Option<T> {
        if self.jobs.len() >= self.workers {
            return Some(job);
        }
        self.jobs.push_back_reserved(job);
        None
    }

    fn take(&mut self) -> Option<T::Done> {
        self.take_oldest()
    }
}
