// A worker, which does jobs until its shop closes.
ghost use Rattle.batch_shop.specs.Rule.{IsWaiting};
ghost use Rattle.batch_shop.specs.Sides.{me_of};

use crate::endpoint::Endpoint;
use crate::task::Task;
use std::sync::Wait;

/// Whoever does the jobs of one place of a shop.
#[derive(Drop)]
pub struct Worker<T: Task> {
    side: Endpoint<T>,
    ghost waits: { IsWaiting (me_of side) },
}

impl<T: Task> Worker<T> {
    pub(crate) fn new(side: Endpoint<T>) -> Worker<T>
        requires { IsWaiting (me_of side) }
    {
        Worker { side }
    }

    /// Does each job that comes, until the shop closes. Between two jobs it sleeps.
    pub fn serve<R: Wait>(mut self, rt: &R) {
        for _ in rt.forever() {
            match self.side.word() {
                0 => self.side.sleep(rt, 0),
                1 => self.work(),
                4 => break,
                _ => self.side.sleep(rt, 3),
            }
        }
    }

    /// Does the job that was given, if there is one.
    fn work(&mut self) {
        if let Some(job) = self.side.take_job() {
            self.side.hand_back(job.work());
        }
    }
}
