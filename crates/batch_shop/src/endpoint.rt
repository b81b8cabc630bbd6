// The two endpoints of the table between a shop and a worker.
ghost use Rattle.std.specs.Prelude.{◌≡◌, None, MatchOption, IfOk};
ghost use Rattle.std.specs.Arc.{arc_value};

use crate::rule::{
    CloseStep, GiveStep, Message, OpenStep, PartStep, ReturnStep, Sharing, TakeJobStep,
    TakeResultStep, View,
};
use crate::task::Task;
use atomic_table::{Seat, Table};
use std::alloc::{AllocError, Global};
use std::sync::{Arc, Wait};
use std::time::Duration;

/// The table that a shop shares with one worker: a word that says whose turn it is, and a slot.
type SharedTable<T> = Arc<
    Table<Option<Message<T, <T as Task>::Done>>, View<T>, (), Sharing<T>, Global>,
    Global,
>;

/// One side of that table, with its seat.
#[derive(Drop)]
pub(crate) struct Endpoint<T: Task> {
    table: SharedTable<T>,
    pub(crate) seat: Seat<Option<Message<T, T::Done>>, View<T>>,
    ghost words: { (arc_value table).shared.table_id.words ≡ 1 },
    ghost same: { seat.table_id ≡ (arc_value table).shared.table_id },
}

impl<T: Task> Endpoint<T> {
    ghost use Rattle.batch_shop.specs.Sides.{me_of, Fetches};
    ghost use Rattle.batch_shop.specs.Rule.{Carries, IsIdle, IsOut, IsWaiting, IsWorking, given_away};
    ghost use Rattle.batch_shop.specs.declared.rule.View.TheVariants.{Idle};

    /// The shop's side and the worker's.
    pub(crate) fn open(alloc: Global) -> Result<(Endpoint<T>, Endpoint<T>), AllocError>
        ensures shop { IfOk result (λ sides. me_of sides.0 ≡ Carries (Idle 0) None) }
        ensures worker { IfOk result (λ sides. IsWaiting (me_of sides.1)) }
    {
        let (table, mut seat) = Table::vacant(alloc, &[0], 1, &())?;
        let other = table.shared.split_seat::<PartStep>(&mut seat);
        table.shared.store::<OpenStep>(&mut seat, 0, 0);
        let Ok(table) = Arc::new(alloc, table) else {
            return Err(AllocError);
        };
        let theirs = Arc::try_clone(&table)?;
        let worker = Endpoint {
            table: theirs,
            seat: other,
        };
        Ok((Endpoint { table, seat }, worker))
    }

    /// The shop gives the worker a job.
    pub(crate) fn give(&mut self, job: T)
        requires { IsIdle (me_of self.old) }
        ensures { me_of self.new ≡ given_away job (me_of self.old) }
    {
        let shared = &self.table.shared;
        let _ = shared.exchange(&mut self.seat, 0, Some(Message::Job(job)));
        shared.store::<GiveStep>(&mut self.seat, 0, 1);
        shared.wake_all(0);
    }

    /// The shop takes the result of the job that is out, if it is done.
    pub(crate) fn fetch(&mut self) -> Option<T::Done>
        requires { IsOut (me_of self.old) }
        ensures { Fetches T.gives result (me_of self.old) (me_of self.new) }
    {
        let shared = &self.table.shared;
        if shared.compare_exchange::<TakeResultStep>(&mut self.seat, 0, 3, 0) != 3 {
            return None;
        }
        match shared.exchange(&mut self.seat, 0, None) {
            Some(Message::Done(done)) => Some(done),
            Some(Message::Job(_)) | None => unreachable!(),
        }
    }

    /// The shop tells the worker that no job will come.
    pub(crate) fn close(&mut self)
        requires { IsIdle (me_of self.old) }
    {
        let shared = &self.table.shared;
        shared.store::<CloseStep>(&mut self.seat, 0, 4);
        shared.wake_all(0);
    }

    /// The worker takes the job that was given.
    pub(crate) fn take_job(&mut self) -> Option<T>
        requires { IsWaiting (me_of self.old) }
        ensures { MatchOption result (IsWaiting (me_of self.new))
            (λ job. IsWorking job (me_of self.new)) }
    {
        let shared = &self.table.shared;
        if shared.compare_exchange::<TakeJobStep>(&mut self.seat, 0, 1, 2) != 1 {
            return None;
        }
        match shared.exchange(&mut self.seat, 0, None) {
            Some(Message::Job(job)) => Some(job),
            Some(Message::Done(_)) | None => unreachable!(),
        }
    }

    /// The worker gives the result of its job back.
    pub(crate) fn hand_back(&mut self, done: T::Done)
        requires { (job : T) × IsWorking job (me_of self.old) × T.gives job done }
        ensures { IsWaiting (me_of self.new) }
    {
        let shared = &self.table.shared;
        let _ = shared.exchange(&mut self.seat, 0, Some(Message::Done(done)));
        shared.store::<ReturnStep>(&mut self.seat, 0, 3);
        shared.wake_all(0);
    }

    /// What the word says: 0 no job, 1 a job was given, 2 it is worked on, 3 it is done, 4 no job will come.
    pub(crate) fn word(&self) -> u64 {
        self.table.shared.peek(0)
    }

    /// Sleeps while the word is this, unless it is woken.
    pub(crate) fn sleep<R: Wait>(&self, rt: &R, word: u32) {
        self.table.shared.park(rt, 0, word);
    }

    /// The same, for so many microseconds at most.
    pub(crate) fn rest<R: Wait>(&self, rt: &R, word: u32, micros: u64) {
        let most = Duration::from_micros(micros);
        self.table.shared.park_timeout(rt, 0, word, most);
    }
}
