//! The rule of the table that a shop shares with one worker.
use crate::task::Task;
use atomic_table::{Play, Split, TableRule};
use std::marker::PhantomData;

/// What lies in the slot: a job, or the result of one.
#[derive(Drop)]
pub enum Message<T, D> {
    Job(T),
    Done(D),
}

/// What a seat knows: the first five are views of the shop's seat, with its count of looks; the last two are views
/// of the worker's. No value of it is made.
pub enum View<T> {
    /// No worker's seat was cut off yet.
    Alone,
    /// The slot is still at home and empty.
    Ready,
    Idle(u64),
    Out(T, u64),
    Closed(u64),
    Waiting,
    Working(T),
}

pub type MessageSlot<T, D> = Option<Message<T, D>>;

/// The rule: whose turn it is, by the word.
pub struct Sharing<T> {
    marker: PhantomData<T>,
}

impl<T: Task> TableRule<Option<Message<T, T::Done>>, View<T>, ()> for Sharing<T> {
    ghost use Rattle.batch_shop.specs.Rule.{Kept};
    ghost use Rattle.batch_shop.specs.declared.rule.View.TheVariants.{Alone};

    ghost holds = { λ _. Kept T.gives };

    ghost first = { λ _. Alone };
}

/// The shop's first store of 0.
pub(crate) struct OpenStep;

impl<T: Task> Play<Option<Message<T, T::Done>>, View<T>> for OpenStep {
    ghost use Rattle.batch_shop.specs.Rule.{Opens};

    ghost then = { λ _ _ _ after. Opens T.gives after };
}

/// The shop's store of 1.
pub(crate) struct GiveStep;

impl<T: Task> Play<Option<Message<T, T::Done>>, View<T>> for GiveStep {
    ghost use Rattle.batch_shop.specs.Rule.{Hands};

    ghost then = { λ _ me _ after. Hands T.gives me after };
}

/// The worker's compare and exchange of 1 to 2.
pub(crate) struct TakeJobStep;

impl<T: Task> Play<Option<Message<T, T::Done>>, View<T>> for TakeJobStep {
    ghost use Rattle.batch_shop.specs.Rule.{TakesJob};

    ghost then = { λ _ me found after. TakesJob T.gives me found after };
}

/// The worker's store of 3.
pub(crate) struct ReturnStep;

impl<T: Task> Play<Option<Message<T, T::Done>>, View<T>> for ReturnStep {
    ghost use Rattle.batch_shop.specs.Rule.{HandsBack};

    ghost then = { λ _ _ _ after. HandsBack T.gives after };
}

/// The shop's compare and exchange of 3 to 0.
pub(crate) struct TakeResultStep;

impl<T: Task> Play<Option<Message<T, T::Done>>, View<T>> for TakeResultStep {
    ghost use Rattle.batch_shop.specs.Rule.{TakesHome};

    ghost then = { λ _ me found after. TakesHome T.gives me found after };
}

/// The shop's store of 4.
pub(crate) struct CloseStep;

impl<T: Task> Play<Option<Message<T, T::Done>>, View<T>> for CloseStep {
    ghost use Rattle.batch_shop.specs.Rule.{Closes};

    ghost then = { λ _ _ _ after. Closes T.gives after };
}

/// The worker's seat is cut off the shop's.
pub(crate) struct PartStep;

impl<T> Split<View<T>> for PartStep {
    ghost use Rattle.batch_shop.specs.declared.rule.View.TheVariants.{Ready, Waiting};

    ghost left = { λ _. Ready };

    ghost right = { λ _. Waiting };
}
