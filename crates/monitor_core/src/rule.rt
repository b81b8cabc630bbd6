//! The rule of a monitor's table: each seat's words hold what the seat counted, and no two seats share a word.
ghost use Rattle.std.specs.Prelude.{◌≡◌, replicate};
ghost use Rattle.monitor_core.specs.Kept.{Kept, ReadsOwn, with_word, all_but_four, last_four};

use atomic_table::{Play, Split, TableRule};
use std::collections::LinkedList;

/// What a seat knows: where its words begin, and what they hold. No value of it is made.
pub struct CounterView {
    pub from: u64,
    pub counts: LinkedList<u64>,
}

/// The key is the number of words.
pub(crate) struct CounterRule;

impl TableRule<(), CounterView, usize> for CounterRule {
    ghost holds = { λ _. Kept };

    ghost first = { λ words. record { from = 0; counts = replicate words 0 } };
}

/// A load: nothing changes, and a word of the seat's own holds what the seat counted.
pub(crate) struct LoadStep;

impl Play<(), CounterView> for LoadStep {
    ghost then = { λ step me found after. (after ≡ me) × ReadsOwn me.0 step.word found };
}

/// A store into a word of the seat's own.
pub(crate) struct StoreStep;

impl Play<(), CounterView> for StoreStep {
    ghost then = { λ step me _ after. after ≡ (with_word me.0 step.word step.first, me.1) };
}

/// The last four words go to a new seat.
pub(crate) struct SplitStep;

impl Split<CounterView> for SplitStep {
    ghost left = { all_but_four };

    ghost right = { last_four };
}
