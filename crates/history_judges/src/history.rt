// What one pipeline told, whole.

use crate::meaning::Meaning;
use crate::reason::{Fault, Illegal, Judged};
use crate::state::State;
use history_book::{KeptEntry, Told};
use std::alloc::Global;

/// What the pipeline of this number told, by what a book kept.
pub fn history_of(alloc: Global, book: &[Told], line: u32) -> Judged<Vec<&KeptEntry>> {
    let mut history = Vec::new(alloc);
    for told in book {
        if told.line == line {
            history.push(&told.entry)?;
        }
    }
    Ok(history)
}

/// Where a pipeline stands that told this; or the first entry that isn't legal, with the part of its rule that doesn't
/// hold there.
pub fn state_after<'a, M: Meaning>(
    alloc: Global,
    meaning: &M,
    history: &[&'a KeptEntry],
) -> Judged<Result<State<'a>, Illegal>> {
    let mut state = State::start(alloc);
    for (place, entry) in history.iter().enumerate() {
        match state.step(meaning, entry) {
            Ok(()) => {}
            Err(Fault::Illegal(reason)) => return Ok(Err(Illegal { place, reason })),
            Err(Fault::Memory) => return Err(Fault::Memory),
        }
    }
    Ok(Ok(state))
}
