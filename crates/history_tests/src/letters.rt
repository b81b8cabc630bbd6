// Letters with their moment.

use crate::judged::part_of;
use dead_letters::{DeadLetter, Letters};
use event_tree::{DeadPart, Instant};
use std::alloc::{AllocError, Global};

/// Letters of the first moment there is, each as `part_of` says.
pub fn letters_of(alloc: Global, text: &str) -> Result<Letters, AllocError> {
    let mut letters = Letters::new(alloc);
    for word in text.split(',') {
        let DeadPart {
            kind,
            id,
            reason,
            event,
        } = part_of(alloc, word)?;
        letters.push(DeadLetter {
            kind,
            id,
            reason,
            moment: Instant::epoch(),
            event,
        })?;
    }
    Ok(letters)
}
