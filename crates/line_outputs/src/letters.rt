// Events that were not delivered, appended to the dead letters of a pipeline.
ghost use Rattle.std.specs.Prelude.{◌≡◌, ◌⊎◌, ℕ, IsTrue, false, Ok, Err, IfOk, OnOk, OnErr, map};
ghost use Rattle.std.specs.List.{sum};
ghost use Rattle.io_traits.specs.Counts.{HasCause};
ghost use Rattle.io_traits.specs.Moments.{ReadsBeside};
ghost use Rattle.dead_letters.specs.Appends.{AllFit};
ghost use Rattle.dead_letters.specs.Letters.{size_of};
ghost use Rattle.dead_letters.specs.Views.{IsOwn, behind_append, is_full, sheds};
ghost use Rattle.dead_letters.specs.Ready.{AppendLeaves, IsAppended, IsReady};
ghost use Rattle.line_outputs.specs.NewLetters.{new_letter, new_letters};
ghost use Rattle.line_outputs.specs.declared.letters.LetterFault.TheVariants as f;

use dead_letters::{DeadFault, DeadLetter, DeadLetters, Letters, Shedding};
use event_tree::{DeadPart, Instant};
use io_traits::Store;
use std::alloc::{AllocError, Global};

/// Why events were not appended to the dead letters.
#[derive(Debug, PartialEq, Eq, Drop)]
pub enum LetterFault {
    /// The queue holds its letters, and has no room: how many bytes it has, how many would be added, and how
    /// many it may have.
    Full(u128, u128, u64),
    /// The record of one of the letters would have a body of 2^32 bytes or more. Nothing was written.
    TooLong,
    /// Memory ran out. Nothing was written.
    Memory,
    /// A call of the store failed, and its count of faults rose.
    Fault,
}

/// Appends letters to the dead letters of a pipeline, and gives up what their policy says where there is no
/// room for all. Letters whose record can't be written are refused before.
///
/// `Full` comes only where the queue holds all that it has. Behind it and behind `Fault` the queue has to
/// be opened again; `TooLong` and `Memory` come before the first call of the store, and leave it ready.
pub fn append_letters<S: Store>(
    queue: &mut DeadLetters,
    store: &mut S,
    letters: &[DeadLetter],
) -> Result<Shedding, LetterFault>
    requires ready { IsReady S.Store queue.old store.old }
    ensures shed { IfOk result (λ s. s ≡ sheds queue.old letters.now) }
    ensures appended { OnOk result
        (IsAppended S.Store queue.old letters.now store.old queue.new store.new) }
    ensures grown { OnOk result (queue.new ≡ behind_append queue.old letters.now) }
    ensures err { OnErr result (queue.new ≡ queue.old) }

    // It is full, and then only, where it holds all, and what it has and what is added exceed its limit.
    ensures full { AllFit letters.now → IsTrue (is_full queue.old letters.now)
        → result ≡ Err (f.Full (sum queue.old.sizes) (sum (map size_of letters.now))
        queue.old.limit) }
    ensures room { (size added limit : ℕ) → result ≡ Err (f.Full size added limit)
        → IsTrue (is_full queue.old letters.now) }

    // A letter is too long, and then only, where not all records can be written.
    ensures long { result ≡ Err f.TooLong → AllFit letters.now → ⊥ }
    ensures fit { OnOk result (AllFit letters.now) }

    ensures same { (result ≡ Err f.TooLong) ⊎ (result ≡ Err f.Memory) → store.new ≡ store.old }
    ensures any_moment { AppendLeaves S.Store queue.old letters.now store.old store.new }
    ensures beside { ReadsBeside S.Store (IsOwn queue.old.folder) store.old store.new }
    ensures cause { HasCause (S.faults store.old) (S.faults store.new) (result ≡ Err f.Fault) }
{
    if !all_fit(letters) {
        return Err(LetterFault::TooLong);
    }
    match queue.append(store, letters) {
        Ok(shedding) => Ok(shedding),
        Err(DeadFault::Full(size, added, limit)) => Err(LetterFault::Full(size, added, limit)),
        Err(DeadFault::Memory) => Err(LetterFault::Memory),
        Err(DeadFault::Fault) => Err(LetterFault::Fault),
    }
}

/// Events that were not delivered, as letters of a moment, copied.
///
/// An error is want of memory.
pub fn new_letters(
    alloc: Global,
    moment: Instant,
    parts: &[DeadPart],
) -> Result<Letters, AllocError>
    ensures { IfOk result (λ letters. letters ≡ new_letters moment parts.now) }
{
    let mut letters = Letters::with_capacity(alloc, parts.len())?;
    for part in parts {
        letters.push(new_letter(moment, part)?)?;
    }
    Ok(letters)
}

fn new_letter(moment: Instant, part: &DeadPart) -> Result<DeadLetter, AllocError>
    ensures { IfOk result (λ letter. letter ≡ new_letter moment part.now) }
{
    Ok(DeadLetter {
        kind: part.kind.copy()?,
        id: part.id.copy()?,
        reason: part.reason.copy()?,
        moment,
        event: part.event.copy()?,
    })
}

// Whether the records of all letters can be written.
fn all_fit(letters: &[DeadLetter]) -> bool
    ensures all { IsTrue result → AllFit letters.now }
    ensures some { result ≡ false → AllFit letters.now → ⊥ }
{
    for letter in letters {
        if !letter.fits_record() {
            return false;
        }
    }
    true
}
