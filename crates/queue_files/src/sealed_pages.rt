// The pages below the head, as their checkpoints tell of them.
ghost use Rattle.std.specs.Prelude.{◌≡◌, ◌≤◌, ◌-◌, ◌+◌, ◌^◌, IsTrue, IfOk, Err, map};
ghost use Rattle.io_traits.specs.Counts.{HasCause};
ghost use Rattle.io_traits.specs.Reads.{bytes_of};
ghost use Rattle.io_traits.specs.Calls.{ChangesNothing};
ghost use Rattle.io_traits.specs.declared.queue_faults.QueueFault.TheVariants as f;
ghost use Rattle.queue_files.specs.Folders.{names_in, checkpoint};
ghost use Rattle.queue_files.specs.Marks.{read_in};
ghost use Rattle.queue_files.specs.Collected.{Finds};
ghost use Rattle.queue_files.specs.Queues.{IsNewest, AreNewest};
ghost use Rattle.queue_files.specs.Opening.{IsBounded, AllBounded, held_tail, held_at, held_of};

use crate::checkpoint_state::{Differing, told};
use crate::naming::checkpoint_name;
use io_traits::{Damage, PageState, QueueFault, Store};
use plain_data::Text;
use slot_files::Checkpoint;
use std::alloc::Global;

/// A page below the head, as its checkpoint tells of it.
#[derive(Clone, Copy)]
pub struct SealedPage {
    /// The number of the page.
    pub number: u32,
    /// The turn of the newest slot of its checkpoint.
    pub turn: u64,
    /// What that slot says.
    pub state: PageState,
}

/// The pages of these numbers, in their order, or the first damage of a checkpoint.
pub(crate) fn read_tails<S: Store>(
    alloc: Global,
    store: &mut S,
    folder: &str,
    numbers: &[u32],
) -> Result<Vec<SealedPage>, QueueFault>
    ensures tails { IsTrue S.tells
        → Finds (λ tails. map (held_tail (read_in (names_in folder.now) (S.seen store.old))) tails.items)
        (names_in folder.now) result
        (held_of (read_in (names_in folder.now) (S.seen store.old)) numbers.now) }
    ensures bounded { IfOk result (λ tails. AllBounded tails.items) }
    ensures newest { IsTrue S.tells → IfOk result (λ tails.
        AreNewest (read_in (names_in folder.now) (S.seen store.old)) tails.items) }
    ensures same { ChangesNothing S.tells S.seen S.moment S.may_leave store.old store.new }
    ensures cause { HasCause (S.faults store.old) (S.faults store.new) (result ≡ Err f.Fault) }
{
    let mut tails = Vec::new(alloc);
    for number in numbers {
        match read_tail(alloc, store, folder, *number) {
            Ok(tail) => match tails.push(tail) {
                Ok(()) => {}
                Err(_) => return Err(QueueFault::Memory),
            },
            Err(fault) => return Err(fault),
        }
    }
    Ok(tails)
}

/// The page of this number.
fn read_tail<S: Store>(
    alloc: Global,
    store: &mut S,
    folder: &str,
    number: u32,
) -> Result<SealedPage, QueueFault>
    ensures tail { IsTrue S.tells
        → Finds (held_tail (read_in (names_in folder.now) (S.seen store.old)))
        (names_in folder.now) result
        (held_at (read_in (names_in folder.now) (S.seen store.old)) number) }
    ensures bounded { IfOk result (λ tail. IsBounded tail) }
    ensures newest { IsTrue S.tells → IfOk result (λ tail.
        IsNewest (bytes_of (S.seen store.old (names_in folder.now (checkpoint tail.number))))
        tail.turn tail.state) }
    ensures same { ChangesNothing S.tells S.seen S.moment S.may_leave store.old store.new }
    ensures cause { HasCause (S.faults store.old) (S.faults store.new) (result ≡ Err f.Fault) }
{
    let name = checkpoint_name(alloc, folder, number)?;
    let slots = Checkpoint::newest(store, name.as_str())?;
    match told(&slots) {
        Ok((turn, state)) => Ok(SealedPage {
            number,
            turn,
            state,
        }),
        Err(differing) => Err(damaged(name, differing)),
    }
}

/// The damage of a checkpoint.
pub(crate) fn damaged(file: Text, differing: Differing) -> QueueFault
    ensures { result ≡ f.Damaged (record {
      file = file;
      place = 0;
      found = differing.found;
      expected = differing.expected;
    }) }
{
    QueueFault::Damaged(Damage {
        file,
        place: 0,
        found: differing.found,
        expected: differing.expected,
    })
}
