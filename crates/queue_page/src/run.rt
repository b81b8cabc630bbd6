// A run of elements, read one behind the other.
ghost use Rattle.std.specs.Prelude.{◌≡◌, ◌≤◌, ◌<◌, ◌+◌, ◌*◌, ◌^◌, drop, take, length, IfOk, None, Ok, Err};
ghost use Rattle.io_traits.specs.Counts.{HasCause};
ghost use Rattle.io_traits.specs.Calls.{ChangesNothing};
ghost use Rattle.queue_page.specs.Blocks.{AreBytesIn, IsPart, OnFile, left_of};
ghost use Rattle.queue_page.specs.Runs.{run, end_of};
ghost use Rattle.queue_page.specs.Answers.{Tells};
ghost use Rattle.queue_page.specs.declared.fault.RowFault.TheVariants as r;

use crate::element::{ElementPosition, test_element};
use crate::fault::{Mismatch, RowFault};
use crate::page_buffer::PageBuffer;
use io_traits::Store;

/// Where a run of elements ends.
#[derive(Clone, Copy)]
pub(crate) struct RunEnd {
    /// How many elements it has.
    pub(crate) count: u64,
    /// The place behind the last.
    pub(crate) end: u64,
    /// What is wrong with the element there, if there is one and it was looked at.
    pub(crate) stop: Option<Mismatch>,
}

/// Reads at most so many elements, the first of which is wanted there, up to the first that is at fault.
pub(crate) fn read_run<S: Store>(
    store: &mut S,
    name: &str,
    block: &mut PageBuffer,
    first: ElementPosition,
    limit: u64,
) -> Result<RunEnd, RowFault>
    requires order { first.place ≤ first.end }
    requires numbers { first.number < 2 ^ 63 }
    ensures run { OnFile S.Store store.old name.now block.old (λ file. first.end ≤ length file
        → Tells (λ found. found) result
        (Ok (end_of (run limit first.version first.number first.place
        (left_of file first.place first.end))))) }
    ensures within { IfOk result (λ found. (found.count ≤ limit)
        × (first.place + 16 * found.count ≤ found.end) × (found.end ≤ first.end)) }
    ensures all { IfOk result (λ found. found.stop ≡ None → found.count < limit
        → found.end ≡ first.end) }
    ensures bytes { IfOk result (λ found. OnFile S.Store store.old name.now block.old (λ file.
        first.end ≤ length file → AreBytesIn first.place found.end file)) }
    ensures part { OnFile S.Store store.old name.now block.old (λ file. IsPart file block.new) }
    ensures same { ChangesNothing S.tells S.seen S.moment S.may_leave store.old store.new }
    ensures cause { HasCause (S.faults store.old) (S.faults store.new) (result ≡ Err r.Fault) }
{
    let mut spot = first;
    let mut count = 0;
    while count < limit && spot.place < spot.end {
        match test_element(store, name, block, &spot) {
            Ok(next) => {
                count += 1;
                spot.number += 1;
                spot.place = next;
            }
            Err(RowFault::Mismatch(misfit)) => {
                return Ok(RunEnd {
                    count,
                    end: spot.place,
                    stop: Some(misfit),
                });
            },
            Err(RowFault::Fault) => return Err(RowFault::Fault),
            Err(RowFault::Memory) => return Err(RowFault::Memory),
        }
    }
    Ok(RunEnd {
        count,
        end: spot.place,
        stop: None,
    })
}
