// The place up to which letters were answered, as it is recorded.
ghost use Rattle.std.specs.Prelude.{◌≡◌, IsTrue, IsErr, IfOk};
ghost use Rattle.io_traits.specs.Counts.{HasCause};
ghost use Rattle.io_traits.specs.Moments.{EachMoment, ReadsBeside};
ghost use Rattle.dead_letter_reader.specs.Places.{IsIntact};
ghost use Rattle.dead_letter_reader.specs.Ready.{LeavesEither, Says};
ghost use Rattle.dead_letter_reader.specs.Steps.{TurnFits, recorded_at, turn_after};

use dead_letters::{Counted, DeadRow, Segments, count_segments};
use io_traits::{Failed, Store};

/// Records the place of a letter in the next slot of the file, which says this, and settles all files. It gives
/// what the file says then.
pub(crate) fn record<S: Store>(
    store: &mut S,
    file: &str,
    recorded: Counted,
    row: &DeadRow,
) -> Result<Counted, Failed>
    requires says { Says S.Store file.now recorded store.old }
    requires intact { IsTrue S.tells → IsIntact recorded }
    ensures recorded { IfOk result (λ counted. counted ≡ recorded_at recorded row.now) }
    ensures says { IfOk result (λ counted. Says S.Store file.now counted store.new) }
    ensures any_moment { EachMoment S.Store store.old store.new (LeavesEither S.Store file.now
        recorded (recorded_at recorded row.now) store.old) }
    ensures beside { ReadsBeside S.Store (λ n. n ≡ file.now) store.old store.new }
    ensures cause { HasCause (S.faults store.old) (S.faults store.new) (IsErr result) }
{
    let turn = turn_after(recorded);
    let segments = Segments {
        first: row.segment,
        last: row.segment,
        length: row.length,
    };
    count_segments(store, file, turn, segments)?;
    Ok(Counted::Count(turn, segments))
}

// The turn of the next slot.
fn turn_after(recorded: Counted) -> u64
    ensures turn { result ≡ turn_after recorded }
    ensures fits { TurnFits recorded }
{
    match recorded {
        Counted::Count(turn, _) => turn.wrapping_add(1),
        _ => 0,
    }
}
