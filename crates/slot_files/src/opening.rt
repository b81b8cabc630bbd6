// The parts of an opening, each of two or three calls.
ghost use Rattle.std.specs.Prelude.{◌≡◌, ◌≢◌, ◌≤◌, ◌⊎◌, ℕ, IsTrue, IsErr, Ok, Err, length, take, nat_lt, IfOk, OnOk, option_map};
ghost use Rattle.io_traits.specs.Counts.{HasCause};
ghost use Rattle.io_traits.specs.Reads.{bytes_of, file_length};
ghost use Rattle.io_traits.specs.Moments.{EachMoment, ReadsBeside};
ghost use Rattle.io_traits.specs.declared.queue_faults.QueueFault.TheVariants as f;
ghost use Rattle.io_traits.specs.declared.queue_faults.Damage.{Damage as DamageValue};
ghost use Rattle.slot_files.specs.Changes.{AllRest, Settled, KeepsFirst, Alters};
ghost use Rattle.slot_files.specs.Positions.{recorded_in};
ghost use Rattle.slot_files.specs.PositionWrites.{OldOrNewPosition};
ghost use Rattle.slot_files.specs.declared.recorded.Recorded.TheVariants as r;
ghost use Rattle.slot_files.specs.Contents.{counted_in};
ghost use Rattle.slot_files.specs.Outputs.{IsReady, LeavesHeld};

use crate::output::OutFile;
use crate::{Recorded, cut_settled, record_position, settle_and_read};
use io_traits::{Damage, Failed, QueueFault, Store};
use plain_data::Text;

// Records the length of a file as its first position, and gives it.
fn begin<S: Store>(store: &mut S, path: &str, slot: &str) -> Result<u64, Failed>
    ensures position { IfOk result (λ position. IsTrue S.tells
        → position ≡ file_length (S.seen store.old path.now)) }
    ensures records { IfOk result (λ position. IsTrue S.tells
        → recorded_in (bytes_of (S.seen store.old slot.now)) ≡ r.Nothing
        → recorded_in (bytes_of (S.seen store.new slot.now)) ≡ r.Position 0 position) }
    ensures settled { OnOk result (AllRest S.Store store.new) }
    ensures any_moment { EachMoment S.Store store.old store.new (Alters S.Store slot.now
        (OldOrNewPosition 0 (file_length (S.seen store.old path.now))) store.old) }
    ensures beside { ReadsBeside S.Store (λ n. n ≡ slot.now) store.old store.new }
    ensures cause { HasCause (S.faults store.old) (S.faults store.new) (IsErr result) }
{
    let position = store.length(path)?.unwrap_or(0);
    record_position(store, slot, 0, position)?;
    Ok(position)
}

// Cuts a file back to its recorded position, and gives the length that it had. A file that ends before stays.
fn cut_back<S: Store>(store: &mut S, path: &str, position: u64) -> Result<u64, Failed>
    ensures length { IfOk result (λ length. IsTrue S.tells
        → length ≡ file_length (S.seen store.old path.now)) }
    ensures settled { IfOk result (λ length. position ≤ length → Settled S.Store path.now
        (option_map (take position) (S.seen store.old path.now)) store.new) }
    ensures any_moment { EachMoment S.Store store.old store.new (Alters S.Store path.now
        (KeepsFirst position (S.seen store.old path.now)) store.old) }
    ensures beside { ReadsBeside S.Store (λ n. n ≡ path.now) store.old store.new }
    ensures cause { HasCause (S.faults store.old) (S.faults store.new) (IsErr result) }
{
    let length = store.length(path)?.unwrap_or(0);
    if length < position {
        return Ok(length);
    }
    cut_settled(store, path, position)?;
    Ok(length)
}

/// Opens the output file of a path, with the position file of the name `slot`.
pub(crate) fn opened<S: Store>(store: &mut S, path: Text, slot: Text) -> Result<OutFile, QueueFault>
    ensures names { IfOk result (λ out. (out.path ≡ path) × (out.slot ≡ slot)) }
    ensures ready { IfOk result (λ out. path ≢ slot → IsReady S.Store out store.new) }
    ensures content { IfOk result (λ out. IsTrue S.tells → path ≢ slot
        → bytes_of (S.seen store.new path) ≡ take out.position (bytes_of (S.seen store.old path))) }
    ensures counted { IfOk result (λ out. IsTrue S.tells
        → counted_in path slot (S.seen store.old) ≡ Ok out.position) }
    ensures damaged { (damage : DamageValue) → result ≡ Err (f.Damaged damage) → IsTrue S.tells
        → counted_in path slot (S.seen store.old) ≡ Err damage }
    ensures any_moment { path ≢ slot → EachMoment S.Store store.old store.new
        (LeavesHeld S.Store path slot store.old) }
    ensures beside { ReadsBeside S.Store (λ n. (n ≡ path) ⊎ (n ≡ slot)) store.old store.new }
    ensures memory { result ≢ Err f.Memory }
    ensures cause { HasCause (S.faults store.old) (S.faults store.new) (result ≡ Err f.Fault) }
{
    match settle_and_read(store, slot.as_str())? {
        Recorded::Nothing => {
            let position = begin(store, path.as_str(), slot.as_str())?;
            Ok(OutFile::of(path, slot, position, 0))
        }
        Recorded::Position(turn, position) => {
            let length = cut_back(store, path.as_str(), position)?;
            if length < position {
                return Err(damaged(path, length, length, position));
            }
            Ok(OutFile::of(path, slot, position, turn))
        }
        Recorded::Damaged(found, expected) => Err(damaged(slot, 0, found, expected)),
    }
}

fn damaged(file: Text, place: u64, found: u64, expected: u64) -> QueueFault
    ensures { result ≡ f.Damaged
        (record { file = file; place = place; found = found; expected = expected }) }
{
    QueueFault::Damaged(Damage {
        file,
        place,
        found,
        expected,
    })
}
