// The parts of an opening.
ghost use Rattle.std.specs.Prelude.{◌≡◌, ◌≢◌, ℕ, IsTrue, Err, IfOk, IfErr, OnOk};
ghost use Rattle.io_traits.specs.Counts.{HasCause};
ghost use Rattle.io_traits.specs.Folders.{IsOneCall};
ghost use Rattle.io_traits.specs.Reads.{bytes_of, file_length};
ghost use Rattle.io_traits.specs.Moments.{EachMoment, NowOrSynced};
ghost use Rattle.io_traits.specs.declared.queue_faults.Damage.{Damage as DamageValue};
ghost use Rattle.slot_files.specs.Positions.{recorded_in};
ghost use Rattle.slot_files.specs.declared.recorded.Recorded.TheVariants as r;
ghost use Rattle.in_file.specs.Openings.{IsOpened, IsDamaged, IsWhole, IsBegun, begins_at, opened, position_by, turn_by};
ghost use Rattle.in_file.specs.Looks.{file_path};
ghost use Rattle.in_file.specs.Positions.{IsReady};
ghost use Rattle.in_file.specs.declared.faults.OpenFault.TheVariants as o;

use crate::faults::OpenFault;
use crate::input::{FileInput, FileNames};
use crate::plan::FilePlan;
use io_traits::{Damage, Files, Store};
use plain_data::Text;
use slot_files::{Recorded, settle_and_read};
use std::alloc::Global;

/// Opens the input of a path, with the position file of the name `slot`.
pub(crate) fn opened<S: Store, F: Files>(
    alloc: Global,
    store: &mut S,
    files: &mut F,
    names: FileNames,
    plan: FilePlan,
) -> Result<FileInput, OpenFault>
    requires { names.field ≡ file_path }
    ensures opened { IfOk result
        (IsOpened S.Store F.Files names.path names.slot plan store.old files.old) }
    ensures ready { IfOk result (λ w. IsReady S.Store w store.new) }
    ensures damaged { (damage : DamageValue) → result ≡ Err (o.Damaged damage) → IsTrue S.tells
        → IsDamaged names.slot (recorded_in (bytes_of (S.seen store.old names.slot))) damage }
    ensures not_damaged { result ≡ Err o.Files → IsTrue S.tells
        → IsWhole (recorded_in (bytes_of (S.seen store.old names.slot))) }
    ensures reads { IsTrue S.tells → S.seen store.new ≡ S.seen store.old }
    ensures any_moment { EachMoment S.Store store.old store.new (NowOrSynced S.Store store.old) }
    ensures call { OnOk result (IsOneCall F.tells F.shows F.calls files.old files.new) }
    ensures memory { result ≢ Err o.Memory }
    ensures store_cause { HasCause (S.faults store.old) (S.faults store.new) (result ≡ Err o.Store) }
    ensures files_cause { HasCause (F.faults files.old) (F.faults files.new) (result ≡ Err o.Files) }
{
    match settle_and_read(store, names.slot.as_str()) {
        Ok(Recorded::Nothing) => begin(alloc, files, names, plan, Recorded::Nothing),
        Ok(Recorded::Position(turn, position)) => {
            let recorded = Recorded::Position(turn, position);
            begin(alloc, files, names, plan, recorded)
        }
        Ok(Recorded::Damaged(found, expected)) => Err(damaged(names.into_slot(), found, expected)),
        Err(_) => Err(OpenFault::Store),
    }
}

// Begins to read a file of which this is recorded.
fn begin<F: Files>(
    alloc: Global,
    files: &mut F,
    names: FileNames,
    plan: FilePlan,
    recorded: Recorded,
) -> Result<FileInput, OpenFault>
    requires field { names.field ≡ file_path }
    requires whole { IsWhole recorded }
    ensures begun { IfOk result
        (IsBegun F.Files names.path names.slot plan files.old recorded) }
    ensures call { OnOk result (IsOneCall F.tells F.shows F.calls files.old files.new) }
    ensures fault { IfErr result (λ fault. fault ≡ o.Files) }
    ensures cause { HasCause (F.faults files.old) (F.faults files.new) (result ≡ Err o.Files) }
{
    match files.length(names.path.as_str()) {
        Ok(Some(length)) => Ok(FileInput::of(alloc, names, plan, length, recorded)),
        Ok(None) => Ok(FileInput::of(alloc, names, plan, 0, recorded)),
        Err(_) => Err(OpenFault::Files),
    }
}

fn damaged(file: Text, found: u64, expected: u64) -> OpenFault
    ensures { result ≡ o.Damaged
        (record { file = file; place = 0; found = found; expected = expected }) }
{
    OpenFault::Damaged(Damage {
        file,
        place: 0,
        found,
        expected,
    })
}

// Where a reading begins.
pub(crate) fn begins_at(plan: FilePlan, length: u64, recorded: Recorded) -> u64
    ensures { result ≡ begins_at plan length recorded }
{
    match recorded {
        Recorded::Nothing if plan.ends || plan.from_start => 0,
        Recorded::Nothing => length,
        Recorded::Position(_, position) if length < position => 0,
        Recorded::Position(_, position) => position,
        Recorded::Damaged(_, _) => 0,
    }
}

// The recorded position, and where none is that at which the reading begins.
pub(crate) fn position_by(began: u64, recorded: Recorded) -> u64
    ensures { result ≡ position_by began recorded }
{
    match recorded {
        Recorded::Position(_, position) => position,
        Recorded::Nothing | Recorded::Damaged(_, _) => began,
    }
}

// The turn of the slot that is written next.
pub(crate) fn turn_by(recorded: Recorded) -> u64
    ensures { result ≡ turn_by recorded }
{
    match recorded {
        Recorded::Position(turn, _) => turn.wrapping_add(1),
        Recorded::Nothing | Recorded::Damaged(_, _) => 0,
    }
}
