// An output file that is cut back to its recorded position when it is opened.
ghost use Rattle.std.specs.Prelude.{◌≡◌, ◌≢◌, ◌≤◌, ◌⊎◌, ◌++◌, IsTrue, IsErr, Ok, Err, length, take, IfOk, OnOk, OnErr};
ghost use Rattle.io_traits.specs.Counts.{HasCause};
ghost use Rattle.io_traits.specs.Reads.{bytes_of, file_length};
ghost use Rattle.crc_frame.specs.Slots.{place_of, next_turn};
ghost use Rattle.io_traits.specs.Moments.{EachMoment, ReadsBeside};
ghost use Rattle.io_traits.specs.declared.queue_faults.QueueFault.TheVariants as f;
ghost use Rattle.io_traits.specs.declared.queue_faults.Damage.{Damage as DamageValue};
ghost use Rattle.slot_files.specs.Views.{IsOwn};
ghost use Rattle.slot_files.specs.Contents.{counted_in};
ghost use Rattle.slot_files.specs.Outputs.{IsReady, IsAppended, AppendLeaves, LeavesHeld};

use crate::opening::opened;
use crate::{append_settled, record_position};
use io_traits::{Failed, QueueFault, Store};
use plain_data::Text;
use std::alloc::Global;
use std::marker::Model;

/// An output file, of which a position file says how much counts.
#[derive(Drop)]
pub struct OutFile {
    /// The name of the file in its store.
    path: Text,
    /// The name of its position file.
    slot: Text,
    /// The length in bytes of what counts.
    position: u64,
    /// The turn of the slot that says so.
    turn: u64,
}

impl Model for OutFile {
    ghost use Rattle.slot_files.specs.Views.{Output};

    ghost Value = { Output };

    ghost view = { λ out. record {
      path = out.path;
      slot = out.slot;
      position = out.position;
      turn = out.turn;
    } };
}

impl OutFile {
    /// Opens the output file of a path, with the position file of the name `slot`: syncs, cuts the file back
    /// to its recorded position and syncs. Where nothing is recorded, all of the file counts, and its length
    /// is recorded.
    ///
    /// `Damaged` is a file that ends before its recorded position, or a position file without an intact
    /// slot that is longer than a slot. `Memory` comes before the first call of the store. Behind another
    /// error the file can be opened again.
    pub fn open_on<S: Store>(
        alloc: Global,
        store: &mut S,
        path: &str,
        slot: &str,
    ) -> Result<OutFile, QueueFault>
        ensures names { IfOk result (λ out. (out.path ≡ path.now) × (out.slot ≡ slot.now)) }
        ensures ready { IfOk result (λ out. path.now ≢ slot.now → IsReady S.Store out store.new) }
        ensures content { IfOk result (λ out. IsTrue S.tells → path.now ≢ slot.now
            → bytes_of (S.seen store.new path.now)
            ≡ take out.position (bytes_of (S.seen store.old path.now))) }

        // How much counts, or which damage there is, is told by what the store reads.
        ensures counted { IfOk result (λ out. IsTrue S.tells
            → counted_in path.now slot.now (S.seen store.old) ≡ Ok out.position) }
        ensures damaged { (damage : DamageValue) → result ≡ Err (f.Damaged damage) → IsTrue S.tells
            → counted_in path.now slot.now (S.seen store.old) ≡ Err damage }

        ensures any_moment { path.now ≢ slot.now → EachMoment S.Store store.old store.new
            (LeavesHeld S.Store path.now slot.now store.old) }
        ensures beside { ReadsBeside S.Store (λ n. (n ≡ path.now) ⊎ (n ≡ slot.now)) store.old
            store.new }
        ensures memory { result ≡ Err f.Memory → store.new ≡ store.old }
        ensures cause { HasCause (S.faults store.old) (S.faults store.new) (result ≡ Err f.Fault) }
    {
        let path = Text::of(alloc, path)?;
        let slot = Text::of(alloc, slot)?;
        opened(store, path, slot)
    }

    /// An output file that is open, with what its newest slot says.
    pub(crate) fn of(path: Text, slot: Text, position: u64, turn: u64) -> OutFile
        ensures { result ≡ record { path = path; slot = slot; position = position; turn = turn } }
    {
        OutFile {
            path,
            slot,
            position,
            turn,
        }
    }

    /// Appends a batch: writes it behind the end and syncs, then records the new length and syncs. Takes no
    /// memory.
    ///
    /// Behind an error the file has to be opened again.
    pub fn append_batch<S: Store>(&mut self, store: &mut S, bytes: &[u8]) -> Result<(), Failed>
        requires { IsTrue S.tells → place_of 24 (next_turn self.old.turn)
            ≤ file_length (S.seen store.old self.old.slot) }
        ensures names { (self.new.path ≡ self.old.path) × (self.new.slot ≡ self.old.slot) }
        ensures appended { OnOk result (IsReady S.Store self.old store.old
            → IsAppended S.Store self.old bytes.now store.old self.new store.new) }
        ensures err { OnErr result (self.new ≡ self.old) }
        ensures any_moment { AppendLeaves S.Store self.old bytes.now store.old store.new }
        ensures beside { ReadsBeside S.Store (IsOwn self.old) store.old store.new }
        ensures cause { HasCause (S.faults store.old) (S.faults store.new) (IsErr result) }
    {
        let turn = self.turn.wrapping_add(1);
        let position = self.position.saturating_add(bytes.len() as u64);
        append_settled(store, self.path.as_str(), bytes)?;
        record_position(store, self.slot.as_str(), turn, position)?;
        self.turn = turn;
        self.position = position;
        Ok(())
    }
}
