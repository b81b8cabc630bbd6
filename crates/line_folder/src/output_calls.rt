// The calls of the output files and of the dead letters, which leave the queue ready.
ghost use Rattle.std.specs.Prelude.{◌≡◌, ◌⊎◌, ℕ, IsTrue, Ok, Err, None, IfOk, OnOk, OnErr, map};
ghost use Rattle.std.specs.List.{sum};
ghost use Rattle.io_traits.specs.Counts.{HasCause};
ghost use Rattle.io_traits.specs.Moments.{EachMoment, ReadsBeside};
ghost use Rattle.io_traits.specs.declared.queue_faults.Damage.{Damage as DamageValue};
ghost use Rattle.io_traits.specs.declared.queue_faults.QueueFault.TheVariants as f;
ghost use Rattle.slot_files.specs.Contents.{counted_in};
ghost use Rattle.dead_letters.specs.Appends.{AllFit};
ghost use Rattle.dead_letters.specs.Letters.{size_of};
ghost use Rattle.dead_letters.specs.Views.{IsOwn, behind_append, is_full, sheds};
ghost use Rattle.dead_letters.specs.Ready.{AppendLeaves, IsAppended};
ghost use Rattle.queue_core.specs.Opens.{IsReady as IsQueueReady};
ghost use Rattle.line_outputs.specs.OpenFiles.{FilesReady, IsDelivered, IsFileOf, IsOutside, LeavesDelivered, file_of, slot_in, without};
ghost use Rattle.line_outputs.specs.declared.letters.LetterFault.TheVariants as l;
ghost use Rattle.line_folder.specs.Readiness.{IsFolderReady};

use crate::folder::LineFolder;
use dead_letters::{DeadLetter, Shedding};
use io_traits::{QueueFault, Store};
use line_outputs::LetterFault;

impl LineFolder {
    /// Appends bytes to the file of a path that stands outside of the folder, as
    /// [`line_outputs::StoredOutputs::append`]. All is ready behind it, also behind an error.
    pub fn append<S: Store>(
        &mut self,
        store: &mut S,
        path: &str,
        bytes: &[u8],
    ) -> Result<(), QueueFault>
        requires ready { IsFolderReady S.Store self.old store.old }
        requires outside { IsOutside self.old.queue.folder path.now }
        ensures ready { IsFolderReady S.Store self.new store.new }
        ensures queue { self.new.queue ≡ self.old.queue }
        ensures letters { self.new.outputs.letters ≡ self.old.outputs.letters }
        ensures delivered { OnOk result (IsDelivered S.Store self.old.queue.folder path.now
            bytes.now self.old.outputs.files.files store.old self.new.outputs.files.files
            store.new) }
        ensures err { OnErr result (self.new.outputs.files.files
            ≡ without path.now self.old.outputs.files.files) }

        // Only an opening finds a damage, or no memory.
        ensures damaged { (damage : DamageValue) → result ≡ Err (f.Damaged damage)
            → (file_of path.now self.old.outputs.files.files ≡ None) × (IsTrue S.tells
            → counted_in path.now (slot_in self.old.queue.folder path.now) (S.seen store.old)
            ≡ Err damage) }
        ensures memory { result ≡ Err f.Memory
            → (file_of path.now self.old.outputs.files.files ≡ None) × (store.new ≡ store.old) }

        // Only the file of the path and its position file change.
        ensures any_moment { EachMoment S.Store store.old store.new
            (LeavesDelivered S.Store self.old.queue.folder path.now bytes.now store.old) }
        ensures beside { ReadsBeside S.Store (IsFileOf self.old.queue.folder path.now) store.old
            store.new }
        ensures cause { HasCause (S.faults store.old) (S.faults store.new) (result ≡ Err f.Fault) }
    {
        self.outputs.append(store, path, bytes)
    }

    /// Appends letters to the dead letters, as [`line_outputs::StoredOutputs::append_letters`].
    ///
    /// Behind `Full` and `Fault` the letters have to be opened again; the queue and the output files are ready.
    pub fn append_letters<S: Store>(
        &mut self,
        store: &mut S,
        letters: &[DeadLetter],
    ) -> Result<Shedding, LetterFault>
        requires ready { IsFolderReady S.Store self.old store.old }
        ensures ready { OnOk result (IsFolderReady S.Store self.new store.new) }
        ensures queue { self.new.queue ≡ self.old.queue }
        ensures queue_ready { IsQueueReady S.Store self.new.queue store.new }
        ensures files { self.new.outputs.files ≡ self.old.outputs.files }
        ensures files_ready { FilesReady S.Store self.new.outputs.files store.new }
        ensures shed { IfOk result (λ s. s ≡ sheds self.old.outputs.letters letters.now) }
        ensures appended { OnOk result (IsAppended S.Store self.old.outputs.letters letters.now
            store.old self.new.outputs.letters store.new) }
        ensures grown { OnOk result (self.new.outputs.letters
            ≡ behind_append self.old.outputs.letters letters.now) }
        ensures err { OnErr result (self.new.outputs.letters ≡ self.old.outputs.letters) }

        // It is full, and then only, where it holds all, and what it has and what is added exceed its limit.
        ensures full { AllFit letters.now → IsTrue (is_full self.old.outputs.letters letters.now)
            → result ≡ Err (l.Full (sum self.old.outputs.letters.sizes)
            (sum (map size_of letters.now)) self.old.outputs.letters.limit) }
        ensures room { (size added limit : ℕ) → result ≡ Err (l.Full size added limit)
            → IsTrue (is_full self.old.outputs.letters letters.now) }

        // A letter is too long, and then only, where not all records can be written.
        ensures long { result ≡ Err l.TooLong → AllFit letters.now → ⊥ }
        ensures fit { OnOk result (AllFit letters.now) }

        ensures same { (result ≡ Err l.TooLong) ⊎ (result ≡ Err l.Memory)
            → store.new ≡ store.old }
        ensures any_moment { AppendLeaves S.Store self.old.outputs.letters letters.now store.old
            store.new }
        ensures beside { ReadsBeside S.Store (IsOwn self.old.queue.folder) store.old store.new }
        ensures cause { HasCause (S.faults store.old) (S.faults store.new) (result ≡ Err l.Fault) }
    {
        self.outputs.append_letters(store, letters)
    }
}
