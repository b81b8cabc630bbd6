// The output files and the dead letters of a pipeline, in one folder of a store.
ghost use Rattle.std.specs.Prelude.{◌≡◌, ◌⊎◌, ℕ, [], IsTrue, Ok, Err, None, IfOk, OnOk, OnErr, map};
ghost use Rattle.std.specs.List.{sum};
ghost use Rattle.io_traits.specs.Counts.{HasCause};
ghost use Rattle.io_traits.specs.Folders.{folder_start};
ghost use Rattle.io_traits.specs.Moments.{EachMoment, ReadsBeside};
ghost use Rattle.io_traits.specs.declared.queue_faults.Damage.{Damage as DamageValue};
ghost use Rattle.io_traits.specs.declared.queue_faults.QueueFault.TheVariants as f;
ghost use Rattle.slot_files.specs.Contents.{counted_in};
ghost use Rattle.dead_letters.specs.Appends.{AllFit};
ghost use Rattle.dead_letters.specs.Found.{found};
ghost use Rattle.dead_letters.specs.Letters.{size_of};
ghost use Rattle.dead_letters.specs.Opening.{IsCleared, LeavesHeld};
ghost use Rattle.dead_letters.specs.Views.{IsOwn, behind_append, is_full, sheds};
ghost use Rattle.dead_letters.specs.Ready.{AppendLeaves, IsAppended, held_now};
ghost use Rattle.line_outputs.specs.OpenFiles.{FilesReady, IsDelivered, IsFileOf, IsOutside, LeavesDelivered, SameOthers, file_of, slot_in, without};
ghost use Rattle.line_outputs.specs.Readiness.{OutputsReady};
ghost use Rattle.line_outputs.specs.declared.letters.LetterFault.TheVariants as l;

use crate::files::OutputFiles;
use crate::letters::{LetterFault, append_letters};
use dead_letters::{DeadLetter, DeadLetters, Shedding};
use io_traits::{QueueFault, Store};
use settings_lines::Policy;
use std::alloc::Global;

/// The output files and the dead letters of a pipeline, which stand in one folder of a store, but for the
/// output files themselves. Their calls leave each other ready.
#[derive(Drop)]
pub struct StoredOutputs {
    pub files: OutputFiles,
    pub letters: DeadLetters,
}

impl StoredOutputs {
    /// Opens the dead letters of a folder, whose path ends with a slash. No output file is open yet.
    ///
    /// The answers are those of [`DeadLetters::open_on`]; behind an error the folder can be opened again.
    pub fn open_on<S: Store>(
        alloc: Global,
        store: &mut S,
        folder: &str,
        limit: u64,
        policy: Policy,
    ) -> Result<StoredOutputs, QueueFault>
        requires { folder_start folder.now ≡ folder.now }
        ensures files { IfOk result (λ o. o.files ≡ record { folder = folder.now; files = [] }) }
        ensures letters { IfOk result (λ o. (o.letters.folder ≡ folder.now)
            × (o.letters.limit ≡ limit) × (o.letters.policy ≡ policy)) }
        ensures ready { IfOk result (λ o. OutputsReady S.Store o.files o.letters store.new) }

        // What the letters hold, or which damage there is, is told by what the store reads.
        ensures held { IfOk result (λ o. IsTrue S.tells
            → found folder.now (S.seen store.old) ≡ Ok (held_now o.letters (S.seen store.new))) }
        ensures cleared { IfOk result (λ o. IsTrue S.tells
            → IsCleared o.letters (S.seen store.new)) }
        ensures damaged { (damage : DamageValue) → result ≡ Err (f.Damaged damage) → IsTrue S.tells
            → found folder.now (S.seen store.old) ≡ Err damage }

        ensures any_moment { EachMoment S.Store store.old store.new
            (LeavesHeld S.Store folder.now store.old) }
        ensures beside { ReadsBeside S.Store (IsOwn folder.now) store.old store.new }
        ensures memory { result ≡ Err f.Memory → IsTrue S.tells
            → found folder.now (S.seen store.new) ≡ found folder.now (S.seen store.old) }
        ensures cause { HasCause (S.faults store.old) (S.faults store.new) (result ≡ Err f.Fault) }
    {
        let files = OutputFiles::new(alloc, folder)?;
        let letters = DeadLetters::open_on(alloc, store, folder, limit, policy)?;
        Ok(StoredOutputs { files, letters })
    }

    /// Appends bytes to the file of a path that stands outside of the folder, as [`OutputFiles::append`].
    pub fn append<S: Store>(
        &mut self,
        store: &mut S,
        path: &str,
        bytes: &[u8],
    ) -> Result<(), QueueFault>
        requires ready { OutputsReady S.Store self.old.files self.old.letters store.old }
        requires outside { IsOutside self.old.files.folder path.now }
        ensures ready { OutputsReady S.Store self.new.files self.new.letters store.new }
        ensures letters { self.new.letters ≡ self.old.letters }
        ensures folder { self.new.files.folder ≡ self.old.files.folder }
        ensures delivered { OnOk result (IsDelivered S.Store self.old.files.folder path.now
            bytes.now self.old.files.files store.old self.new.files.files store.new) }
        ensures err { OnErr result (self.new.files.files
            ≡ without path.now self.old.files.files) }
        ensures closed { OnErr result (file_of path.now self.new.files.files ≡ None) }
        ensures others { SameOthers path.now self.old.files.files self.new.files.files }

        // Only an opening finds a damage, or no memory.
        ensures damaged { (damage : DamageValue) → result ≡ Err (f.Damaged damage)
            → (file_of path.now self.old.files.files ≡ None) × (IsTrue S.tells
            → counted_in path.now (slot_in self.old.files.folder path.now) (S.seen store.old)
            ≡ Err damage) }
        ensures memory { result ≡ Err f.Memory
            → (file_of path.now self.old.files.files ≡ None) × (store.new ≡ store.old) }

        ensures any_moment { EachMoment S.Store store.old store.new
            (LeavesDelivered S.Store self.old.files.folder path.now bytes.now store.old) }
        ensures beside { ReadsBeside S.Store (IsFileOf self.old.files.folder path.now) store.old
            store.new }
        ensures cause { HasCause (S.faults store.old) (S.faults store.new) (result ≡ Err f.Fault) }
    {
        self.files.append(store, path, bytes)
    }

    /// Appends letters to the dead letters, as [`append_letters`].
    ///
    /// Behind `Full` and `Fault` the letters have to be opened again; the output files are ready.
    pub fn append_letters<S: Store>(
        &mut self,
        store: &mut S,
        letters: &[DeadLetter],
    ) -> Result<Shedding, LetterFault>
        requires ready { OutputsReady S.Store self.old.files self.old.letters store.old }
        ensures ready { OnOk result
            (OutputsReady S.Store self.new.files self.new.letters store.new) }
        ensures files { self.new.files ≡ self.old.files }
        ensures files_ready { FilesReady S.Store self.new.files store.new }
        ensures shed { IfOk result (λ s. s ≡ sheds self.old.letters letters.now) }
        ensures appended { OnOk result (IsAppended S.Store self.old.letters letters.now store.old
            self.new.letters store.new) }
        ensures grown { OnOk result (self.new.letters
            ≡ behind_append self.old.letters letters.now) }
        ensures err { OnErr result (self.new.letters ≡ self.old.letters) }

        // It is full, and then only, where it holds all, and what it has and what is added exceed its limit.
        ensures full { AllFit letters.now → IsTrue (is_full self.old.letters letters.now)
            → result ≡ Err (l.Full (sum self.old.letters.sizes) (sum (map size_of letters.now))
            self.old.letters.limit) }
        ensures room { (size added limit : ℕ) → result ≡ Err (l.Full size added limit)
            → IsTrue (is_full self.old.letters letters.now) }

        // A letter is too long, and then only, where not all records can be written.
        ensures long { result ≡ Err l.TooLong → AllFit letters.now → ⊥ }
        ensures fit { OnOk result (AllFit letters.now) }

        ensures same { (result ≡ Err l.TooLong) ⊎ (result ≡ Err l.Memory)
            → store.new ≡ store.old }
        ensures any_moment { AppendLeaves S.Store self.old.letters letters.now store.old
            store.new }
        ensures beside { ReadsBeside S.Store (IsOwn self.old.letters.folder) store.old store.new }
        ensures cause { HasCause (S.faults store.old) (S.faults store.new) (result ≡ Err l.Fault) }
    {
        append_letters(&mut self.letters, store, letters)
    }
}
