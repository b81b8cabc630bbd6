// A queue of dead letters that is open: appending letters and reading them.
ghost use Rattle.std.specs.Prelude.{◌≡◌, ◌≤◌, ◌<◌, ◌+◌, ◌^◌, ◌&&◌, ℕ, IsTrue, Ok, Err, length, map, nat_lt, IfOk, OnOk, OnErr};
ghost use Rattle.std.specs.List.{sum};
ghost use Rattle.io_traits.specs.Counts.{HasCause};
ghost use Rattle.io_traits.specs.Folders.{folder_start};
ghost use Rattle.io_traits.specs.Calls.{ChangesNothing};
ghost use Rattle.io_traits.specs.Moments.{EachMoment, ReadsBeside};
ghost use Rattle.io_traits.specs.declared.queue_faults.Damage.{Damage as DamageValue};
ghost use Rattle.io_traits.specs.declared.queue_faults.QueueFault.TheVariants as f;
ghost use Rattle.dead_letters.specs.Appends.{AllFit};
ghost use Rattle.dead_letters.specs.Letters.{size_of};
ghost use Rattle.dead_letters.specs.Views.{IsOwn, behind_append, holds_all, is_full, sheds};
ghost use Rattle.dead_letters.specs.Plans.{IsJoining, IsPlan};
ghost use Rattle.dead_letters.specs.Ready.{AppendLeaves, IsAppended, IsReady, held_now};
ghost use Rattle.dead_letters.specs.Opening.{IsCleared, LeavesHeld};
ghost use Rattle.dead_letters.specs.Found.{found};
ghost use Rattle.dead_letters.specs.Rows.{Answers, letters_of, rows_of};
ghost use Rattle.dead_letters.specs.declared.faults.DeadFault.TheVariants as d;

use crate::append_plan::{AppendPlan, Joining, names_from, segments_of, sizes_with};
use crate::appending::carry_out;
use crate::entries::read_rows;
use crate::faults::DeadFault;
use crate::keeping::{added_by, kept_records, record_sizes};
use crate::letter::{DeadLetter, Letters};
use crate::opening::{OpenedLetters, open_folder};
use crate::queue::{pieces, slot_name};
use crate::rows::{DeadRows, without_places};
use crate::shedding::{Shedding, shed, total};
use event_tree::{Items, Text};
use io_traits::{QueueFault, Store};
use settings_lines::Policy;
use std::alloc::{AllocError, Global};
use std::marker::Model;

/// A queue of dead letters in a folder of a store: a list of segments, of which a file of two slots names
/// those that count.
#[derive(Drop)]
pub struct DeadLetters {
    /// The path of the folder, which ends with a slash.
    folder: Text,
    /// How many bytes the segments may have in all.
    limit: u64,
    /// What is given up where that is too little.
    policy: Policy,
    /// The turn of the slot that names the segments.
    turn: u64,
    /// The number of the oldest segment.
    first: u32,
    /// How many bytes each segment has, the oldest first.
    sizes: Items<u64>,
}

impl Model for DeadLetters {
    ghost use Rattle.dead_letters.specs.Views.{DeadQueue};

    ghost Value = { DeadQueue };

    ghost view = { λ q. record {
      folder = q.folder;
      limit = q.limit;
      policy = q.policy;
      turn = q.turn;
      first = q.first;
      sizes = q.sizes;
    } };
}

impl DeadLetters {
    /// Opens the queue of a folder, whose path ends with a slash: syncs, removes the segments that its newest
    /// slot doesn't name, cuts the last one to its length and syncs. A folder of the first version, or a new
    /// one, has its one segment cut to its position and named before.
    ///
    /// It holds what the folder held, and so does the folder whenever a stop comes. `Damaged` is a last
    /// segment that ends before its length, or a file without an intact slot, longer than a slot, of those
    /// that say how much counts; or one that names a first segment above the last. Behind an error the folder
    /// can be opened again, and where memory ran out, it reads as what it held.
    pub fn open_on<S: Store>(
        alloc: Global,
        store: &mut S,
        folder: &str,
        limit: u64,
        policy: Policy,
    ) -> Result<DeadLetters, QueueFault>
        requires { folder_start folder.now ≡ folder.now }
        ensures names { IfOk result (λ q. (q.folder ≡ folder.now) × (q.limit ≡ limit)
            × (q.policy ≡ policy)) }
        ensures ready { IfOk result (λ q. IsReady S.Store q store.new) }

        // What it holds, or which damage there is, is told by what the store reads.
        ensures held { IfOk result (λ q. IsTrue S.tells
            → found folder.now (S.seen store.old) ≡ Ok (held_now q (S.seen store.new))) }
        ensures cleared { IfOk result (λ q. IsTrue S.tells → IsCleared q (S.seen store.new)) }
        ensures damaged { (damage : DamageValue) → result ≡ Err (f.Damaged damage) → IsTrue S.tells
            → found folder.now (S.seen store.old) ≡ Err damage }

        ensures any_moment { EachMoment S.Store store.old store.new
            (LeavesHeld S.Store folder.now store.old) }
        ensures beside { ReadsBeside S.Store (IsOwn folder.now) store.old store.new }
        ensures memory { result ≡ Err f.Memory → IsTrue S.tells
            → found folder.now (S.seen store.new) ≡ found folder.now (S.seen store.old) }
        ensures cause { HasCause (S.faults store.old) (S.faults store.new) (result ≡ Err f.Fault) }
    {
        let path = Text::of(alloc, folder)?;
        let OpenedLetters { turn, first, sizes } = open_folder(alloc, store, folder)?;
        Ok(DeadLetters {
            folder: path,
            limit,
            policy,
            turn,
            first,
            sizes,
        })
    }

    /// Appends letters, and gives up what its policy says where there is no room for all: writes their
    /// records behind the last segment and into new ones and syncs, then names the segments that count and
    /// syncs, and removes those that left.
    ///
    /// `Full` comes only where the queue holds all that it has, and `Memory` before the first call of the
    /// store. Behind `Fault` the queue has to be opened again.
    pub fn append<S: Store>(
        &mut self,
        store: &mut S,
        letters: &[DeadLetter],
    ) -> Result<Shedding, DeadFault>
        requires ready { IsReady S.Store self.old store.old }
        requires fit { AllFit letters.now }
        ensures shed { IfOk result (λ s. s ≡ sheds self.old letters.now) }
        ensures appended { OnOk result
            (IsAppended S.Store self.old letters.now store.old self.new store.new) }
        ensures grown { OnOk result (self.new ≡ behind_append self.old letters.now) }
        ensures err { OnErr result (self.new ≡ self.old) }

        // It is full, and then only, where it holds all, and what it has and what is added exceed its limit.
        ensures full { IsTrue (is_full self.old letters.now)
            → result ≡ Err (d.Full (sum self.old.sizes) (sum (map size_of letters.now)) self.old.limit) }
        ensures room { (size added limit : ℕ) → result ≡ Err (d.Full size added limit)
            → IsTrue (is_full self.old letters.now) }

        ensures any_moment { AppendLeaves S.Store self.old letters.now store.old store.new }
        ensures beside { ReadsBeside S.Store (IsOwn self.old.folder) store.old store.new }
        ensures memory { result ≡ Err d.Memory → store.new ≡ store.old }
        ensures cause { HasCause (S.faults store.old) (S.faults store.new) (result ≡ Err d.Fault) }
    {
        let added = added_by(letters);
        let size = total(self.sizes.as_slice());
        if self.is_over(size, added) {
            return Err(DeadFault::Full(size, added, self.limit));
        }
        let plan = self.planned(letters)?;
        carry_out(store, &plan)?;
        let AppendPlan {
            joining,
            turn,
            segments,
            sizes,
            ..
        } = plan;
        self.turn = turn;
        self.first = segments.first;
        self.sizes = sizes;
        Ok(joining.shedding)
    }

    /// The letters of the queue in order, or the first record that doesn't read, with its file. It reads one
    /// segment after the other.
    pub fn entries<S: Store>(&self, store: &mut S) -> Result<Letters, QueueFault>
        requires ready { IsReady S.Store self.now store.old }
        ensures letters { IsTrue S.tells → Answers result
            (letters_of self.now.folder (held_now self.now (S.seen store.old))) }
        ensures same { ChangesNothing S.tells S.seen S.moment S.may_leave store.old store.new }
        ensures cause { HasCause (S.faults store.old) (S.faults store.new) (result ≡ Err f.Fault) }
    {
        let rows = self.rows(store)?;
        let letters = without_places(rows)?;
        Ok(letters)
    }

    /// The letters of the queue in order, each with the place where its record ends, or the first record that
    /// doesn't read, with its file. It reads one segment after the other.
    pub fn rows<S: Store>(&self, store: &mut S) -> Result<DeadRows, QueueFault>
        requires ready { IsReady S.Store self.now store.old }
        ensures rows { IsTrue S.tells → Answers result
            (rows_of self.now.folder (held_now self.now (S.seen store.old))) }
        ensures same { ChangesNothing S.tells S.seen S.moment S.may_leave store.old store.new }
        ensures cause { HasCause (S.faults store.old) (S.faults store.new) (result ≡ Err f.Fault) }
    {
        let alloc = self.folder.allocator();
        let sizes = self.sizes.as_slice();
        read_rows(alloc, store, self.folder.as_str(), self.first, sizes)
    }

    // Whether it holds all that it has, and that and so many more bytes exceed its limit.
    fn is_over(&self, size: u128, added: u128) -> bool
        requires { size + added < 2 ^ 128 }
        ensures { result ≡ (holds_all self.now.policy && nat_lt self.now.limit (size + added)) }
    {
        match self.policy {
            Policy::Hold => u128::from(self.limit) < size + added,
            Policy::DropNewer => false,
            Policy::DropOlder => false,
        }
    }

    // What joins it in an append of these letters.
    fn joined_by(&self, letters: &[DeadLetter]) -> Result<Joining, AllocError>
        requires some { 0 < length self.now.sizes }
        requires numbers { self.now.first + length self.now.sizes ≤ 2 ^ 32 }
        requires fit { AllFit letters.now }
        ensures joins { IfOk result (λ joining. IsJoining self.now letters.now joining) }
        ensures limit { IfOk result (λ _. self.now.limit < 2 ^ 64) }
    {
        let alloc = self.folder.allocator();
        let held = self.sizes.as_slice();
        let before = held.len() - 1;
        let last = self.first + before as u32;
        let sizes = record_sizes(alloc, letters)?;
        let shedding = shed(alloc, self.policy, self.limit, held, sizes.as_slice())?;
        let records = kept_records(alloc, letters, shedding.newer.as_slice())?;
        let taken = records.sizes.as_slice();
        let pieces = pieces(alloc, self.limit, last, held[before], taken)?;
        Ok(Joining {
            shedding,
            bytes: records.bytes,
            pieces,
        })
    }

    // What an append of these letters writes and removes.
    fn planned(&self, letters: &[DeadLetter]) -> Result<AppendPlan, AllocError>
        requires some { 0 < length self.now.sizes }
        requires numbers { self.now.first + length self.now.sizes ≤ 2 ^ 32 }
        requires fit { AllFit letters.now }
        ensures { IfOk result (λ plan. IsPlan self.now letters.now plan) }
    {
        let alloc = self.folder.allocator();
        let folder = self.folder.as_str();
        let held = self.sizes.as_slice();
        let joining = self.joined_by(letters)?;
        let older = joining.shedding.older;
        let taken = joining.pieces.as_slice();
        let last = self.first + (held.len() - 1) as u32;
        let names = names_from(alloc, folder, last, taken.len() as u64)?;
        let gone = names_from(alloc, folder, self.first, older)?;
        let sizes = sizes_with(alloc, held, older as usize, taken)?;
        let slot = slot_name(alloc, folder)?;
        let segments = segments_of(self.first + older as u32, sizes.as_slice());
        Ok(AppendPlan {
            joining,
            names,
            gone,
            slot,
            turn: self.turn.wrapping_add(1),
            segments,
            sizes,
        })
    }
}
