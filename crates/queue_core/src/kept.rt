// Rows that were written, kept for the batch that gives them.
ghost use Rattle.std.specs.Prelude.{◌≡◌, ◌≤◌, ◌⊎◌, ◌+◌, ◌++◌, ◌∷◌, [], ℕ, List, IfSome, IsTrue, ◌-◌, option_to_list};
ghost use Rattle.queue_core.specs.Kept.{AreKept, StandsIn};

use queue_page::PageRow;
use std::alloc::Global;
use std::collections::VecDeque;
use std::marker::Model;

/// How many bytes the elements of the rows may have that are kept: 1 MiB.
const MOST_BYTES: u64 = 1_048_576;

/// The bytes that an element has beside its body.
const FRAME_LEN: u64 = 16;

/// A row that was written, and where it stands.
#[derive(Drop)]
pub(crate) struct KeptRow {
    /// The number of its page.
    pub(crate) page: u32,
    /// Where it begins in the file of that page.
    pub(crate) place: u64,
    /// The row.
    pub(crate) row: PageRow,
}

/// Rows that were written and weren't given yet, in the order in which they were written. Some may be missing: they
/// are read of their page.
#[derive(Drop)]
pub(crate) struct KeptRows {
    rows: VecDeque<KeptRow>,
    /// How many bytes their elements have.
    bytes: u64,
}

impl Model for KeptRows {
    ghost use Rattle.std.specs.Prelude.{List};
    ghost use Rattle.queue_core.specs.declared.kept.KeptRow.{KeptRow};
    ghost use Rattle.std.specs.Coded.{codes};
    ghost use Rattle.event_tree.specs.contracts.value.Value as tree;

    ghost Value = { List KeptRow };

    ghost coded = { Prim.hlevel (codes, tree.the_row.coded) };

    ghost view = { λ kept. kept.rows.items };
}

impl KeptRows {
    /// No rows, and no memory yet.
    pub(crate) fn new(alloc: Global) -> KeptRows
        ensures { result ≡ [] }
    {
        KeptRows {
            rows: VecDeque::new(alloc),
            bytes: 0,
        }
    }

    /// Keeps a row that was written behind the others, where their elements have no more bytes than they may and
    /// there is memory.
    pub(crate) fn push(&mut self, kept: KeptRow)
        ensures { (self.new ≡ self.old ++ kept ∷ []) ⊎ (self.new ≡ self.old) }
    {
        let bytes = self.bytes.saturating_add(size_of(&kept));
        if bytes > MOST_BYTES {
            return;
        }
        if self.rows.push_back(kept).is_ok() {
            self.bytes = bytes;
        }
    }

    /// The row of this number that begins at this place of this page, if it is kept. Where one before it
    /// is the first, all go.
    pub(crate) fn take(&mut self, page: u32, number: u64, place: u64) -> Option<PageRow>
        ensures number { IfSome result (λ row. row.number ≡ number) }
        ensures behind { IfSome result (λ row. place + 16 ≤ row.next) }
        ensures stands { IfSome result (λ row. (version : ℕ) (file : List ℕ)
            → AreKept page version file self.old
            → StandsIn version file (record { page = page; place = place; row = row })) }
        ensures kept { (top version : ℕ) (file : List ℕ) → AreKept top version file self.old
            → AreKept top version file self.new }
    {
        if self.rows.front()?.row.number > number {
            return None;
        }
        let kept = self.pop()?;
        if !kept.is_at(page, number, place) {
            self.rows.clear();
            self.bytes = 0;
            return None;
        }
        Some(kept.row)
    }

    /// The first row, which goes.
    fn pop(&mut self) -> Option<KeptRow>
        ensures { self.old ≡ option_to_list result ++ self.new }
    {
        let kept = self.rows.pop_front()?;
        self.bytes = self.bytes.saturating_sub(size_of(&kept));
        Some(kept)
    }
}

impl KeptRow {
    /// Whether it is the row of this number, and begins at this place of this page.
    fn is_at(&self, page: u32, number: u64, place: u64) -> bool
        ensures page { IsTrue result → self.now.page ≡ page }
        ensures place { IsTrue result → self.now.place ≡ place }
        ensures number { IsTrue result → self.now.row.number ≡ number }
        ensures behind { IsTrue result → place + 16 ≤ self.now.row.next }
    {
        self.page == page
            && self.place == place
            && self.row.number == number
            && size_of(self) >= FRAME_LEN
    }
}

/// How many bytes the element of a row has.
fn size_of(kept: &KeptRow) -> u64
    ensures { result ≡ kept.now.row.next - kept.now.place }
{
    kept.row.next.saturating_sub(kept.place)
}
