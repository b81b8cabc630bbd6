// Appending a row to the head page.
ghost use Rattle.std.specs.Prelude.{◌≡◌, ◌<◌, ◌+◌, ◌-◌, ◌^◌, ◌++◌, IsTrue, IsErr, OnOk, OnErr, Some, length};
ghost use Rattle.io_traits.specs.Counts.{HasCause};
ghost use Rattle.io_traits.specs.Reads.{bytes_of};
ghost use Rattle.queue_page.specs.Grammar.{IsNext};
ghost use Rattle.queue_page.specs.Pages.{with_element};
ghost use Rattle.queue_page.specs.declared.row.PageRow.{PageRow as Row};
ghost use Rattle.queue_files.specs.Others.{KeepsOthers};
ghost use Rattle.queue_files.specs.Ready.{RowKept, RowReady};
ghost use Rattle.queue_files.specs.Writes.{NoneShorter};

use io_traits::{Failed, Store};
use queue_page::Page;

/// Appends the element of the next row to the head page, and settles nothing. Where it fails, the page is as
/// it was, and the file may hold a part of the element.
///
/// Of a queue that is ready a stop at any moment leaves the queue with its row, which may be missing.
pub fn add_row<S: Store>(
    store: &mut S,
    page: &mut Page,
    name: &str,
    frame: &[u8],
) -> Result<(), Failed>
    requires element { (row : Row) × IsNext page.old row frame.now }
    requires few { page.old.state.count < 2 ^ 32 - 1 }
    requires fits { page.old.state.length + length frame.now < 2 ^ 64 }

    ensures page { OnOk result (page.new ≡ with_element page.old (length frame.now)) }
    ensures err { OnErr result (page.new ≡ page.old) }
    ensures keeps { RowKept S.Store name.now frame.now store.old store.new }
    ensures ready { OnOk result (RowReady S.Store name.now frame.now store.old store.new) }
    ensures longer { OnOk result (IsTrue S.tells
        → NoneShorter (S.seen store.old) (S.seen store.new)) }
    ensures written { OnOk result (IsTrue S.tells → S.seen store.new name.now
        ≡ Some (bytes_of (S.seen store.old name.now) ++ frame.now)) }
    ensures beside { KeepsOthers S.Store (λ n. n ≡ name.now) store.old store.new }
    ensures cause { HasCause (S.faults store.old) (S.faults store.new) (IsErr result) }
{
    page.append_row(store, name, frame)
}
