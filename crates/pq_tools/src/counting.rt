// How many rows a folder holds that was read.
ghost use Rattle.std.specs.Prelude.{◌≡◌, ◌+◌, ◌<◌, ◌^◌, map};
ghost use Rattle.queue_files.specs.Known.{AreStated};
ghost use Rattle.queue_page.specs.Views.{PageView};
ghost use Rattle.pq_tools.specs.Counts as spec;
ghost use Rattle.pq_tools.specs.Counts.{tail_rows};

use queue_files::{OpenedQueue, SealedPage};
use queue_page::Page;

/// How many rows of a folder that was read aren't recorded as acknowledged.
pub(crate) fn open_rows(opened: &OpenedQueue) -> u64
    requires { AreStated opened.now.state opened.now.pages }
    ensures { result ≡ spec.open_rows opened.now }
{
    let tails = opened.pages.tails.as_slice();
    let pages = opened.pages.pages.as_slice();
    let top = rows_from(&opened.pages.top, opened.state.first_open);
    with_tails(tails, pages, top)
}

/// How many rows of a page come from this number on.
fn rows_from(page: &Page, first_open: u64) -> u64
    ensures { result ≡ spec.rows_from first_open page.now.state }
{
    let state = page.state();
    let closed = first_open.saturating_sub(state.least);
    u64::from(state.count).saturating_sub(closed)
}

/// Those of pages below the head, and so many of the head page.
fn with_tails(tails: &[SealedPage], pages: &[Page], top: u64) -> u64
    requires states { map (λ t. t.state) tails.now ≡ map (λ (p : PageView). p.state) pages.now }
    requires few { tail_rows tails.now pages.now + top < 2 ^ 64 }
    ensures { result ≡ tail_rows tails.now pages.now + top }
{
    let mut rows = top;
    for place in 0..tails.len() {
        rows += rows_from(&pages[place], tails[place].state.first_open);
    }
    rows
}
