// A new head page, which is begun for a row behind a mark.
ghost use Rattle.std.specs.Prelude.{◌≡◌, ◌⊎◌, ◌<◌, ◌-◌, ◌^◌, suc, length, IsErr, IfOk, OnOk};
ghost use Rattle.io_traits.specs.Counts.{HasCause};
ghost use Rattle.queue_page.specs.Pages.{with_element};
ghost use Rattle.queue_files.specs.Others.{IsMarked, KeepsOthers};
ghost use Rattle.queue_files.specs.Ready.{IsOfNext};
ghost use Rattle.queue_core.specs.Calls.{with_recorded};
ghost use Rattle.queue_core.specs.Views.{QueueView};
ghost use Rattle.queue_core.specs.Writing.{next_page, BeginAdds, BeginKeeps, IsBegin};

use crate::pages::OpenPage;
use io_traits::{Failed, PageState, Store};
use queue_files::{
    Mark, NextPage, add_row, begin_page, checkpoint_name, head_name, mark_pages, page_name,
};
use queue_page::Page;
use std::alloc::{AllocError, Global};

/// What is to be written for the page behind the head page, once all is recorded.
pub(crate) fn next_page(alloc: Global, folder: &str, top: &OpenPage) -> Result<NextPage, AllocError>
    requires { suc top.now.number < 2 ^ 32 - 1 }
    ensures { IfOk result (λ next. next ≡ next_page folder.now (with_recorded top.now)) }
{
    let number = top.number + 1;
    let checkpoint = checkpoint_name(alloc, folder, top.number)?;
    let file = page_name(alloc, folder, number)?;
    let head = head_name(alloc, folder)?;
    let least = top.end();
    Ok(NextPage {
        checkpoint,
        sealed: top.state(),
        file,
        head,
        turn: top.turn.wrapping_add(1).wrapping_add(1),
        state: PageState {
            page: number,
            first_open: least,
            least,
            count: 0,
            length: 1,
        },
    })
}

/// Records all of a queue, begins the page behind its head page, and appends the element of a row to it.
///
/// A stop at any moment leaves the queue, or the one with the row, which may be missing.
pub(crate) fn begin<S: Store>(
    store: &mut S,
    marks: &[Mark],
    next: &NextPage,
    frame: &[u8],
) -> Result<Page, Failed>
    requires plan { (v : QueueView)
        × IsBegin S.Store v marks.now next.now frame.now store.old }
    requires short { length frame.now < 2 ^ 32 }
    ensures page { IfOk result (λ page. page
        ≡ with_element (record { version = 2; state = next.now.state }) (length frame.now)) }
    ensures keeps { BeginKeeps S.Store marks.now next.now frame.now store.old store.new }
    ensures adds { OnOk result
        (BeginAdds S.Store marks.now next.now frame.now store.old store.new) }
    ensures beside { KeepsOthers S.Store
        (λ n. IsMarked marks.now n ⊎ IsOfNext next.now n) store.old store.new }
    ensures cause { HasCause (S.faults store.old) (S.faults store.new) (IsErr result) }
{
    mark_pages(store, marks)?;
    begin_page(store, next)?;
    let mut page = Page::start(next.state);
    add_row(store, &mut page, next.file.as_str(), frame)?;
    Ok(page)
}
