// What is acknowledged and recorded of the pages of a queue.
ghost use Rattle.std.specs.Prelude.{◌≡◌, ◌+◌, true, length, map};
ghost use Rattle.queue_core.specs.Calls.{mark_of, marks_of, tail_marks, with_acknowledged, with_marked};

use crate::limits::Numbers;
use crate::pages::OpenPage;
use queue_files::Mark;

/// The rows of these numbers are acknowledged in all pages below the head.
pub(crate) fn acknowledge_all(tails: &mut Vec<OpenPage>, numbers: Numbers)
    ensures { tails.new.items ≡ map (with_acknowledged numbers) tails.old.items }
{
    for place in 0..tails.len() {
        tails[place].acknowledge(numbers);
    }
}

/// What is to be recorded of each page, in the marks of those below the head and of the head page.
pub(crate) fn set_marks(marks: &mut Vec<Mark>, tails: &[OpenPage], top: &OpenPage)
    requires { length marks.old.items ≡ length tails.now + 1 }
    ensures { marks.new.items ≡ marks_of tails.now top.now marks.old.items }
{
    let last = tails.len();
    set_tails(marks, tails);
    set_mark(&mut marks[last], top, true);
}

/// What is to be recorded of pages below the head, in the first marks.
fn set_tails(marks: &mut Vec<Mark>, tails: &[OpenPage])
    requires { length marks.old.items ≡ length tails.now + 1 }
    ensures { marks.new.items ≡ tail_marks tails.now marks.old.items }
{
    for place in 0..tails.len() {
        let tail = &tails[place];
        set_mark(&mut marks[place], tail, tail.is_due());
    }
}

/// What is to be recorded of a page, in its mark.
fn set_mark(mark: &mut Mark, page: &OpenPage, due: bool)
    ensures { mark.new ≡ mark_of page.now due mark.old }
{
    mark.turn = page.turn.wrapping_add(1);
    mark.state = page.state();
    mark.due = due;
}

/// What is acknowledged in pages below the head was recorded.
pub(crate) fn mark_all(tails: &mut Vec<OpenPage>)
    ensures { tails.new.items ≡ map with_marked tails.old.items }
{
    for place in 0..tails.len() {
        tails[place].mark();
    }
}
