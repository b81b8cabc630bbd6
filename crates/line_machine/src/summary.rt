// What a line can do in a turn, and the choice of its next step.
ghost use Rattle.std.specs.Prelude.{◌≡◌, IfSome, None};
ghost use Rattle.line_machine.specs.Turns.{next_of, IsPossible, IsAtRest};

use crate::Act;

/// What a line can do, less what it was refused in this turn.
#[derive(Clone, Copy)]
pub struct Summary {
    /// A job is out.
    pub take: bool,
    /// The least batch that is home and has a delivery left.
    pub deliver: Option<u64>,
    /// The least batch of which all is delivered.
    pub finished: Option<u64>,
    /// A link whose oldest parcel without an answer is due one.
    pub answer: Option<usize>,
    /// So many rows were written, or acknowledged, since the last mark that another is due.
    pub due: bool,
    /// An input that has rows up to the last mark of which it wasn't told.
    pub assure: Option<usize>,
    /// A page below the head holds no row that is wanted.
    pub purge: bool,
    /// An input that holds an event.
    pub held: Option<usize>,
    /// How many rows are unread; none where no further batch can be read now.
    pub unread: u64,
    /// Some are, and they are enough for a whole batch.
    pub whole_batch: bool,
    /// Something was written, or acknowledged, since the last mark.
    pub uncovered: bool,
    /// An open input that holds no event, and isn't at its end, or at one of whose ends a parcel shows.
    pub poll: Option<usize>,
}

/// The step that comes next: a result is taken, a batch delivered, one acknowledged, a parcel answered, a due mark
/// made, an input assured, a page removed, a whole batch read, an event accepted that is held, a smaller batch read, a
/// mark made, an input polled; the first of these that the summary shows, and none where it shows none.
pub fn next(summary: &Summary) -> Option<Act>
    ensures first { result ≡ next_of summary.now }
    ensures possible { IfSome result (IsPossible summary.now) }
    ensures none { result ≡ None → IsAtRest summary.now }
    ensures rest { IsAtRest summary.now → result ≡ None }
{
    if summary.take {
        return Some(Act::Take);
    }
    if let Some(batch) = summary.deliver {
        return Some(Act::Deliver(batch));
    }
    if let Some(batch) = summary.finished {
        return Some(Act::Acknowledge(batch));
    }
    if let Some(link) = summary.answer {
        return Some(Act::Answer(link));
    }
    if summary.due {
        return Some(Act::Mark);
    }
    if let Some(input) = summary.assure {
        return Some(Act::Assure(input));
    }
    if summary.purge {
        return Some(Act::Purge);
    }
    if summary.whole_batch {
        return Some(Act::Read);
    }
    if let Some(input) = summary.held {
        return Some(Act::Accept(input));
    }
    if summary.unread > 0 {
        return Some(Act::Read);
    }
    if summary.uncovered {
        return Some(Act::Mark);
    }
    summary.poll.map(Act::Accept)
}
