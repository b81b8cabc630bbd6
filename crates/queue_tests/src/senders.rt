// The reader of a queue of dead letters, on a link of which a row tells what its listener does.
ghost use Rattle.std.specs.Prelude.{◌≡◌, [], length, IfOk};
ghost use Rattle.pipeline_bus.specs.Ends.{taking};
ghost use Rattle.dead_letter_reader.specs.Ready.{IsReady};
ghost use Rattle.dead_letter_reader.specs.Work.{work};

use crate::files::add_fault;
use crate::letters::add_said;
use crate::queues::{FOLDER, store_of};
use dead_letter_reader::{DeadSender, SendOutcome};
use event_json::write_json;
use event_tree::Value;
use io_traits::{QueueFault, Store};
use pipeline_bus::{Answer, Heard, Link, LinkTaker, Parcel};
use std::alloc::AllocError;
use std::str;

/// The file of the place up to which letters were answered.
const PLACE: &str = "q.dlq/dlq.pos";

/// Adds what comes of the runs of a row, with an opening and a new link before each, and what the file of the
/// place says then.
pub fn add_runs(to: &mut String, row: &str) -> Result<(), AllocError> {
    let (files, runs) = row.split_once(';').unwrap_or((row, ""));
    let mut store = store_of(*to.allocator(), u64::MAX, files)?;
    for run in runs.split(';') {
        if let Err(fault) = add_run(to, &mut store, run)? {
            add_fault(to, &store, &fault)?;
        }
        to.push_str("| ")?;
    }
    add_said(to, &mut store, PLACE)
}

fn add_run<S: Store>(
    to: &mut String,
    store: &mut S,
    run: &str,
) -> Result<Result<(), QueueFault>, AllocError> {
    let alloc = *to.allocator();
    let (sender, taker) = Link::pair(alloc)?;
    match DeadSender::open_on(alloc, store, FOLDER, sender) {
        Ok(reader) => add_words(to, store, reader, taker, run),
        Err((_, fault)) => Ok(Err(fault)),
    }
}

// What each word of a run does: `s` makes a step, and any other takes a parcel, to which `a` answers Assured and
// `n` NotListening.
fn add_words<S: Store>(
    to: &mut String,
    store: &mut S,
    reader: DeadSender,
    taker: LinkTaker,
    run: &str,
) -> Result<Result<(), QueueFault>, AllocError>
    requires ready { IsReady S.Store (work reader) store.old }
    requires given { (taking taker).given ≡ [] }
{
    let mut reader = reader;
    let mut taker = taker;
    let mut given = 0;
    for word in run.split_whitespace() {
        if word == "s" {
            match reader.step(store) {
                Ok(sent) => to.push_str(told(sent))?,
                Err(fault) => return Ok(Err(fault)),
            }
        } else {
            given = add_taken(to, &mut taker, word, given)?;
        }
        to.push_str("; ")?;
    }
    Ok(Ok(()))
}

fn told(sent: SendOutcome) -> &'static str {
    match sent {
        SendOutcome::Parcel => "parcel",
        SendOutcome::NotYet => "not yet",
        SendOutcome::Ended => "ended",
    }
}

// Takes a parcel, where there is one, and answers it by a word. So many answers were given before; it gives how
// many are then.
fn add_taken(
    to: &mut String,
    taker: &mut LinkTaker,
    word: &str,
    given: u64,
) -> Result<u64, AllocError>
    requires { length (taking taker.old).given ≡ given }
    ensures { IfOk result (λ now. length (taking taker.new).given ≡ now) }
{
    let Some(parcel) = taker.take() else {
        to.push_str("nothing")?;
        return Ok(given);
    };
    add_parcel(to, &parcel)?;
    let Some(answer) = answer_of(word) else {
        return Ok(given);
    };
    let Some(number) = given.checked_add(1) else {
        return Ok(given);
    };
    match taker.tell(Answer { number, answer }) {
        None => Ok(number),
        Some(_) => Ok(given),
    }
}

fn answer_of(word: &str) -> Option<Heard> {
    match word {
        "a" => Some(Heard::Assured),
        "n" => Some(Heard::NotListening),
        _ => None,
    }
}

// The number of a parcel, its address, how many events it has, and what the first and the last one say of their
// letters.
fn add_parcel(to: &mut String, parcel: &Parcel) -> Result<(), AllocError> {
    let events = parcel.events.as_slice();
    let (number, count) = (parcel.number, events.len());
    write!(to, "{number} to {}, {count}", parcel.address.as_str())?;
    if let (Some(first), Some(last)) = (events.first(), events.last()) {
        add_meta(to, first.meta())?;
        add_meta(to, last.meta())?;
    }
    Ok(())
}

fn add_meta(to: &mut String, meta: &Value) -> Result<(), AllocError> {
    let mut bytes = Vec::new(*to.allocator());
    write_json(meta, &mut bytes)?;
    to.push(' ')?;
    to.push_str(str::from_utf8(&bytes).unwrap_or("no UTF-8"))
}
