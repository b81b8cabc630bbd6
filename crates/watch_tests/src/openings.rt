// Watched files over several openings.
ghost use Rattle.std.specs.Prelude.{◌≡◌, IfOk, OnOk};
ghost use Rattle.line_inputs.specs.Positions.{AreReady, stored};

use crate::files::{files_of, store};
use event_tree::{Event, Path, Value};
use in_file::{FilePlan, OpenFault};
use in_lines::{Codec, Got};
use io_traits::{Failed, Files, Store};
use line_inputs::laws::polls_and_rows_leave_it_ready;
use line_inputs::{WatchedFiles, open_files, position_path};
use plain_data::{Instant, Names};
use slot_files::{Recorded, read_position};
use std::alloc::AllocError;
use table_rows::part;

/// Adds what each call of a row answers, and what is recorded behind them.
pub fn add_run(to: &mut String, row: &str) -> Result<(), AllocError> {
    let alloc = *to.allocator();
    let (words, calls) = part(row);
    let (mut files, paths) = files_of(alloc, words)?;
    let mut store = store(alloc)?;
    add_calls(to, &mut store, &mut files, calls)?;
    to.push('|')?;
    for path in paths.as_slice() {
        add_recorded(to, &mut store, path.as_str())?;
    }
    Ok(())
}

// ---- the calls, of any store

fn add_calls<S: Store, F: Files>(
    to: &mut String,
    store: &mut S,
    files: &mut F,
    calls: &str,
) -> Result<(), AllocError> {
    let mut watched = WatchedFiles::none(*to.allocator());
    for call in calls.split_whitespace() {
        add_call(to, store, files, &mut watched, call)?;
        to.push(' ')?;
    }
    Ok(())
}

fn add_call<S: Store, F: Files>(
    to: &mut String,
    store: &mut S,
    files: &mut F,
    watched: &mut WatchedFiles,
    word: &str,
) -> Result<(), AllocError>
    requires { AreReady S.Store watched.old.files store.old }
    ensures { OnOk result (AreReady S.Store watched.new.files store.new) }
{
    let (call, value) = word.split_once(':').unwrap_or((word, ""));
    let number = value.parse().unwrap_or(0);
    polls_and_rows_leave_it_ready::<S>();
    match call {
        "o" => {
            *watched = opened(to, store, files)?;
            Ok(())
        }
        "p" => add_poll(to, files, watched),
        "n" => add_next(to, watched, number),
        "a" => add_assured(to, store, watched, number),
        _ => to.push_str(if watched.is_ended() { "ended" } else { "on" }),
    }
}

// Behind a fault the files have to be opened again.
fn add_assured<S: Store>(
    to: &mut String,
    store: &mut S,
    watched: &mut WatchedFiles,
    front: u64,
) -> Result<(), AllocError>
    requires { AreReady S.Store watched.old.files store.old }
    ensures { AreReady S.Store watched.new.files store.new }
{
    match watched.assure(store, front) {
        Ok(()) => to.push_str("assured"),
        Err(_) => {
            *watched = WatchedFiles::none(*to.allocator());
            to.push_str("failed")
        }
    }
}

fn opened<S: Store, F: Files>(
    to: &mut String,
    store: &mut S,
    files: &mut F,
) -> Result<WatchedFiles, AllocError>
    ensures { IfOk result (λ watched. AreReady S.Store watched.files store.new) }
{
    let alloc = *to.allocator();
    let plan = FilePlan {
        from_start: true,
        ends: true,
        codec: Codec::Line,
    };
    let mut earlier = Names::new(alloc);
    match open_files(alloc, store, files, "q/", "w/*", plan, &mut earlier) {
        Ok(watched) => {
            write!(to, "open:{}", earlier.len())?;
            Ok(watched)
        }
        Err(OpenFault::Memory) => Err(AllocError),
        Err(_) => {
            to.push_str("failed")?;
            Ok(WatchedFiles::none(alloc))
        }
    }
}

fn add_poll<F: Files>(
    to: &mut String,
    files: &mut F,
    watched: &mut WatchedFiles,
) -> Result<(), AllocError>
    ensures { stored watched.new.files ≡ stored watched.old.files }
{
    to.push_str(match watched.poll(files, Instant::epoch()) {
        Ok(Got::Lines) => "lines",
        Ok(Got::NotYet) => "nothing",
        Ok(Got::End) => "end",
        Err(_) => "failed",
    })
}

fn add_next(to: &mut String, watched: &mut WatchedFiles, number: u64) -> Result<(), AllocError>
    ensures { stored watched.new.files ≡ stored watched.old.files }
{
    let Some(event) = watched.next()? else {
        return to.push('-');
    };
    watched.make_room()?;
    watched.pass_on();
    watched.note_row(number);
    add_message(to, &event)
}

fn add_message(to: &mut String, event: &Event) -> Result<(), AllocError> {
    if let Ok(path) = Path::read(*to.allocator(), "message") {
        if let Some(Value::Text(text)) = event.get(&path) {
            return to.push_str(text.as_str());
        }
    }
    to.push('?')
}

fn add_recorded<S: Store>(to: &mut String, store: &mut S, path: &str) -> Result<(), AllocError> {
    let slot = position_path(*to.allocator(), "q/", path)?;
    match recorded(store, slot.as_str()) {
        Ok(Recorded::Nothing) => write!(to, " {path} nothing"),
        Ok(Recorded::Position(_, position)) => write!(to, " {path} {position}"),
        _ => write!(to, " {path} ?"),
    }
}

fn recorded<S: Store>(store: &mut S, slot: &str) -> Result<Recorded, Failed> {
    read_position(store, slot)
}
