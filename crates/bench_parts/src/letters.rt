//! Appends batches of dead letters to a queue in a `FileStore`, by a policy (bench/letters.sh).

ghost use Rattle.std.specs.Prelude.{IsTrue};
ghost use Rattle.dead_letters.specs.Appends.{AllFit};
ghost use Rattle.dead_letters.specs.Ready.{IsReady};

use crate::elements;
use dead_letters::{DeadLetter, DeadLetters, Letters};
use event_tree::{Instant, Items, Text};
use io_real::FileStore;
use io_traits::Store;
use settings_lines::Policy;
use std::alloc::Global;

/// The folder of the queue, in the one in which the program is run.
const FOLDER: &str = "letters/";

/// How many letters were appended and not given up at once.
pub fn run(rt: &HostRuntime, words: &[String]) -> Option<u64> {
    let [policy, limit, batches, letters] = words else {
        return None;
    };
    let policy = policy_of(policy.as_str())?;
    let limit = limit.as_str().parse::<u64>().ok()?;
    let batches = batches.as_str().parse::<u64>().ok()?;
    let letters = batch(rt.alloc(), letters.as_str().parse::<u64>().ok()?)?;
    let mut store = FileStore::new(rt.alloc(), rt);
    let mut queue = DeadLetters::open_on(rt.alloc(), &mut store, FOLDER, limit, policy).ok()?;
    append(&mut store, &mut queue, letters.as_slice(), batches)
}

fn policy_of(word: &str) -> Option<Policy> {
    match word {
        "hold" => Some(Policy::Hold),
        "drop_newer" => Some(Policy::DropNewer),
        "drop_older" => Some(Policy::DropOlder),
        _ => None,
    }
}

/// So many letters, all alike.
fn batch(alloc: Global, count: u64) -> Option<Letters> {
    let mut letters = Items::new(alloc);
    for _ in 0..count {
        letters.push(letter(alloc)?).ok()?;
    }
    Some(letters)
}

fn letter(alloc: Global) -> Option<DeadLetter> {
    let kind = Text::of(alloc, "json").ok()?;
    let id = Text::of(alloc, "json_4").ok()?;
    let reason = Text::of(alloc, "expected a value at byte 17").ok()?;
    let moment = Instant::from_nanos(1_709_596_801_456_000_000)?;
    let event = elements::event(alloc)?;
    Some(DeadLetter {
        kind,
        id,
        reason,
        moment,
        event,
    })
}

/// How many of so many batches of these letters were appended and not given up at once.
fn append<S: Store>(
    store: &mut S,
    queue: &mut DeadLetters,
    letters: &[DeadLetter],
    batches: u64,
) -> Option<u64>
    requires { IsReady S.Store queue.old store.old }
{
    if !all_fit(letters) {
        return None;
    }
    let mut kept = 0u64;
    for _ in 0..batches {
        let shedding = queue.append(store, letters).ok()?;
        let entered = letters.len().saturating_sub(shedding.newer.len());
        kept = kept.wrapping_add(entered as u64);
    }
    Some(kept)
}

/// Whether the records of all letters can be written.
fn all_fit(letters: &[DeadLetter]) -> bool
    ensures { IsTrue result → AllFit letters.now }
{
    for letter in letters {
        if !letter.fits_record() {
            return false;
        }
    }
    true
}
