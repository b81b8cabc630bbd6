//! Tells an entry of each kind to a book of each kind, and prints what is kept of it: the pipeline, the kind, and how
//! many items it has. Behind that it prints what the judges say of the histories in `data/histories`, one a row (see
//! `judged`): that it is legal, or the place of the first entry that isn't, and why.
//!
//! What is expected of the histories is what `data/histories.py` says, which goes by the tables of legal histories alone.
//! Behind these it prints what the judges say of what a stop leaves in the scenes of `data/scenes` (see `scene`), of which
//! `data/scenes.py` says what is expected. Last it prints what they say of the runs of `data/runs` (see `runs`), whose
//! answers were worked out by hand.
#![tactic(auto)]

mod calls;
mod configs;
mod judged;
mod laws;
mod letters;
mod meaning;
mod parting;
mod runs;
mod scene;

use config_tree::Config;
use element_code::Origin;
use event_tree::{DeadPart, Event, Text};
use foreign_parts::{Fate, Place, Verdict};
use history_book::{BlankBook, Book, Entry, FullBook, KeptEntry, ParcelAt};
use plain_data::Items;
use queue_core::QueueRow;
use settings_lines::Policy;
use std::alloc::{AllocError, Global};
use std::{fs, io};

fn main(rt: HostRuntime) -> io::Result<()> {
    let mut full = FullBook::new(rt.alloc());
    let mut blank = BlankBook;
    tell_each(rt.alloc(), &mut blank)?;
    tell_each(rt.alloc(), &mut full)?;
    for told in full.entries() {
        let (kind, count) = kind_of(&told.entry);
        println!(rt; "{} {kind} {count}", told.line)?;
    }
    println!(rt; "all of it: {}", full.is_whole())?;
    for row in fs::read_to_string(&rt, "histories")?.lines() {
        let mut answer = String::new(rt.alloc());
        judged::add_judged(&mut answer, row)?;
        println!(rt; "{answer}")?;
    }
    for row in fs::read_to_string(&rt, "scenes")?.lines() {
        let mut answer = String::new(rt.alloc());
        scene::add_scene(&mut answer, row)?;
        println!(rt; "{answer}")?;
    }
    for row in fs::read_to_string(&rt, "runs")?.lines() {
        let mut answer = String::new(rt.alloc());
        runs::add_run(&mut answer, row)?;
        println!(rt; "{answer}")?;
    }
    Ok(())
}

fn tell_each<B: Book>(alloc: Global, book: &mut B) -> Result<(), AllocError> {
    tell_opening(alloc, book)?;
    tell_rows(alloc, book);
    tell_back(alloc, book)?;
    tell_deliveries(alloc, book)?;
    tell_ends(book);
    Ok(())
}

fn tell_opening<B: Book>(alloc: Global, book: &mut B) -> Result<(), AllocError> {
    let row = QueueRow {
        number: 7,
        origin: Origin::Id(Text::of(alloc, "stdin_1")?),
        event: Event::new(alloc),
    };
    let draws = [(Text::of(alloc, "foreign_1")?, 2)];
    let config = Config {
        inputs: Items::new(alloc),
        filters: Items::new(alloc),
        outputs: Items::new(alloc),
    };
    book.tell(
        0,
        Entry::Opened {
            rows: &[row],
            limit: 1_048_576,
            policy: Policy::DropOlder,
        },
    );
    book.tell(
        0,
        Entry::Adopt {
            generation: 1,
            config: &config,
            draws: &draws,
        },
    );
    Ok(())
}

fn tell_rows<B: Book>(alloc: Global, book: &mut B) {
    let event = Event::new(alloc);
    let parcel = ParcelAt {
        place: 0,
        number: 3,
    };
    book.tell(
        1,
        Entry::Accept {
            input: 0,
            parcel: Some(parcel),
            number: 8,
            event: &event,
        },
    );
    book.tell(
        1,
        Entry::Read {
            batch: 1,
            generation: 1,
            numbers: &[7, 8],
        },
    );
}

fn tell_back<B: Book>(alloc: Global, book: &mut B) -> Result<(), AllocError> {
    let mut events = Items::with_capacity(alloc, 1)?;
    events.push(Event::new(alloc))?;
    let verdict = Verdict {
        events,
        matched: true,
    };
    book.tell(
        0,
        Entry::Back {
            batch: 1,
            verdicts: &[verdict],
        },
    );
    Ok(())
}

fn tell_deliveries<B: Book>(alloc: Global, book: &mut B) -> Result<(), AllocError> {
    let letter = DeadPart {
        kind: Text::of(alloc, "http")?,
        id: Text::of(alloc, "http_1")?,
        reason: Text::of(alloc, "status 400: bad")?,
        event: Event::new(alloc),
    };
    let fates = [Fate::Took, Fate::Rejected(400, Text::of(alloc, "bad")?)];
    book.tell(
        0,
        Entry::Shed {
            batch: 1,
            older: 1,
            newer: &[],
        },
    );
    book.tell(
        0,
        Entry::Letters {
            batch: 1,
            letters: &[letter],
        },
    );
    book.tell(
        0,
        Entry::Deliver {
            batch: 1,
            place: &Place::Foreign(2),
            events: &[Event::new(alloc), Event::new(alloc)],
            fates: &fates,
        },
    );
    Ok(())
}

fn tell_ends<B: Book>(book: &mut B) {
    book.tell(0, Entry::Ack { batch: 1 });
    book.tell(0, Entry::Mark { front: 8 });
    book.tell(0, Entry::Assure { input: 0, front: 8 });
    book.tell(0, Entry::Purge { page: 0 });
}

// The kind of an entry, and how many items it has.
fn kind_of(entry: &KeptEntry) -> (&'static str, usize) {
    match entry {
        KeptEntry::Accept { .. } => ("accept", 1),
        KeptEntry::Mark { .. } => ("mark", 0),
        KeptEntry::Assure { .. } => ("assure", 0),
        KeptEntry::Read { numbers, .. } => ("read", numbers.len()),
        KeptEntry::Back { verdicts, .. } => ("back", verdicts.len()),
        KeptEntry::Shed { newer, .. } => ("shed", newer.len()),
        KeptEntry::Deliver { fates, .. } => ("deliver", fates.len()),
        KeptEntry::Letters { letters, .. } => ("letters", letters.len()),
        KeptEntry::Ack { .. } => ("ack", 0),
        KeptEntry::Purge { .. } => ("purge", 0),
        KeptEntry::Adopt { draws, .. } => ("adopt", draws.len()),
        KeptEntry::Opened { rows, .. } => ("opened", rows.len()),
    }
}
