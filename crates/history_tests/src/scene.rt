//! Histories with the calls of a store beside them, one a row, and what the judges say of what a stop leaves: a name, and
//! behind `:` items with `;` between them. An item is an entry (see `judged`), a call of the store, which begins with `!`
//! (see `calls`), or one of these:
//!
//! - `by LETTERS`: these are the letters that the last entry appended, and `left LETTERS` those that a stop left;
//! - `?`: for each choice of a stop, whether what it leaves agrees with the entries so far at all moments of the last call,
//!   at some or at none.

use crate::calls::make_call;
use crate::configs::FILE;
use crate::judged::{entry_of, first_word, unless_memory};
use crate::letters::letters_of;
use crate::meaning::OneOutput;
use event_tree::Text;
use history_book::Told;
use io_memory::Script;
use plain_data::Items;
use run_judges::{AppendedLetters, FilePlace, HeldLetters, Judge, Places, Witnesses};
use std::alloc::{AllocError, Global};
use store_memory::{FileTable, MemoryStore, StoreCall};

/// The folders of the queue and of the dead letters, and the position file of the output file.
pub const QUEUE: &str = "q/";

pub const DEAD: &str = "d/";

pub const SLOT: &str = "out.pos";

// All files that may stand in a store.
const NAMES: [&str; 8] = [
    "q/checkpoint.head",
    "q/page.0",
    FILE,
    SLOT,
    "d/dead.seg",
    "d/dead.log",
    "d/dead.1.log",
    "d/dead.2.log",
];

/// What was done so far.
struct Scene {
    store: MemoryStore,
    // the moment before the last call
    from: u64,
    told: Vec<Told>,
    witnesses: Witnesses,
}

// Written out, so that it is one call wherever an error is handed on.
impl Drop for Scene {
    fn drop(self) {
        let Scene {
            store: _store,
            from: _,
            told: _told,
            witnesses: _witnesses,
        } = self;
    }
}

/// Adds what the judges say in a row.
pub fn add_scene(to: &mut String, row: &str) -> Result<(), AllocError> {
    let alloc = *to.allocator();
    let (name, items) = row.split_once(':').unwrap_or((row, ""));
    write!(to, "{name}:")?;
    let mut scene = Scene {
        store: MemoryStore::new(FileTable::new(alloc), Script::empty(alloc), u64::MAX)?,
        from: 0,
        told: Vec::new(alloc),
        witnesses: Witnesses {
            letters: AppendedLetters {
                by_entries: Vec::new(alloc),
                last: None,
            },
            files: Vec::new(alloc),
        },
    };
    for item in items.split(';') {
        add_item(to, &mut scene, item)?;
    }
    Ok(())
}

fn add_item(to: &mut String, scene: &mut Scene, item: &str) -> Result<(), AllocError> {
    let alloc = *to.allocator();
    if let Some(call) = item.strip_prefix("!") {
        scene.from = scene.store.moment();
        let _fault = make_call(alloc, &mut scene.store, call);
        return Ok(());
    }
    let (kind, rest) = first_word(item);
    let letters = &mut scene.witnesses.letters;
    match kind {
        "?" => add_verdicts(to, scene)?,
        "by" => {
            let _none = letters.by_entries.pop();
            letters.by_entries.push(Some(letters_of(alloc, rest)?))?;
        }
        "left" => letters.last = Some(letters_of(alloc, rest)?),
        _ => {
            let entry = entry_of(alloc, item)?;
            scene.told.push(Told { line: 0, entry })?;
            letters.by_entries.push(None)?;
        }
    }
    Ok(())
}

fn add_verdicts(to: &mut String, scene: &Scene) -> Result<(), AllocError> {
    let alloc = *to.allocator();
    for choice in 0..4 {
        let verdict = verdict_on(alloc, scene, choice)?;
        write!(to, " {verdict}")?;
    }
    to.push_str(";")
}

// At which moments of the last call what a stop leaves agrees with the entries.
fn verdict_on(alloc: Global, scene: &Scene, choice: u64) -> Result<&'static str, AllocError> {
    let calls = scene.store.calls();
    let mut all = is_sound_at(alloc, scene, scene.from, choice)?;
    let mut some = all;
    for at in 0..calls.len() {
        if at as u64 >= scene.from && is_change(&calls[at].call) {
            if is_sound_at(alloc, scene, at as u64 + 1, choice)? {
                some = true;
            } else {
                all = false;
            }
        }
    }
    match (some, all) {
        (_, true) => Ok("all"),
        (true, false) => Ok("some"),
        (false, false) => Ok("none"),
    }
}

fn is_change(call: &StoreCall) -> bool {
    match call {
        StoreCall::List(_) | StoreCall::Length(_) | StoreCall::Read(_, _) => false,
        _ => true,
    }
}

fn is_sound_at(alloc: Global, scene: &Scene, moment: u64, choice: u64) -> Result<bool, AllocError> {
    if moment > scene.store.moment() {
        return Ok(false);
    }
    let image = table_of(alloc, &scene.store.images(moment, choice)?)?;
    let meaning = OneOutput { alloc };
    let judge = unless_memory(Judge::of(alloc, &meaning, scene.told.as_slice(), 0))?;
    let unsound = judge.unsound(&places(alloc)?, &scene.witnesses, &image);
    Ok(unless_memory(unsound)?.is_none())
}

// The files of a store.
fn table_of(alloc: Global, store: &MemoryStore) -> Result<FileTable, AllocError> {
    let mut table = FileTable::new(alloc);
    for name in NAMES {
        if let Some(bytes) = store.bytes(name) {
            let content = Items::from_vec(Vec::from_slice(alloc, bytes)?);
            let _ = table.insert(Text::of(alloc, name)?, content)?;
        }
    }
    Ok(table)
}

// Where the pipeline of each row keeps what it holds, with nothing there at first.
fn places(alloc: Global) -> Result<Places, AllocError> {
    let mut files = Vec::new(alloc);
    files.push(FilePlace {
        path: Text::of(alloc, FILE)?,
        slot: Text::of(alloc, SLOT)?,
        base: Vec::new(alloc),
    })?;
    let mut segments = Vec::new(alloc);
    segments.push(Vec::new(alloc))?;
    Ok(Places {
        queue: Text::of(alloc, QUEUE)?,
        files,
        dead: Text::of(alloc, DEAD)?,
        dead_base: HeldLetters { first: 0, segments },
    })
}
