//! Runs of two pipelines, one a row, and what the judges say of them: a name, and behind `:` items with `;` between them.
//! The pipeline 0 sends to the address on which 1 listens. An item is the number of a pipeline and what it does:
//!
//! - `N ENTRY`: it tells an entry (see `judged`);
//! - `0 send NUMBER EVENTS`: it sends a parcel, and `0 hear NUMBER assured` or `0 hear NUMBER none`: it hears an answer;
//! - `N link TAKEN ANSWERS`: whether the link is sound, where so many of the parcels were taken and these answers given;
//! - `1 outside LOST ANSWERS`: the same of a link from outside by which nothing was taken, where parcels of these numbers lay
//!   in the ring when the listener was closed;
//! - `N took EVENTS`: whether the box took these events;
//! - `N done TEXTS`: whether the pipeline is done, where its input 0 found these texts and then its end, and that link
//!   stands; and `N stopped LINES`: whether it has stopped, where these pipelines drain.
//!
//! What isn't legal is said in place of all that follows.

use crate::configs::{ADDRESS, BOX};
use crate::judged::{entry_of, events_of, first_number, first_word, unless_memory};
use crate::meaning::OneOutput;
use event_tree::{Events, Instant, Text};
use history_book::KeptEntry;
use history_judges::{Fault, SourceLook};
use in_lines::{Piece, Poll};
use pipeline_bus::{Answer, Heard, Parcel};
use run_judges::{Deed, InputLooks, LinkTraffic, Run};
use std::alloc::{AllocError, Global};
use store_memory::FileTable;

#[derive(Drop)]
enum Item {
    Tell(KeptEntry),
    Send(Parcel),
    Hear(Text, Answer),
    Link(LinkTraffic),
    Took(Events),
    Done(Vec<InputLooks>),
    Stopped(Vec<u32>),
}

/// Adds what the judges say of the run of a row.
pub fn add_run(to: &mut String, row: &str) -> Result<(), AllocError> {
    let alloc = *to.allocator();
    let (name, texts) = row.split_once(':').unwrap_or((row, ""));
    let mut items = Vec::new(alloc);
    for text in texts.split(';') {
        let (line, rest) = first_number(text);
        let line = u32::try_from(line).unwrap_or(0);
        let item = item_of(alloc, items.as_slice(), rest)?;
        items.push((line, item))?;
    }
    write!(to, "{name}:")?;
    add_verdicts(to, items.as_slice())
}

fn add_verdicts(to: &mut String, items: &[(u32, Item)]) -> Result<(), AllocError> {
    let alloc = *to.allocator();
    let meaning = OneOutput { alloc };
    let mut run = Run::start(alloc);
    let mut links = Vec::new(alloc);
    for (line, item) in items {
        let done = match item {
            Item::Tell(entry) => run.add(&meaning, *line, Deed::Tell(entry)),
            Item::Send(parcel) => run.add(&meaning, *line, Deed::Send(parcel)),
            Item::Hear(address, answer) => run.add(&meaning, *line, Deed::Hear(address, *answer)),
            Item::Link(link) => {
                let is_sound = unless_memory(run.link_is_sound(&meaning, link))?;
                write!(to, " link {is_sound};")?;
                links.clear();
                links.push(copy_of(alloc, link)?)?;
                Ok(())
            }
            Item::Took(events) => {
                let took = run.box_took(BOX, events.as_slice());
                write!(to, " took {took};")?;
                Ok(())
            }
            Item::Done(looks) => add_done(to, &run, *line, looks.as_slice(), links.as_slice()),
            Item::Stopped(drains) => {
                add_stopped(to, &run, *line, drains.as_slice(), links.as_slice())
            }
        };
        match done {
            Ok(()) => {}
            Err(Fault::Illegal(reason)) => return write!(to, " {reason:?}"),
            Err(Fault::Memory) => return Err(AllocError),
        }
    }
    Ok(())
}

// Whether a pipeline without files is done, by these looks.
fn add_done(
    to: &mut String,
    run: &Run,
    line: u32,
    looks: &[InputLooks],
    links: &[LinkTraffic],
) -> Result<(), Fault> {
    let alloc = *to.allocator();
    let image = FileTable::new(alloc);
    if let Some(line) = run.line(line) {
        let is_done = line.is_done(&OneOutput { alloc }, looks, links, "q/", &image)?;
        write!(to, " done {is_done};")?;
    }
    Ok(())
}

// Whether a pipeline without files has stopped, where these drain.
fn add_stopped(
    to: &mut String,
    run: &Run,
    line: u32,
    drains: &[u32],
    links: &[LinkTraffic],
) -> Result<(), Fault> {
    let image = FileTable::new(*to.allocator());
    if let Some(line) = run.line(line) {
        let is_stopped = line.is_stopped(drains, links, "q/", &image)?;
        write!(to, " stopped {is_stopped};")?;
    }
    Ok(())
}

// Looks of the input 0 that found these texts, and then the end.
fn looks_of(alloc: Global, texts: &str) -> Result<Vec<InputLooks>, AllocError> {
    let mut looks = Vec::new(alloc);
    for text in texts.split(',') {
        let bytes = Vec::from_slice(alloc, text.as_bytes())?;
        looks.push(look(alloc, Piece::Bytes(bytes))?)?;
    }
    looks.push(look(alloc, Piece::End)?)?;
    let mut all = Vec::new(alloc);
    all.push(InputLooks { input: 0, looks })?;
    Ok(all)
}

fn look(alloc: Global, piece: Piece) -> Result<SourceLook, AllocError> {
    Ok(SourceLook {
        source: Text::of(alloc, "")?,
        poll: Poll {
            moment: Instant::epoch(),
            piece,
        },
    })
}

// The numbers of pipelines.
fn lines_of(alloc: Global, text: &str) -> Result<Vec<u32>, AllocError> {
    let mut lines = Vec::new(alloc);
    for word in text.split(',') {
        if let Ok(line) = word.parse::<u32>() {
            lines.push(line)?;
        }
    }
    Ok(lines)
}

fn item_of(alloc: Global, items: &[(u32, Item)], text: &str) -> Result<Item, AllocError> {
    let (kind, rest) = first_word(text);
    let (number, said) = first_number(rest);
    match kind {
        "send" => Ok(Item::Send(Parcel {
            number,
            address: Text::of(alloc, ADDRESS)?,
            events: events_of(alloc, said)?,
        })),
        "hear" => Ok(Item::Hear(Text::of(alloc, ADDRESS)?, answer_of(number, said))),
        "link" => Ok(Item::Link(link_of(alloc, items, number, said)?)),
        "outside" => {
            let (lost, answers) = first_word(rest);
            Ok(Item::Link(outside_of(alloc, lost, answers)?))
        }
        "took" => Ok(Item::Took(events_of(alloc, rest)?)),
        "done" => Ok(Item::Done(looks_of(alloc, rest)?)),
        "stopped" => Ok(Item::Stopped(lines_of(alloc, rest)?)),
        _ => Ok(Item::Tell(entry_of(alloc, text)?)),
    }
}

fn answer_of(number: u64, said: &str) -> Answer {
    let answer = match said {
        "assured" => Heard::Assured,
        _ => Heard::NotListening,
    };
    Answer { number, answer }
}

// The link, where so many of the parcels that these items send were taken.
fn link_of(
    alloc: Global,
    items: &[(u32, Item)],
    count: u64,
    answers: &str,
) -> Result<LinkTraffic, AllocError> {
    let mut taken = Vec::new(alloc);
    for (_, item) in items {
        if let Item::Send(parcel) = item {
            if parcel.number <= count {
                taken.push(copy_parcel(parcel)?)?;
            }
        }
    }
    let mut given = Vec::new(alloc);
    for (place, said) in answers.split(',').enumerate() {
        if !said.is_empty() {
            given.push(answer_of((place as u64).saturating_add(1), said))?;
        }
    }
    Ok(LinkTraffic {
        from: Some(0),
        to: 1,
        address: Text::of(alloc, ADDRESS)?,
        place: 0,
        taken_before: 0,
        taken,
        given_before: 0,
        given,
        lost: Vec::new(alloc),
    })
}

// A link from outside, by which nothing was taken, where these are the numbers of the parcels that lay in its ring when its
// listener was closed, and the first parcels got these answers.
fn outside_of(alloc: Global, lost: &str, answers: &str) -> Result<LinkTraffic, AllocError> {
    let mut link = link_of(alloc, &[], 0, answers)?;
    link.from = None;
    for word in lost.split(',') {
        if let Ok(number) = word.parse::<u64>() {
            link.lost.push(number)?;
        }
    }
    Ok(link)
}

fn copy_parcel(parcel: &Parcel) -> Result<Parcel, AllocError> {
    let mut events = Events::new(parcel.events.allocator());
    for event in parcel.events.as_slice() {
        events.push(event.copy()?)?;
    }
    Ok(Parcel {
        number: parcel.number,
        address: parcel.address.copy()?,
        events,
    })
}

fn copy_of(alloc: Global, link: &LinkTraffic) -> Result<LinkTraffic, AllocError> {
    let mut taken = Vec::new(alloc);
    for parcel in link.taken.iter() {
        taken.push(copy_parcel(parcel)?)?;
    }
    Ok(LinkTraffic {
        from: link.from,
        to: link.to,
        address: link.address.copy()?,
        place: link.place,
        taken_before: link.taken_before,
        taken,
        given_before: link.given_before,
        given: Vec::from_slice(alloc, link.given.as_slice())?,
        lost: Vec::from_slice(alloc, link.lost.as_slice())?,
    })
}
