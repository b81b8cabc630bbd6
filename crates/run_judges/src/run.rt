// What several pipelines did, in order: what they told, what they sent and what they heard.

use event_tree::{Event, Text};
use foreign_parts::{Fate, Place};
use history_book::{KeptEntry, Told};
use history_judges::rejections::same_events;
use history_judges::{Due, Fault, Judged, Meaning, Out, Reason, State, want};
use pipeline_bus::{Answer, Heard, Parcel};
use std::alloc::Global;

/// What a pipeline does that others can know of.
#[derive(Clone, Copy)]
pub enum Deed<'a> {
    Tell(&'a KeptEntry),
    /// A parcel was sent to its address.
    Send(&'a Parcel),
    /// An answer was heard from this address.
    Hear(&'a Text, Answer),
}

/// A parcel that was sent, and the number of deeds before it.
#[derive(Clone, Copy)]
pub struct SentParcel<'a> {
    pub at: usize,
    pub parcel: &'a Parcel,
}

/// An address that lost its listener by an adoption, and the number of deeds before that.
#[derive(Drop)]
pub struct ClosedAddress {
    pub at: usize,
    pub address: Text,
}

/// One pipeline of a run: where it stands, and what it did since it was last opened.
#[derive(Drop)]
pub struct Line<'a> {
    pub number: u32,
    pub state: State<'a>,
    pub sent: Vec<SentParcel<'a>>,
    pub heard: Vec<(&'a Text, Answer)>,
    /// The parcels that an answer assured, which served no delivery yet.
    pub assured: Vec<&'a Parcel>,
    pub closings: Vec<ClosedAddress>,
}

/// A run: its pipelines, and what stdout and boxes were given since any of them was last opened.
#[derive(Drop)]
pub struct Run<'a> {
    pub lines: Vec<Line<'a>>,
    pub printed: Vec<u8>,
    pub boxed: Vec<(u64, &'a Event)>,
    pub deeds: usize,
}

impl<'a> Run<'a> {
    /// Nothing was done yet. It takes no memory.
    pub fn start(alloc: Global) -> Run<'a> {
        Run {
            lines: Vec::new(alloc),
            printed: Vec::new(alloc),
            boxed: Vec::new(alloc),
            deeds: 0,
        }
    }

    /// All that a book kept.
    pub fn of_book<M: Meaning>(alloc: Global, meaning: &M, book: &'a [Told]) -> Judged<Run<'a>> {
        let mut run = Run::start(alloc);
        for told in book {
            run.add(meaning, told.line, Deed::Tell(&told.entry))?;
        }
        Ok(run)
    }

    /// One deed more of the pipeline of this number. Where it isn't legal, or memory is wanted, the run is of no more use.
    pub fn add<M: Meaning>(&mut self, meaning: &M, number: u32, deed: Deed<'a>) -> Judged<()> {
        if let Deed::Tell(KeptEntry::Opened { .. }) = deed {
            self.printed.clear();
            self.boxed.clear();
        }
        let mut line = self.taken_line(number);
        self.give(meaning, &line, deed)?;
        line.add(meaning, self.deeds, deed)?;
        self.lines.push(line)?;
        self.deeds = self.deeds.saturating_add(1);
        Ok(())
    }

    /// The pipeline of this number.
    pub fn line(&self, number: u32) -> Option<&Line<'a>> {
        self.lines.iter().find(|line| line.number == number)
    }

    // The same, taken out; a new one, where it did nothing yet.
    fn taken_line(&mut self, number: u32) -> Line<'a> {
        let alloc = *self.lines.allocator();
        match self.lines.iter().position(|line| line.number == number) {
            Some(at) if at < self.lines.len() => self.lines.remove(at),
            _ => Line {
                number,
                state: State::start(alloc),
                sent: Vec::new(alloc),
                heard: Vec::new(alloc),
                assured: Vec::new(alloc),
                closings: Vec::new(alloc),
            },
        }
    }

    // What a delivery gives to stdout, or to a box that took its events.
    fn give<M: Meaning>(&mut self, meaning: &M, line: &Line<'a>, deed: Deed<'a>) -> Judged<()> {
        let Deed::Tell(
            KeptEntry::Deliver {
                batch,
                place,
                events,
                fates,
            },
        ) = deed
        else {
            return Ok(());
        };
        match (place, line.state.batch(*batch)) {
            (Place::Stdout, Some(out)) => {
                if let Some(Due::Events(due)) = out.next() {
                    let bytes = meaning.bytes(out.plan.config, &due.id, events.as_slice())?;
                    self.printed.extend_from_slice(bytes.as_slice())?;
                }
            }
            (Place::Foreign(number), _) => {
                for (event, fate) in events.as_slice().iter().zip(fates.as_slice()) {
                    if let Fate::Took = fate {
                        self.boxed.push((*number, event))?;
                    }
                }
            }
            _ => {}
        }
        Ok(())
    }
}

impl<'a> Line<'a> {
    fn add<M: Meaning>(&mut self, meaning: &M, at: usize, deed: Deed<'a>) -> Judged<()> {
        match deed {
            Deed::Tell(entry) => self.tell(meaning, at, entry),
            Deed::Send(parcel) => self.send(at, parcel),
            Deed::Hear(address, answer) => self.hear(address, answer),
        }
    }

    // An entry is legal; and a delivery to an address is told only once an answer was heard, since the pipeline was
    // opened, that assures a parcel of exactly these events. Each such answer serves one.
    fn tell<M: Meaning>(&mut self, meaning: &M, at: usize, entry: &'a KeptEntry) -> Judged<()> {
        let was_open = self.open_inputs()?;
        self.state.step(meaning, entry)?;
        match entry {
            KeptEntry::Opened { .. } => {
                self.sent.clear();
                self.heard.clear();
                self.assured.clear();
                self.closings.clear();
            }
            KeptEntry::Adopt { .. } => self.close(meaning, at, was_open.as_slice())?,
            KeptEntry::Deliver { place, events, .. } => {
                if let Place::Address(address) = place {
                    self.serve(address, events.as_slice())?;
                }
            }
            _ => {}
        }
        Ok(())
    }

    fn open_inputs(&self) -> Judged<Vec<usize>> {
        let mut open = Vec::new(self.state.alloc());
        for input in self.state.inputs.iter() {
            if input.is_open {
                open.push(input.number)?;
            }
        }
        Ok(open)
    }

    // The addresses of inputs that were open and are closed now lost their listeners.
    fn close<M: Meaning>(&mut self, meaning: &M, at: usize, was_open: &[usize]) -> Judged<()> {
        for input in self.state.inputs.iter() {
            if !input.is_open && was_open.contains(&input.number) {
                if let Some(address) = meaning.address(input.statement)? {
                    self.closings.push(ClosedAddress { at, address })?;
                }
            }
        }
        Ok(())
    }

    fn serve(&mut self, address: &Text, events: &[Event]) -> Judged<()> {
        let serving = self.assured.iter().position(|parcel| {
            parcel.address == *address && same_events(parcel.events.as_slice(), events)
        });
        match serving {
            Some(at) if at < self.assured.len() => {
                self.assured.remove(at);
                Ok(())
            }
            _ => Err(Fault::Illegal(Reason::Unanswered)),
        }
    }

    // A parcel has the next number on its way; and what events it has are the next delivery to its address that is due
    // of a batch.
    fn send(&mut self, at: usize, parcel: &'a Parcel) -> Judged<()> {
        let next = if parcel.is_last() {
            0
        } else {
            self.filled(&parcel.address).saturating_add(1)
        };
        want(parcel.number == next, Reason::Parcel)?;
        let is_due = self.state.out.iter().any(|out| is_next_for(out, parcel));
        want(parcel.is_last() || is_due, Reason::NotDue)?;
        self.sent.push(SentParcel { at, parcel })?;
        Ok(())
    }

    // How many parcels with events were sent to an address.
    fn filled(&self, address: &Text) -> u64 {
        let filled = |sent: &&SentParcel| sent.parcel.address == *address && !sent.parcel.is_last();
        self.sent.iter().filter(filled).count() as u64
    }

    // An answer is that of the oldest parcel with events that has none.
    fn hear(&mut self, address: &'a Text, answer: Answer) -> Judged<()> {
        let heard = self.heard.iter().filter(|heard| heard.0 == address);
        let count = heard.count() as u64;
        want(answer.number == count.saturating_add(1), Reason::Answer)?;
        want(count < self.filled(address), Reason::Answer)?;
        if answer.answer == Heard::Assured {
            for sent in self.sent.iter() {
                if sent.parcel.number == answer.number && sent.parcel.address == *address {
                    self.assured.push(sent.parcel)?;
                }
            }
        }
        self.heard.push((address, answer))?;
        Ok(())
    }
}

// Whether the events of a parcel are the next delivery of a batch, to its address.
fn is_next_for(out: &Out, parcel: &Parcel) -> bool {
    match out.next() {
        Some(Due::Events(due)) => match &due.place {
            Place::Address(address) => {
                *address == parcel.address
                    && same_events(due.events.as_slice(), parcel.events.as_slice())
            }
            _ => false,
        },
        _ => false,
    }
}
