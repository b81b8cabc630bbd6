// The rule of each entry, and where a pipeline stands behind it.

use crate::meaning::{Due, Meaning, Plan};
use crate::reason::{Fault, Judged, Reason, want};
use crate::rejections::{
    are_below, are_kept, are_some_rejected, fates_fit, is_box, rejections, same_events, same_place,
};
use crate::state::{Between, Input, Limits, Out, Shed, State, Written};
use config_tree::Config;
use event_tree::{DeadPart, Event, Text};
use foreign_parts::{Fate, Place, Verdict};
use history_book::{KeptEntry, ParcelAt};
use queue_core::QueueRow;
use settings_lines::Policy;
use std::alloc::AllocError;
use std::mem;

impl<'a> State<'a> {
    /// One more entry. Where it isn't legal, or memory is wanted, the state is of no more use.
    pub fn step<M: Meaning>(&mut self, meaning: &M, entry: &'a KeptEntry) -> Judged<()> {
        match entry {
            KeptEntry::Accept {
                input,
                parcel,
                number,
                event,
            } => self.accept(*input, *parcel, *number, event),
            KeptEntry::Mark { front } => self.mark(*front),
            KeptEntry::Assure { input, front } => self.assure(*input, *front),
            KeptEntry::Read {
                batch,
                generation,
                numbers,
            } => self.read_batch(*batch, *generation, numbers.as_slice()),
            KeptEntry::Back { batch, verdicts } => {
                self.bring_back(meaning, *batch, verdicts.as_slice())
            }
            KeptEntry::Shed {
                batch,
                older,
                newer,
            } => self.shed(*batch, *older, newer.as_slice()),
            KeptEntry::Deliver {
                batch,
                place,
                events,
                fates,
            } => self.deliver(*batch, place, events.as_slice(), fates.as_slice()),
            KeptEntry::Letters { batch, letters } => { self.letters(*batch, letters.as_slice()) }
            KeptEntry::Ack { batch } => self.acknowledge(*batch),
            KeptEntry::Purge { page: _page } => self.running().map(|_plan| ()),
            KeptEntry::Adopt {
                generation,
                config,
                draws,
            } => self.adopt(meaning, *generation, config, draws.as_slice()),
            KeptEntry::Opened {
                rows,
                limit,
                policy,
            } => self.open(rows.as_slice(), *limit, *policy),
        }
    }

    fn accept(
        &mut self,
        input: usize,
        parcel: Option<ParcelAt>,
        number: u64,
        event: &'a Event,
    ) -> Judged<()> {
        self.running()?;
        let next = u128::from(number);
        want(self.low <= next && next <= self.high, Reason::Number)?;
        let Some(by) = self.inputs.iter().find(|by| by.number == input) else {
            return Err(Fault::Illegal(Reason::Input));
        };
        want(by.is_open || parcel.is_some(), Reason::Input)?;
        let row = Written {
            number,
            event,
            input,
            parcel,
            statement: by.statement,
            id: by.id.copy()?,
            is_new: true,
        };
        self.rows.push(row)?;
        self.low = next + 1;
        self.high = next + 1;
        Ok(())
    }

    fn mark(&mut self, front: u64) -> Judged<()> {
        self.running()?;
        let next = u128::from(front) + 1;
        want(self.low <= next && next <= self.high, Reason::Number)?;
        self.front = front;
        self.low = next;
        self.high = next;
        Ok(())
    }

    fn assure(&mut self, input: usize, front: u64) -> Judged<()> {
        self.running()?;
        want(front == self.front, Reason::Front)?;
        self.assured.push((input, front))?;
        Ok(())
    }

    fn read_batch(&mut self, batch: u64, generation: u64, numbers: &'a [u64]) -> Judged<()> {
        let plan = self.running()?;
        want(generation == plan.generation, Reason::Generation)?;
        want(!self.batches.contains(&batch), Reason::Used)?;
        want(!numbers.is_empty(), Reason::Empty)?;
        let events = self.first_events(numbers)?;
        self.read.extend_from_slice(numbers)?;
        self.batches.push(batch)?;
        let out = Out {
            batch,
            plan,
            numbers,
            events,
            is_back: false,
            due: Vec::new(self.alloc()),
            told: 0,
        };
        self.out.push(out)?;
        Ok(())
    }

    // The events of the first rows that are neither acknowledged nor in a batch, if these are their numbers.
    fn first_events(&self, numbers: &[u64]) -> Judged<Vec<&'a Event>> {
        let mut events = Vec::new(self.alloc());
        let mut left = numbers;
        for row in self.rows.iter() {
            if let [number, later @ ..] = left {
                if self.is_unread(row.number) {
                    want(*number == row.number, Reason::NotFirst)?;
                    events.push(row.event)?;
                    left = later;
                }
            }
        }
        want(left.is_empty(), Reason::NotFirst)?;
        Ok(events)
    }

    fn is_unread(&self, number: u64) -> bool {
        !self.acknowledged.contains(&number) && !self.read.contains(&number)
    }

    fn bring_back<M: Meaning>(
        &mut self,
        meaning: &M,
        batch: u64,
        verdicts: &[Verdict],
    ) -> Judged<()> {
        self.running()?;
        let Some(out) = self.out.iter_mut().find(|out| out.batch == batch) else {
            return Err(Fault::Illegal(Reason::NotOut));
        };
        want(!out.is_back, Reason::BackAgain)?;
        let derived = meaning.due(out.plan, out.events.as_slice(), verdicts)?;
        want(derived.exactly, Reason::Verdicts)?;
        out.is_back = true;
        out.due = derived.due;
        Ok(())
    }

    // The next of what is due of a batch was told.
    fn tell_next(&mut self, batch: u64) {
        self.between = Between::Nothing;
        if let Some(out) = self.out.iter_mut().find(|out| out.batch == batch) {
            out.told = out.told.saturating_add(1);
        }
    }

    fn shed(&mut self, batch: u64, older: u64, newer: &'a [usize]) -> Judged<()> {
        self.running()?;
        let may = match self.limits.map_or(Policy::Hold, |limits| limits.policy) {
            Policy::Hold => false,
            Policy::DropNewer => older == 0,
            Policy::DropOlder => true,
        };
        want(may, Reason::Policy)?;
        want(older != 0 || !newer.is_empty(), Reason::Nothing)?;
        let out = self.batch_back(batch)?;
        let rise = newer.iter().zip(newer.iter().skip(1)).all(|(a, b)| a < b);
        want(rise, Reason::Order)?;
        let count = match out.next() {
            Some(Due::Letters(letters)) => letters.len(),
            Some(Due::Events(due)) if is_box(&due.place) => due.events.len(),
            _ => return Err(Fault::Illegal(Reason::Places)),
        };
        want(are_below(newer, count), Reason::Places)?;
        self.between = Between::Shed(batch, Shed { older, newer });
        Ok(())
    }

    fn deliver(
        &mut self,
        batch: u64,
        place: &Place,
        events: &[Event],
        fates: &[Fate],
    ) -> Judged<()> {
        let Some(Due::Events(due)) = self.batch_back(batch)?.next() else {
            return Err(Fault::Illegal(Reason::NotDue));
        };
        want(same_place(&due.place, place), Reason::NotDue)?;
        want(same_events(due.events.as_slice(), events), Reason::NotDue)?;
        want(fates_fit(place, fates, events), Reason::Fates)?;
        let rejected = rejections(due, fates, events)?;
        want(
            self.were_told(batch, rejected.as_slice()),
            Reason::Rejections,
        )?;
        self.tell_next(batch);
        Ok(())
    }

    // Whether the letters of what was rejected stand just before, less those that were shed.
    fn were_told(&self, batch: u64, letters: &[DeadPart]) -> bool {
        match self.between {
            Between::Nothing => letters.is_empty(),
            Between::Shed(_, _) => false,
            Between::Rejecting(of, shed, told) => {
                of == batch
                    && !letters.is_empty()
                    && are_below(shed.newer, letters.len())
                    && are_kept(told, shed.newer, letters)
            }
        }
    }

    fn letters(&mut self, batch: u64, letters: &'a [DeadPart]) -> Judged<()> {
        self.batch_back(batch)?;
        let fits = match self.between {
            Between::Nothing => true,
            Between::Shed(of, _) => of == batch,
            Between::Rejecting(_, _, _) => false,
        };
        want(fits, Reason::Shed)?;
        let shed = self.shed_now();
        match self.batch_back(batch)?.next() {
            Some(Due::Letters(due)) => {
                want(are_below(shed.newer, due.len()), Reason::NotDue)?;
                want(
                    are_kept(letters, shed.newer, due.as_slice()),
                    Reason::NotDue,
                )?;
                self.tell_next(batch);
            }
            Some(Due::Events(due)) if is_box(&due.place) => {
                let are = are_some_rejected(due, shed.newer, letters)?;
                want(are, Reason::NotDue)?;
                self.between = Between::Rejecting(batch, shed, letters);
            }
            _ => return Err(Fault::Illegal(Reason::NotDue)),
        }
        Ok(())
    }

    fn acknowledge(&mut self, batch: u64) -> Judged<()> {
        self.running()?;
        let out = self.batch_back(batch)?;
        want(out.next().is_none(), Reason::Untold)?;
        let numbers = out.numbers;
        self.acknowledged.extend_from_slice(numbers)?;
        self.out.retain(|out| out.batch != batch);
        Ok(())
    }

    fn adopt<M: Meaning>(
        &mut self,
        meaning: &M,
        generation: u64,
        config: &'a Config,
        draws: &'a [(Text, u64)],
    ) -> Judged<()> {
        want(self.limits.is_some(), Reason::NotOpened)?;
        want(self.is_between_none(), Reason::Unfinished)?;
        if let Some(old) = self.plan {
            want(!config.same(old.config), Reason::Same)?;
            let is_next = old.generation.checked_add(1) == Some(generation);
            want(is_next, Reason::Generation)?;
        }
        let boxed = meaning.boxed(config)?;
        want(are_drawn(boxed.as_slice(), draws), Reason::Draws)?;
        self.plan = Some(Plan {
            generation,
            config,
            draws,
        });
        self.renumber(meaning, config)?;
        Ok(())
    }

    // The inputs of a configuration. A statement that equals that of an open input keeps its number, and each other one
    // gets the next number that is unused since the pipeline was opened. Those that no statement continues are closed.
    fn renumber<M: Meaning>(&mut self, meaning: &M, config: &'a Config) -> Result<(), AllocError> {
        let alloc = self.alloc();
        let mut left = mem::replace(&mut self.inputs, Vec::new(alloc));
        let mut unused = left.len();
        for (place, statement) in config.inputs.as_slice().iter().enumerate() {
            let continued = left
                .iter()
                .position(|old| old.is_open && old.statement.same(statement));
            let number = match continued {
                Some(at) if at < left.len() => left.remove(at).number,
                _ => {
                    unused = unused.saturating_add(1);
                    unused.saturating_sub(1)
                }
            };
            self.inputs.push(Input {
                number,
                statement,
                id: meaning.input_id(place, statement)?,
                is_open: true,
            })?;
        }
        for mut input in left {
            input.is_open = false;
            self.inputs.push(input)?;
        }
        Ok(())
    }

    fn open(&mut self, found: &[QueueRow], limit: u64, policy: Policy) -> Judged<()> {
        self.may_be_found(found)?;
        let top = self.top(found);
        self.limits = Some(Limits { limit, policy });
        self.plan = None;
        self.inputs.clear();
        self.rows.retain(|row| row.number <= top);
        for row in self.rows.iter_mut() {
            row.is_new = false;
        }
        self.acknowledged.retain(|number| *number <= top
            && !found.iter().any(|row| row.number == *number));
        self.read.clear();
        self.batches.clear();
        self.out.clear();
        self.low = u128::from(top) + 1;
        self.between = Between::Nothing;
        self.assured.clear();
        Ok(())
    }

    /// What may be found: rows that were written, in their order; and each row that is settled, or before one that is
    /// found, is found or acknowledged.
    pub fn may_be_found(&self, found: &[QueueRow]) -> Judged<()> {
        let rows = self.rows.as_slice();
        let known = found.iter().all(|row| rows.iter().any(|w| w.is(row)));
        want(known, Reason::Unknown)?;
        let rise = found
            .iter()
            .zip(found.iter().skip(1))
            .all(|(a, b)| a.number < b.number);
        want(rise, Reason::Order)?;
        for row in rows {
            want(
                row.number > self.front || self.stands(found, row),
                Reason::Lost,
            )?;
        }
        for row in rows {
            let is_last = !found.iter().any(|later| row.number < later.number);
            want(is_last || self.stands(found, row), Reason::Gap)?;
        }
        Ok(())
    }

    // Whether a row is found or acknowledged.
    fn stands(&self, found: &[QueueRow], row: &Written) -> bool {
        self.acknowledged.contains(&row.number) || found.iter().any(|one| row.is(one))
    }
}

// Each of these ids has its number, in their order, and no two have the same.
fn are_drawn(ids: &[Text], draws: &[(Text, u64)]) -> bool {
    ids.len() == draws.len()
        && ids.iter().zip(draws).all(|(id, (of, number))| {
            let twice = draws.iter().filter(|(_, other)| other == number);
            id == of && twice.count() == 1
        })
}
