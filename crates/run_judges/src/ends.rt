// What came to inputs, what stdout and boxes took, and whether a pipeline is done or has stopped.

use crate::contents::{next_at, next_bytes};
use crate::found::found_rows;
use crate::links::LinkTraffic;
use crate::run::{Line, Run};
use event_tree::Event;
use foreign_parts::Place;
use history_judges::{Judged, Meaning, SourceLook, Written};
use io_memory::FileTable;
use pipeline_bus::Heard;

/// The looks that an input made since it was opened, by its number.
#[derive(Drop)]
pub struct InputLooks {
    pub input: usize,
    pub looks: Vec<SourceLook>,
}

impl<'a> Run<'a> {
    /// Whether stdout took what was told, or that and the first bytes of one delivery more that was next.
    pub fn stdout_took<M: Meaning>(&self, meaning: &M, took: &[u8]) -> Judged<bool> {
        let Some(more) = took.strip_prefix(self.printed.as_slice()) else {
            return Ok(false);
        };
        for line in self.lines.iter() {
            for out in line.state.out.iter() {
                if next_bytes(meaning, out, &Place::Stdout)?
                    .as_slice()
                    .starts_with(more)
                {
                    return Ok(true);
                }
            }
        }
        Ok(more.is_empty())
    }

    /// Whether the box of this number took what was told, or that and some events of one delivery more that was next, of
    /// which it may have rejected others.
    pub fn box_took(&self, number: u64, took: &[Event]) -> bool {
        let mut left = took;
        for (to, event) in self.boxed.iter() {
            if *to == number {
                match left {
                    [first, later @ ..] if first.same(event) => left = later,
                    _ => return false,
                }
            }
        }
        let place = Place::Foreign(number);
        let mut lines = self.lines.iter();
        left.is_empty()
            || lines.any(|line| {
                let mut outs = line.state.out.iter();
                outs.any(|out| match next_at(out, &place) {
                    Some(due) => are_some(left, due.events.as_slice()),
                    None => false,
                })
            })
    }
}

// Whether a row was accepted of this input since the pipeline was opened, and came in no parcel.
fn is_accepted_by(row: &Written, input: usize) -> bool {
    row.is_new && row.parcel.is_none() && row.input == input
}

// Some of these events, in their order.
fn are_some(some: &[Event], events: &[Event]) -> bool {
    let mut left = some;
    for event in events {
        if let [first, later @ ..] = left {
            if first.same(event) {
                left = later;
            }
        }
    }
    left.is_empty()
}

impl<'a> Line<'a> {
    /// Whether what came to each open input that listens on no address is what was accepted of it, and then what it holds;
    /// where `whole`, it is at its end and holds nothing.
    pub fn inputs_are_sound<M: Meaning>(
        &self,
        meaning: &M,
        looks: &[InputLooks],
        whole: bool,
    ) -> Judged<bool> {
        for input in self.state.inputs.iter() {
            if input.is_open && meaning.address(input.statement)?.is_none() {
                let looks = match looks.iter().find(|looks| looks.input == input.number) {
                    Some(found) => found.looks.as_slice(),
                    None => &[],
                };
                let given = meaning.given(input.statement, looks)?;
                let mut left = given.events.as_slice();
                for row in self.state.rows.iter() {
                    if is_accepted_by(row, input.number) {
                        match left {
                            [event, later @ ..]
                                if meaning.applied(input.statement, event)?.same(row.event) => {
                                left = later;
                            }
                            _ => return Ok(false),
                        }
                    }
                }
                if whole && !(given.is_ended && left.is_empty()) {
                    return Ok(false);
                }
            }
        }
        Ok(true)
    }

    /// Whether the pipeline is done: each open input that listens on no address is at its end and holds nothing; nothing is
    /// left in the queue or in a batch; what was accepted since it was opened was acknowledged to its input, unless that
    /// is closed; and parcels have their answers.
    pub fn is_done<M: Meaning>(
        &self,
        meaning: &M,
        looks: &[InputLooks],
        links: &[LinkTraffic],
        folder: &str,
        image: &FileTable,
    ) -> Judged<bool> {
        let known = self.state.rows.iter().all(|row| {
            !row.is_new
                || self.is_closed(row.input)
                || match row.parcel {
                    Some(_) => self.is_answered(row, links),
                    None => self.is_assured(row),
                }
        });
        Ok(
            known
                && self.state.out.is_empty()
                && links.iter().all(|link| self.is_taken_answered(link))
                && self.is_sent_answered()
                && self.inputs_are_sound(meaning, looks, true)?
                && self.is_empty(folder, image)?,
        )
    }

    /// Whether the pipeline was told to stop and has stopped, where these pipelines drain: no job is out; what was accepted
    /// since it was opened is settled, and what came in no parcel was acknowledged to its input, unless that is closed; and
    /// what it took of a sender that drains has its answer. Where it drains itself nothing is left in the queue, and what
    /// it sent has its answer.
    pub fn is_stopped(
        &self,
        drains: &[u32],
        links: &[LinkTraffic],
        folder: &str,
        image: &FileTable,
    ) -> Judged<bool> {
        let known = self.state.rows.iter().all(|row| {
            let assured = row.parcel.is_some() || self.is_assured(row);
            !row.is_new || row.number <= self.state.front && (assured || self.is_closed(row.input))
        });
        let home = self.state.out.iter().all(|out| out.is_back);
        let mut links = links.iter();
        let answered = links.all(|link| {
            let is_served = link.from.is_some_and(|sender| drains.contains(&sender));
            !is_served || self.is_taken_answered(link)
        });
        if !known || !home || !answered || !drains.contains(&self.number) {
            return Ok(known && home && answered);
        }
        Ok(self.is_sent_answered() && self.is_empty(folder, image)?)
    }

    // Whether each row is acknowledged, and none is found.
    fn is_empty(&self, folder: &str, image: &FileTable) -> Judged<bool> {
        let state = &self.state;
        let all = state
            .rows
            .iter()
            .all(|row| state.acknowledged.contains(&row.number));
        match found_rows(image, folder)? {
            Some(found) => Ok(all && found.rows.is_empty()),
            None => Ok(false),
        }
    }

    fn is_closed(&self, number: usize) -> bool {
        let mut inputs = self.state.inputs.iter();
        inputs.any(|input| input.number == number && !input.is_open)
    }

    // Whether the row's input was told that it is settled.
    fn is_assured(&self, row: &Written) -> bool {
        let mut assured = self.state.assured.iter();
        assured.any(|(input, front)| *input == row.input && row.number <= *front)
    }

    // Whether the parcel in which the row's event came was answered so.
    fn is_answered(&self, row: &Written, links: &[LinkTraffic]) -> bool {
        let Some(at) = row.parcel else {
            return false;
        };
        links.iter().any(|link| {
            link.to == self.number
                && link.place == at.place
                && link.given.iter().any(|answer| {
                    answer.number == at.number && answer.answer == Heard::Assured
                })
        })
    }

    // Whether each parcel with events that was taken here, if the link ends here, has its answer.
    fn is_taken_answered(&self, link: &LinkTraffic) -> bool {
        link.to != self.number
            || link.taken.iter().all(|parcel| {
                let mut given = link.given.iter();
                parcel.is_last() || given.any(|answer| answer.number == parcel.number)
            })
    }

    // Whether each parcel with events that was sent has its answer.
    fn is_sent_answered(&self) -> bool {
        self.sent.iter().all(|sent| {
            let parcel = sent.parcel;
            let mut heard = self.heard.iter();
            parcel.is_last()
                || heard.any(|(address, answer)| {
                    **address == parcel.address && answer.number == parcel.number
                })
        })
    }
}
