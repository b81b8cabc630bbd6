// What a file holds after what a pipeline told.

use crate::judge::Judge;
use event_tree::Text;
use foreign_parts::Place;
use history_book::KeptEntry;
use history_judges::rejections::same_place;
use history_judges::{Due, DueEvents, Judged, Meaning, Out, State};

/// A file to which a pipeline delivers: its name, that of its position file, and what stood there when the pipeline first
/// opened it.
#[derive(Drop)]
pub struct FilePlace {
    pub path: Text,
    pub slot: Text,
    pub base: Vec<u8>,
}

impl<M: Meaning> Judge<'_, M> {
    /// Whether a file may hold this content after the history: what was delivered to it, and then perhaps one delivery
    /// more that was next. At an opening, too, one may stand there that was next. So there are several ways to read the
    /// content, each of which leaves some of its bytes.
    pub fn holds_content(&self, file: &FilePlace, content: &[u8]) -> Judged<bool> {
        let place = Place::File(file.path.copy()?);
        let mut state = State::start(self.alloc());
        let mut lefts = Vec::new(self.alloc());
        if let Some(left) = content.strip_prefix(file.base.as_slice()) {
            lefts.push(left)?;
        }
        for entry in self.history.iter() {
            match entry {
                KeptEntry::Deliver { batch, .. } => {
                    if let Some(out) = state.batch(*batch) {
                        lefts = self.behind_next(out, &place, lefts.as_slice())?;
                    }
                }
                KeptEntry::Opened { .. } => self.add_left(&state, &place, &mut lefts)?,
                _ => {}
            }
            state.step(self.meaning, entry)?;
        }
        self.add_left(&state, &place, &mut lefts)?;
        Ok(lefts.iter().any(|left| left.is_empty()))
    }

    // One delivery that was not told may stand there: the next one of some batch that is out.
    fn add_left(&self, state: &State, place: &Place, lefts: &mut Vec<&[u8]>) -> Judged<()> {
        let mut more = Vec::new(self.alloc());
        for out in state.out.iter() {
            more.append(&mut self.behind_next(out, place, lefts.as_slice())?)?;
        }
        lefts.append(&mut more)?;
        Ok(())
    }

    // What is left behind the bytes of the next delivery of a batch, where it goes to the place.
    fn behind_next<'b>(
        &self,
        out: &Out,
        place: &Place,
        lefts: &[&'b [u8]],
    ) -> Judged<Vec<&'b [u8]>> {
        let bytes = next_bytes(self.meaning, out, place)?;
        let mut behind = Vec::new(self.alloc());
        for left in lefts {
            if let Some(rest) = left.strip_prefix(bytes.as_slice()) {
                behind.push(rest)?;
            }
        }
        Ok(behind)
    }
}

/// The bytes of the next delivery of a batch, where it goes to this place.
pub(crate) fn next_bytes<M: Meaning>(meaning: &M, out: &Out, place: &Place) -> Judged<Vec<u8>> {
    match next_at(out, place) {
        Some(due) => Ok(meaning.bytes(out.plan.config, &due.id, due.events.as_slice())?),
        None => Ok(Vec::new(*out.events.allocator())),
    }
}

/// The next delivery of a batch, where it goes to this place.
pub(crate) fn next_at<'b>(out: &'b Out, place: &Place) -> Option<&'b DueEvents> {
    match out.next() {
        Some(Due::Events(due)) if same_place(&due.place, place) => Some(due),
        _ => None,
    }
}
