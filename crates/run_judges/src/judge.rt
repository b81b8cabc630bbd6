// Whether what a stop leaves of a pipeline agrees with what it told.

use crate::contents::FilePlace;
use crate::dead::{AppendedLetters, HeldLetters};
use crate::found::{file_content, found_rows, found_segments};
use crate::positions::WatchedFile;
use event_tree::Text;
use history_book::{KeptEntry, Told};
use history_judges::{Fault, Illegal, Judged, Meaning, State, history_of, state_after};
use io_memory::FileTable;
use std::alloc::Global;

/// A judge of what one pipeline told.
#[derive(Drop)]
pub struct Judge<'a, M> {
    pub meaning: &'a M,
    pub history: Vec<&'a KeptEntry>,
}

/// Where a pipeline keeps what it holds: the folder of its queue, its files, and the folder of its dead letters with what
/// that held at first. Paths of folders end with a slash.
#[derive(Drop)]
pub struct Places {
    pub queue: Text,
    pub files: Vec<FilePlace>,
    pub dead: Text,
    pub dead_base: HeldLetters,
}

/// What a history doesn't say of a pipeline: the letters of each append, and the files that it watches, each with the
/// readings that came to its recorded position.
#[derive(Drop)]
pub struct Witnesses {
    pub letters: AppendedLetters,
    pub files: Vec<WatchedFile>,
}

/// What of a pipeline isn't sound.
#[derive(Clone, Copy, Debug, PartialEq, Eq)]
pub enum Unsound {
    /// Its history isn't legal.
    History(Illegal),
    /// The queue is damaged, or doesn't hold what the history wants.
    Queue,
    /// So it is with the output file at this place.
    File(usize),
    /// So it is with the dead letters.
    Letters,
    /// The recorded position of the watched file at this place is damaged, or not paid for by settled rows.
    Position(usize),
}

impl<'a, M: Meaning> Judge<'a, M> {
    /// The judge of the pipeline of this number, by what a book kept.
    pub fn of(alloc: Global, meaning: &'a M, book: &'a [Told], line: u32) -> Judged<Judge<'a, M>> {
        let history = history_of(alloc, book, line)?;
        Ok(Judge { meaning, history })
    }

    pub(crate) fn alloc(&self) -> Global {
        *self.history.allocator()
    }

    /// Where the pipeline stands; or the first entry that isn't legal, with the part of its rule that doesn't hold there.
    pub fn state(&self) -> Judged<Result<State<'a>, Illegal>> {
        state_after(self.alloc(), self.meaning, self.history.as_slice())
    }

    /// What doesn't agree with the history, where a stop left these files, and these letters were appended and these
    /// files read; none, where all of it is sound.
    pub fn unsound(
        &self,
        places: &Places,
        witnesses: &Witnesses,
        image: &FileTable,
    ) -> Judged<Option<Unsound>> {
        let state = match self.state()? {
            Ok(state) => state,
            Err(illegal) => return Ok(Some(Unsound::History(illegal))),
        };
        if !queue_is_sound(&state, places.queue.as_str(), image)? {
            return Ok(Some(Unsound::Queue));
        }
        for (at, file) in places.files.iter().enumerate() {
            if !self.file_is_sound(file, image)? {
                return Ok(Some(Unsound::File(at)));
            }
        }
        if !self.letters_are_sound(places, &witnesses.letters, image)? {
            return Ok(Some(Unsound::Letters));
        }
        for (at, file) in witnesses.files.iter().enumerate() {
            if !self.position_is_sound(&state, file, image)? {
                return Ok(Some(Unsound::Position(at)));
            }
        }
        Ok(None)
    }

    /// Whether an output file isn't damaged, and holds what the history allows, or that and one delivery more.
    pub fn file_is_sound(&self, file: &FilePlace, image: &FileTable) -> Judged<bool> {
        match file_content(image, file.path.as_str(), file.slot.as_str())? {
            Some(content) => self.holds_content(file, content),
            None => Ok(false),
        }
    }

    /// Whether the dead letters aren't damaged, and hold what the history allows, where these letters were appended.
    pub fn letters_are_sound(
        &self,
        places: &Places,
        letters: &AppendedLetters,
        image: &FileTable,
    ) -> Judged<bool> {
        match found_segments(image, places.dead.as_str())? {
            Some((first, segments)) => {
                let held = HeldLetters { first, segments };
                self.holds_letters(&places.dead_base, letters, &held)
            }
            None => Ok(false),
        }
    }
}

/// Whether the folder of a queue isn't damaged, and holds rows that an opening may find where its pipeline stands: with a
/// next number behind all that is settled, within what the next row may have, and with all that is settled recorded.
pub fn queue_is_sound(state: &State, folder: &str, image: &FileTable) -> Judged<bool> {
    let Some(found) = found_rows(image, folder)? else {
        return Ok(false);
    };
    let rows = found.rows.as_slice();
    Ok(
        state.may_be_found(rows).is_ok()
            && state.top(rows) < found.next
            && u128::from(found.next) <= state.high
            && state.front < found.recorded,
    )
}
