// Whether the recorded positions of watched files agree with what their pipeline told.

use crate::found::recorded;
use crate::judge::Judge;
use config_tree::Plugin;
use event_tree::{Event, Text};
use history_judges::{Judged, Meaning, SourceLook, State};
use in_lines::Piece;
use io_memory::FileTable;

/// A reading of a watched file to its end: the statement of an input by which the lines came, and the looks at the file.
#[derive(Drop)]
pub struct FileReading {
    pub statement: Plugin,
    pub looks: Vec<SourceLook>,
}

/// A file that a pipeline watches: its path, the name of its position file, where the first reading began that left a
/// recorded position, its bytes, and the readings that came to the recorded position.
#[derive(Drop)]
pub struct WatchedFile {
    pub path: Text,
    pub slot: Text,
    pub base: u64,
    pub bytes: Vec<u8>,
    pub readings: Vec<FileReading>,
}

impl<M: Meaning> Judge<'_, M> {
    /// Whether the position file of a watched file isn't damaged, and its recorded position is the base or stands behind
    /// it, within the file, so that the bytes between the two are those of the readings, each line of which is a settled
    /// row of its own.
    pub fn position_is_sound(
        &self,
        state: &State,
        file: &WatchedFile,
        image: &FileTable,
    ) -> Judged<bool> {
        let bytes = file.bytes.as_slice();
        let Some(position) = recorded(image, file.slot.as_str(), file.base)? else {
            return Ok(false);
        };
        if position < file.base || (bytes.len() as u64) < position {
            return Ok(false);
        }
        let mut left = &bytes[file.base as usize..position as usize];
        let mut used = Vec::new(self.alloc());
        for reading in file.readings.iter() {
            match behind(left, file, reading) {
                Some(rest) if self.are_settled(state, reading, &mut used)? => left = rest,
                _ => return Ok(false),
            }
        }
        Ok(left.is_empty())
    }

    // Whether each event of a reading stands in a settled row of its own, that none before it used.
    fn are_settled(
        &self,
        state: &State,
        reading: &FileReading,
        used: &mut Vec<u64>,
    ) -> Judged<bool> {
        let statement = &reading.statement;
        let given = self.meaning.given(statement, reading.looks.as_slice())?;
        for event in given.events.as_slice() {
            let event = self.meaning.applied(statement, event)?;
            match settled_row(state, statement, &event, used.as_slice()) {
                Some(number) => used.push(number)?,
                None => return Ok(false),
            }
        }
        Ok(true)
    }
}

// What is left of these bytes behind a reading, whose looks are all at the file and come to its end.
fn behind<'b>(bytes: &'b [u8], file: &WatchedFile, reading: &FileReading) -> Option<&'b [u8]> {
    let mut left = bytes;
    for look in reading.looks.iter() {
        if look.source != file.path {
            return None;
        }
        match &look.poll.piece {
            Piece::Bytes(more) => left = left.strip_prefix(more.as_slice())?,
            Piece::End => return Some(left),
            Piece::Nothing => {}
        }
    }
    None
}

// The number of the first settled row with this event, by an input of this statement, that isn't used.
fn settled_row(state: &State, statement: &Plugin, event: &Event, used: &[u64]) -> Option<u64> {
    for row in state.rows.iter() {
        let is_free = row.number <= state.front && !used.contains(&row.number);
        if is_free && row.event.same(event) && row.statement.same(statement) {
            return Some(row.number);
        }
    }
    None
}
