//! Lines as events: what an input makes of the lines of its bytes, by its codec; the rows that the codec `json_lines`
//! writes of events; the events that a generator gives; and the lines of samples.
//!
//! - An input looks at its source again and again. Each look is a poll: the moment of the clock at which it was
//!   made, and what the read gave. A line has the moment of the poll that made it whole.
//! - An event holds the line as `message` and as `[event][original]`, that moment as `@timestamp`, and `@version`.
//! - A row is the JSON text of an event and a line feed.
//! - [`Codec`] and [`OutCodec`] say how inputs read lines as events, and how outputs write events.
#![tactic(auto)]

mod by_poll;
mod codec;
mod decoding;
mod event;
mod generator;
mod input;
mod laws;
mod plain;
mod poll;
mod poll_outcome;
mod row;
mod sample;
mod settings;
mod writing;

pub use by_poll::events_of_polls;
pub use codec::{Codec, OutCodec};
pub use decoding::{event_by_codec, event_of_bytes};
pub use event::{LINE_LIMIT, event_of_line, line_event};
pub use event_text::Options;
pub use generator::{GeneratedLines, Generator, Progress};
pub use input::LineInput;
pub use laws::{
    cutting_a_piece_changes_no_line, cutting_a_piece_of_a_source_changes_no_line,
    each_look_adds_the_lines_that_it_makes_whole, each_poll_adds_the_lines_that_it_makes_whole,
    each_source_has_the_lines_of_its_polls, looks_go_on_from_what_is_left,
    one_place_is_behind_the_lines, received_lines_are_those_of_all_bytes,
};
pub use poll::{Piece, Poll};
pub use poll_outcome::{Got, PollFault};
pub use row::write_row;
pub use sample::{next_number, sample_line};
pub use settings::EventSettings;
