// What calls answer.
use io_traits::{Failed, ListFault};
use plain_data::Names;
use std::fmt::{self, Display, Formatter, Write};
use std::io;

/// What a call answered.
#[derive(Drop)]
pub enum CallAnswer {
    Done,
    Failed,
    None,
    Number(u64),
    Names(Names),
    Bytes(Vec<u8>),
    Text(&'static str),
    Line(String),
}

impl Display for CallAnswer {
    fn fmt<W: Write>(&self, f: &mut Formatter<W>) -> fmt::Result {
        match self {
            CallAnswer::Done => f.write_str("done"),
            CallAnswer::Failed => f.write_str("failed"),
            CallAnswer::None => f.write_str("none"),
            CallAnswer::Number(number) => write!(f, "{number}"),
            CallAnswer::Names(names) => write_names(f, names),
            CallAnswer::Bytes(bytes) => f.write_str(str::from_utf8(bytes).unwrap_or("no text")),
            CallAnswer::Text(text) => f.write_str(text),
            CallAnswer::Line(line) => f.write_str(line.as_str()),
        }
    }
}

fn write_names<W: Write>(f: &mut Formatter<W>, names: &Names) -> fmt::Result {
    for name in names.as_slice() {
        write!(f, "{} ", name.as_str())?;
    }
    f.write_str("in all")
}

impl CallAnswer {
    pub fn done(outcome: Result<(), Failed>) -> CallAnswer {
        match outcome {
            Ok(()) => CallAnswer::Done,
            Err(Failed) => CallAnswer::Failed,
        }
    }

    pub fn made(outcome: io::Result<()>) -> CallAnswer {
        if outcome.is_ok() {
            CallAnswer::Done
        } else {
            CallAnswer::Failed
        }
    }

    pub fn length(outcome: Result<Option<u64>, Failed>) -> CallAnswer {
        match outcome {
            Ok(Some(length)) => CallAnswer::Number(length),
            Ok(None) => CallAnswer::None,
            Err(Failed) => CallAnswer::Failed,
        }
    }

    pub fn names(outcome: Result<Names, ListFault>) -> CallAnswer {
        match outcome {
            Ok(names) => CallAnswer::Names(names),
            Err(_) => CallAnswer::Failed,
        }
    }

    /// The bytes at the front of a room that were read.
    pub fn read(mut room: Vec<u8>, outcome: Result<usize, Failed>) -> CallAnswer {
        match outcome {
            Ok(count) => {
                room.truncate(count);
                CallAnswer::Bytes(room)
            }
            Err(Failed) => CallAnswer::Failed,
        }
    }
}
