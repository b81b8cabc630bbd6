// How a tool ended, with its status number and its line.
ghost use Rattle.std.specs.Prelude.{◌≡◌, Some};
ghost use Rattle.pq_tools.specs.Statuses.{number_of, status_text};

use io_traits::Damage;
use logstash_settings::WordsFault;
use plain_data::Text;
use std::fmt;

/// How a tool ended. Its text is the line of the status, without `logstash: ` in front.
#[derive(Drop)]
pub enum ToolStatus {
    /// It did its work, and the output took the line that says so.
    Done,
    /// The words of the command line are refused; or they read and don't order this tool, which is
    /// `Unread`. The fault is never want of memory.
    BadWords(WordsFault),
    /// A call of the store failed, for the queue of this pipeline.
    StoreFault(Text),
    /// A write or a flush of the output failed.
    OutputFault,
    /// The queue of this pipeline is damaged there.
    Damaged(Text, Damage),
    /// Memory ran out.
    NoMemory,
    /// The new queue of this pipeline has no number left for a row.
    NumbersSpent(Text),
    /// This folder, in which a new queue is to be made, has a file.
    NotNew(Text),
}

impl ToolStatus {
    /// The number with which the program ends.
    pub fn number(&self) -> u8
        ensures { result ≡ number_of self.now }
    {
        match self {
            ToolStatus::Done => 0,
            ToolStatus::BadWords(_) => 1,
            ToolStatus::StoreFault(_) => 4,
            ToolStatus::OutputFault => 6,
            ToolStatus::Damaged(_, _) => 7,
            ToolStatus::NoMemory => 8,
            ToolStatus::NumbersSpent(_) => 11,
            ToolStatus::NotNew(_) => 14,
        }
    }
}

impl fmt::Display for ToolStatus {
    ghost output = { λ status. Some (status_text status) };

    fn fmt<W: fmt::Write>(&self, f: &mut fmt::Formatter<W>) -> fmt::Result {
        match self {
            ToolStatus::Done => write!(f, "done"),
            ToolStatus::BadWords(fault) => write!(f, "words: {fault}"),
            ToolStatus::StoreFault(id) => write!(f, "pipeline {id}: store fault"),
            ToolStatus::OutputFault => write!(f, "output fault stdout"),
            ToolStatus::Damaged(id, damage) => {
                let Damage {
                    file,
                    place,
                    found,
                    expected,
                } = damage;
                write!(
                    f,
                    "pipeline {id}: damaged {file} at {place}: found {found}, expected {expected}"
                )
            }
            ToolStatus::NoMemory => write!(f, "no memory"),
            ToolStatus::NumbersSpent(id) => write!(f, "pipeline {id}: numbers spent"),
            ToolStatus::NotNew(folder) => write!(f, "not new {folder}"),
        }
    }
}
