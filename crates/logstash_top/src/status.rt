// How a call ended, with its status number.
ghost use Rattle.std.specs.Prelude.{◌≡◌};
ghost use Rattle.logstash_top.specs.Status.{number_of};

use config_parse::ConfigFault;
use graph_checks::GraphFault;
use io_traits::Damage;
use logstash_settings::WordsFault;
use plain_data::Text;

/// How a call ended.
#[derive(Drop)]
pub enum Status {
    /// Each input was at its end, and nothing was left to do; or the configuration passed its test.
    Done,
    /// The words of the command line are refused. The fault is never want of memory.
    BadWords(WordsFault),
    /// The words of the command line read, and have what the program doesn't do yet.
    WordsNotBuilt,
    /// The text of this pipeline is no configuration. The fault is never want of memory.
    BadConfig(Text, ConfigFault),
    /// The configuration of this pipeline fails a check. The fault is never want of memory.
    Refused(Text, GraphFault),
    /// The configuration of this pipeline passes its checks, and is one that the program doesn't run yet.
    NotBuilt(Text),
    /// A call of this pipeline's store failed.
    StoreFault(Text),
    /// A read of this pipeline's input failed.
    InputFault(Text, Text),
    /// The output of this id failed; of a test it is `stdout`.
    OutputFault(Text),
    /// A file of this pipeline is damaged.
    Damaged(Text, Damage),
    /// There is no file of this path, or none that this pattern names; or a call of the files failed.
    FilesFault(Option<Text>),
    /// The queue of this pipeline has no number left.
    NumbersSpent(Text),
    /// The dead letters of this pipeline have so many bytes, and so many more would pass their limit.
    DeadLettersFull(Text, u128, u128, u64),
    /// Memory ran out.
    NoMemory,
}

impl Status {
    /// The number with which the program ends.
    pub fn number(&self) -> u8
        ensures { result ≡ number_of self.now }
    {
        match self {
            Status::Done => 0,
            Status::BadWords(_) | Status::WordsNotBuilt => 1,
            Status::BadConfig(_, _) | Status::Refused(_, _) | Status::NotBuilt(_) => 3,
            Status::StoreFault(_) => 4,
            Status::InputFault(_, _) => 5,
            Status::OutputFault(_) => 6,
            Status::Damaged(_, _) => 7,
            Status::NoMemory => 8,
            Status::FilesFault(_) => 9,
            Status::NumbersSpent(_) => 11,
            Status::DeadLettersFull(_, _, _, _) => 12,
        }
    }
}
