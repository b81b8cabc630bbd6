// Why the words of a command line are refused, with their texts.
ghost use Rattle.std.specs.Prelude.{◌≡◌, Some};
ghost use Rattle.logstash_settings.specs.Texts.{option_text, words_fault_text};

use std::alloc::AllocError;
use std::error::Error;
use std::fmt;

/// An option whose value has a range. Its text is its long word, with the dashes.
#[derive(Clone, Copy, Debug)]
pub enum RangedOption {
    /// 1 to 64.
    Workers,
    /// 1 to 10,000.
    BatchSize,
    /// An id: 1 to 64 letters, digits, `_` and `-`.
    PipelineId,
    /// 1 to 1,000,000.
    Sample,
    /// An id.
    QueueCheck,
    /// An id.
    QueueRepair,
}

/// Why the words of a command line are refused. Words with several faults have the first of them in this order.
#[derive(Clone, Copy, Debug)]
pub enum WordsFault {
    /// The command doesn't take them.
    Unread,
    /// More than one of `-e`, `-f`, `--sample`, `--pqcheck` and `--pqrepair` stands.
    Both,
    /// The value of this option is not in its range, and that of no option before it in this order.
    Range(RangedOption),
    /// `--apart` stands with `-r`.
    Apart,
    /// Memory ran out.
    Memory,
}

impl RangedOption {
    /// Its long word, with the dashes.
    pub fn as_str(&self) -> &'static str
        ensures { result.now ≡ option_text self.now }
    {
        match self {
            RangedOption::Workers => "--pipeline.workers",
            RangedOption::BatchSize => "--pipeline.batch.size",
            RangedOption::PipelineId => "--pipeline.id",
            RangedOption::Sample => "--sample",
            RangedOption::QueueCheck => "--pqcheck",
            RangedOption::QueueRepair => "--pqrepair",
        }
    }
}

impl fmt::Display for RangedOption {
    ghost output = { λ option. Some (option_text option) };

    fn fmt<W: fmt::Write>(&self, f: &mut fmt::Formatter<W>) -> fmt::Result {
        f.write_str(self.as_str())
    }
}

impl Error for WordsFault {}

impl fmt::Display for WordsFault {
    ghost output = { λ fault. Some (words_fault_text fault) };

    fn fmt<W: fmt::Write>(&self, f: &mut fmt::Formatter<W>) -> fmt::Result {
        match self {
            WordsFault::Unread => write!(f, "unread"),
            WordsFault::Both => write!(f, "both"),
            WordsFault::Range(option) => write!(f, "range {option}"),
            WordsFault::Apart => write!(f, "apart"),
            WordsFault::Memory => write!(f, "out of memory"),
        }
    }
}

impl From<AllocError> for WordsFault {
    ghost use Rattle.logstash_settings.specs.declared.fault.WordsFault.TheVariants.{Memory};

    ghost from_gives = { λ _ fault. fault ≡ Memory };

    fn from(_error: AllocError) -> WordsFault {
        WordsFault::Memory
    }
}
