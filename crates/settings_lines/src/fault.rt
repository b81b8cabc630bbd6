// Why a text is refused as `pipelines.yml`, with its texts.
ghost use Rattle.std.specs.Prelude.{Some};
ghost use Rattle.settings_lines.specs.Texts.{line_fault_text, settings_fault_text};

use plain_data::Text;
use std::alloc::AllocError;
use std::error::Error;
use std::fmt;

/// Why a line of `pipelines.yml` is refused, but for its key and its value.
#[derive(Clone, Copy, Debug)]
pub enum SettingsLineFault {
    /// It is no blank line, no comment, and no key with a scalar; or it stands before the first entry.
    Form,
    /// Its key stands before it in the same entry.
    KeyTwice,
    /// The entry that it begins has no `pipeline.id`.
    NoId,
    /// The entry that it begins has neither `path.config` nor `config.string`, or both.
    NoConfiguration,
    /// It begins the seventeenth entry.
    TooMany,
    /// The text has more than 1,048,576 bytes.
    Long,
}

/// Why a text is refused as `pipelines.yml`: the first line at fault by its number, from 1 on. A line with several faults
/// has the first of them in the order `Form`, `KeyTwice`, `NoId`, `NoConfiguration`, `TooMany`, `Unknown`, `Range`.
#[derive(Debug, Drop)]
pub enum SettingsFault {
    /// This line is refused.
    Line(usize, SettingsLineFault),
    /// The key of this line is none of the table.
    Unknown(usize, Text),
    /// The value of this line is not in the range of its key.
    Range(usize, Text),
    /// No line is at fault, and two entries have this id.
    Twice(Text),
    /// Memory ran out.
    Memory,
}

impl Error for SettingsLineFault {}

impl fmt::Display for SettingsLineFault {
    ghost output = { λ fault. Some (line_fault_text fault) };

    fn fmt<W: fmt::Write>(&self, f: &mut fmt::Formatter<W>) -> fmt::Result {
        f.write_str(match self {
            SettingsLineFault::Form => "form",
            SettingsLineFault::KeyTwice => "key twice",
            SettingsLineFault::NoId => "no id",
            SettingsLineFault::NoConfiguration => "no configuration",
            SettingsLineFault::TooMany => "too many",
            SettingsLineFault::Long => "long",
        })
    }
}

impl Error for SettingsFault {}

impl fmt::Display for SettingsFault {
    ghost output = { λ fault. Some (settings_fault_text fault) };

    fn fmt<W: fmt::Write>(&self, f: &mut fmt::Formatter<W>) -> fmt::Result {
        match self {
            SettingsFault::Line(line, fault) => write!(f, "line {line}: {fault}"),
            SettingsFault::Unknown(line, key) => write!(f, "line {line}: unknown {key}"),
            SettingsFault::Range(line, key) => write!(f, "line {line}: range {key}"),
            SettingsFault::Twice(id) => write!(f, "twice {id}"),
            SettingsFault::Memory => write!(f, "out of memory"),
        }
    }
}

impl From<AllocError> for SettingsFault {
    ghost use Rattle.std.specs.Prelude.{◌≡◌};
    ghost use Rattle.settings_lines.specs.declared.fault.SettingsFault.TheVariants.{Memory};

    ghost from_gives = { λ _ fault. fault ≡ Memory };

    fn from(_error: AllocError) -> SettingsFault {
        SettingsFault::Memory
    }
}
