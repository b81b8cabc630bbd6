// Why a text is refused as a pattern.
ghost use Rattle.std.specs.Prelude.{◌≡◌, ◌≢◌, Some};
ghost use Rattle.regex_syntax.specs.declared.error.ErrorKind.TheVariants.{OutOfMemory};

use regex_syntax::ErrorKind;
use std::alloc::AllocError;
use std::error::Error;
use std::fmt;

/// Why a text is refused as a pattern.
#[derive(Clone, Copy, Debug, PartialEq, Eq)]
pub enum PatternFault {
    /// The text has more than 65,536 bytes, it is no regular expression, or it nests more than 250
    /// deep.
    BadPattern,
    /// Memory ran out, or the compiled pattern would take more than 10 MiB.
    Memory,
}

impl PatternFault {
    // The parser's error: its memory ran out, or the text is refused.
    pub(crate) fn of_parser(kind: ErrorKind) -> Self
        ensures memory { kind ≡ OutOfMemory → result ≡ PatternFault.Memory }
        ensures refused { kind ≢ OutOfMemory → result ≡ PatternFault.BadPattern }
    {
        match kind {
            ErrorKind::OutOfMemory => PatternFault::Memory,
            _ => PatternFault::BadPattern,
        }
    }
}

impl Error for PatternFault {}

impl fmt::Display for PatternFault {
    ghost use Rattle.pattern_box.specs.Texts.{fault_text};
    ghost use Rattle.std.specs.Fmt.{styled_text};

    ghost output = { λ fault. Some (fault_text fault) };

    ghost styled_output = { λ fault style. Some (styled_text style (fault_text fault)) };

    fn fmt<W: fmt::Write>(&self, f: &mut fmt::Formatter<W>) -> fmt::Result {
        f.pad(match self {
            PatternFault::BadPattern => "bad pattern",
            PatternFault::Memory => "out of memory",
        })
    }
}

impl From<AllocError> for PatternFault {
    ghost use Rattle.pattern_box.specs.declared.fault.PatternFault.{PatternFault};

    ghost from_gives = { λ _ fault. fault ≡ PatternFault.Memory };

    fn from(_: AllocError) -> Self {
        PatternFault::Memory
    }
}

// A compiled form past the size limit counts as want of memory.
impl From<regex_compile::Error> for PatternFault {
    ghost use Rattle.pattern_box.specs.declared.fault.PatternFault.{PatternFault};

    ghost from_gives = { λ _ fault. fault ≡ PatternFault.Memory };

    fn from(_: regex_compile::Error) -> Self {
        PatternFault::Memory
    }
}
