// The errors of reading a path and of putting a value.
use std::alloc::AllocError;
use thiserror::Error;

/// Why a text is no path. Places are counted in bytes.
#[derive(Clone, Copy, Debug, PartialEq, Eq, Drop, Error)]
pub enum PathFault {
    /// The text is empty, or a pair of brackets is.
    #[error("an empty path or part")]
    Empty,
    /// The `[` at this place meets another `[` or the end of the text before a `]`.
    #[error("an unclosed bracket at {0}")]
    Unclosed(usize),
    /// The byte at this place stands outside brackets behind a `]`, or is a bracket in a bare name.
    #[error("a stray character at {0}")]
    Stray(usize),
    /// Memory ran out.
    #[error("out of memory")]
    Memory,
}

/// Why a `put` is refused.
#[derive(Clone, Copy, Debug, PartialEq, Eq, Drop, Error)]
pub enum PutFault {
    /// A value on the way is neither object nor list, or is a list of which the part names neither
    /// an item nor the length; or `@metadata` itself would become no object.
    #[error("the path leads through a value that holds no others")]
    ThroughScalar,
    /// The event would be nested deeper than 128.
    #[error("nested too deeply")]
    Deep,
    /// The encoding of the event would be longer than 16,777,216 bytes.
    #[error("too large")]
    Large,
    /// Memory ran out.
    #[error("out of memory")]
    Memory,
}

impl From<AllocError> for PathFault {
    ghost use Rattle.std.specs.Prelude.{◌≡◌};
    ghost use Rattle.event_tree.specs.declared.fault.PathFault.TheVariants.{Memory};

    ghost from_gives = { λ _ fault. fault ≡ Memory };

    fn from(_error: AllocError) -> PathFault {
        PathFault::Memory
    }
}
