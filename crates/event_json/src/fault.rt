// Why bytes are no JSON text, and where reading stopped.
ghost use Rattle.std.specs.Prelude.{◌≡◌};

use std::alloc::AllocError;
use thiserror::Error;

/// Why bytes are no JSON text that is read. Places are counted in bytes from 0.
#[derive(Clone, Copy, Debug, Drop, Error)]
pub enum JsonFault {
    /// The bytes are no UTF-8: the place of the first byte that begins no character.
    #[error("no UTF-8 character begins at byte {0}")]
    NotUtf8(usize),
    /// The place of the first byte that no JSON text has after the bytes before it, or the length
    /// where the text ends early.
    #[error("no JSON text goes on so at byte {0}")]
    At(usize),
    /// The place of the bracket or brace that opens the 101st level.
    #[error("too many levels of JSON at byte {0}")]
    Deep(usize),
    /// Memory ran out.
    #[error("memory ran out")]
    Memory,
}

// Where reading stopped, as the number of bytes from there to the end.
#[derive(Drop)]
pub(crate) enum JsonStop {
    Memory,
    At(usize),
    Deep(usize),
}

impl From<AllocError> for JsonStop {
    ghost use Rattle.event_json.specs.declared.fault.JsonStop.TheVariants as stops;

    ghost from_gives = { λ _ stop. stop ≡ stops.Memory };

    fn from(_error: AllocError) -> JsonStop {
        JsonStop::Memory
    }
}
