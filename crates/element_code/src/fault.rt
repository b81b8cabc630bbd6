// Why bytes are no event.
use thiserror::Error;

/// Why bytes are no event.
#[derive(Clone, Copy, Debug, Drop, Error)]
pub enum ElementFault {
    /// The bytes aren't the one spelling of an event. The place, counted from the first byte, is that
    /// of the first tag, length or key that can't stand there, of the first byte behind the event, or
    /// the length of the bytes where they end too early. A key counts behind its length, and a value
    /// whose own bytes don't fit its tag at its tag. Bytes longer than 16,777,216 stop at that place.
    #[error("no event: the fault stands at {0}")]
    At(usize),
    /// Memory ran out.
    #[error("out of memory")]
    Memory,
}
