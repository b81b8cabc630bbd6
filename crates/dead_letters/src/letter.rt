// A dead letter, and the length of its record.
ghost use Rattle.std.specs.Prelude.{◌≡◌, ◌<◌, ◌↔◌, ◌^◌, IsTrue, length};
ghost use Rattle.dead_letters.specs.Letters.{FitsRecord, letter_body, record_bytes};

use crate::moment::MOMENT_LEN;
use event_tree::{Event, Instant, Items, Text};

/// Dead letters in order.
pub type Letters = Items<DeadLetter>;

/// An event that was not delivered.
#[derive(Drop)]
pub struct DeadLetter {
    /// The kind of the plugin where it failed, as `mutate`, or `if` for a condition.
    pub kind: Text,
    /// The id of the plugin or the condition.
    pub id: Text,
    /// Why the event was not delivered.
    pub reason: Text,
    /// When it was not delivered.
    pub moment: Instant,
    /// The event as it was then.
    pub event: Event,
}

/// How many bytes a length takes.
pub(crate) const LENGTH_BYTES: usize = 4;

/// How many bytes a record has besides its body: a length and a CRC-32.
pub(crate) const RECORD_EXTRA: usize = 8;

impl DeadLetter {
    /// Whether its record can be written: its body has at most 2^32 - 1 bytes.
    pub fn fits_record(&self) -> bool
        ensures { IsTrue result ↔ FitsRecord self.now }
    {
        let texts = self
            .kind
            .len()
            .saturating_add(self.id.len())
            .saturating_add(self.reason.len());
        let others = 3 * LENGTH_BYTES + MOMENT_LEN + self.event.size() as usize;
        texts.saturating_add(others) <= u32::MAX as usize
    }

    // The length of the body.
    pub(crate) fn body_len(&self) -> usize
        requires { length (letter_body self.now) < 2 ^ 32 }
        ensures { result ≡ length (letter_body self.now) }
    {
        let texts = self.kind.len() + self.id.len() + self.reason.len();
        texts + 3 * LENGTH_BYTES + MOMENT_LEN + self.event.size() as usize
    }

    /// How many bytes the record of the letter has.
    pub fn record_len(&self) -> u64
        requires { length (letter_body self.now) < 2 ^ 32 }
        ensures { result ≡ length (record_bytes self.now) }
    {
        (self.body_len() + RECORD_EXTRA) as u64
    }
}
