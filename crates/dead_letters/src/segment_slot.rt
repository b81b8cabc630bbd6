// One slot as bytes.
ghost use Rattle.std.specs.Prelude.{◌≡◌, length};
ghost use Rattle.crc_frame.specs.Slots.{IsSlotOf};
ghost use Rattle.dead_letters.specs.Segments.{first_of, last_of, length_of, segments, slot_body, slot_spelling};

use crate::segments::Segments;
use byteorder::{BigEndian, ByteOrder};
use crc_frame::crc32;

/// How many bytes a slot has.
pub(crate) const SLOT_LEN: usize = 32;

/// How many of them its CRC-32 covers.
const BODY_LEN: usize = 28;

const VERSION: u16 = 2;

// What the CRC-32 of a slot covers.
#[tactic(auto, unfolding(crate::specs::Segments::slot_body))]
fn body_of(turn: u64, segments: Segments) -> [u8; BODY_LEN]
    ensures { result ≡ slot_body turn segments }
{
    let Segments {
        first,
        last,
        length,
    } = segments;
    let mut body = [0; BODY_LEN];
    BigEndian::write_u16(&mut body, VERSION);
    BigEndian::write_u64(&mut body[2..], turn);
    BigEndian::write_u32(&mut body[10..], first);
    BigEndian::write_u32(&mut body[14..], last);
    BigEndian::write_u64(&mut body[18..], length);
    body
}

#[tactic(auto, unfolding(crate::specs::Segments::slot_spelling))]
pub(crate) fn slot_of(turn: u64, segments: Segments) -> [u8; SLOT_LEN]
    ensures spelling { result ≡ slot_spelling turn segments }
    ensures slot { IsSlotOf 32 turn result }
{
    let body = body_of(turn, segments);
    let mut slot = [0; SLOT_LEN];
    slot[..BODY_LEN].copy_from_slice(&body);
    BigEndian::write_u32(&mut slot[BODY_LEN..], crc32(&body));
    slot
}

pub(crate) fn segments_of(slot: &[u8]) -> Segments
    requires { length slot.now ≡ 32 }
    ensures { result ≡ segments (first_of slot.now) (last_of slot.now) (length_of slot.now) }
{
    Segments {
        first: BigEndian::read_u32(&slot[10..]),
        last: BigEndian::read_u32(&slot[14..]),
        length: BigEndian::read_u64(&slot[18..]),
    }
}
