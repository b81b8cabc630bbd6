// One slot as bytes.
ghost use Rattle.std.specs.Prelude.{◌≡◌, ◌<◌, ◌^◌, length};
ghost use Rattle.crc_frame.specs.Slots.{IsSlotOf};
ghost use Rattle.slot_files.specs.Positions.{slot_body, slot_spelling, position_of};

use byteorder::{BigEndian, ByteOrder};
use crc_frame::crc32;

/// How many bytes a slot has.
pub(crate) const SLOT_LEN: usize = 24;

/// How many of them its CRC-32 covers.
const BODY_LEN: usize = 20;

const VERSION: u16 = 1;

// What the CRC-32 of a slot covers.
#[tactic(auto, unfolding(crate::specs::Positions::slot_body))]
fn body_of(turn: u64, position: u64) -> [u8; BODY_LEN]
    ensures { result ≡ slot_body turn position }
{
    let mut body = [0; BODY_LEN];
    BigEndian::write_u16(&mut body, VERSION);
    BigEndian::write_u64(&mut body[2..], turn);
    BigEndian::write_u64(&mut body[10..], position);
    body
}

#[tactic(auto, unfolding(crate::specs::Positions::slot_spelling))]
pub(crate) fn slot_of(turn: u64, position: u64) -> [u8; SLOT_LEN]
    ensures spelling { result ≡ slot_spelling turn position }
    ensures slot { IsSlotOf 24 turn result }
{
    let body = body_of(turn, position);
    let mut slot = [0; SLOT_LEN];
    slot[..BODY_LEN].copy_from_slice(&body);
    BigEndian::write_u32(&mut slot[BODY_LEN..], crc32(&body));
    slot
}

pub(crate) fn position_of(slot: &[u8]) -> u64
    requires { length slot.now ≡ 24 }
    ensures { result ≡ position_of slot.now }
{
    BigEndian::read_u64(&slot[10..])
}
