// One slot as bytes.
ghost use Rattle.std.specs.Prelude.{◌≡◌, length};
ghost use Rattle.crc_frame.specs.Slots.{turn_of};
ghost use Rattle.slot_files.specs.Checkpoints.{FitsSlot, slot_body, slot_spelling, version_of, says, stored_crc, computed_crc};

use byteorder::{BigEndian, ByteOrder};
use crc_frame::crc32;
use io_traits::PageState;

/// How many bytes a slot has.
pub(crate) const SLOT_LEN: usize = 48;

/// How many of them its CRC-32 covers.
const BODY_LEN: usize = 44;

const VERSION: u16 = 1;

// What the CRC-32 of a slot covers.
#[tactic(auto, unfolding(crate::specs::Checkpoints::slot_body))]
fn body_of(turn: u64, state: &PageState) -> [u8; BODY_LEN]
    ensures body { result ≡ slot_body turn state.now }
    ensures fits { FitsSlot turn state.now }
{
    let PageState {
        page,
        first_open,
        least,
        count,
        length,
    } = *state;
    let mut body = [0; BODY_LEN];
    BigEndian::write_u16(&mut body, VERSION);
    BigEndian::write_u64(&mut body[2..], turn);
    BigEndian::write_u32(&mut body[10..], page);
    BigEndian::write_u64(&mut body[14..], first_open);
    BigEndian::write_u64(&mut body[22..], least);
    BigEndian::write_u32(&mut body[30..], count);
    BigEndian::write_u64(&mut body[34..], length);
    body
}

#[tactic(auto, unfolding(crate::specs::Checkpoints::slot_spelling))]
pub(crate) fn slot_of(turn: u64, state: &PageState) -> [u8; SLOT_LEN]
    ensures spelling { result ≡ slot_spelling turn state.now }
    ensures fits { FitsSlot turn state.now }
{
    let body = body_of(turn, state);
    let mut slot = [0; SLOT_LEN];
    slot[..BODY_LEN].copy_from_slice(&body);
    BigEndian::write_u32(&mut slot[BODY_LEN..], crc32(&body));
    slot
}

pub(crate) fn version_of(slot: &[u8]) -> u16
    requires { length slot.now ≡ 48 }
    ensures { result ≡ version_of slot.now }
{
    BigEndian::read_u16(slot)
}

pub(crate) fn turn_of(slot: &[u8]) -> u64
    requires { length slot.now ≡ 48 }
    ensures { result ≡ turn_of slot.now }
{
    BigEndian::read_u64(&slot[2..])
}

pub(crate) fn state_in(slot: &[u8]) -> PageState
    requires { length slot.now ≡ 48 }
    ensures { result ≡ says slot.now }
{
    PageState {
        page: BigEndian::read_u32(&slot[10..]),
        first_open: BigEndian::read_u64(&slot[14..]),
        least: BigEndian::read_u64(&slot[22..]),
        count: BigEndian::read_u32(&slot[30..]),
        length: BigEndian::read_u64(&slot[34..]),
    }
}

pub(crate) fn stored_crc(slot: &[u8]) -> u32
    requires { length slot.now ≡ 48 }
    ensures { result ≡ stored_crc slot.now }
{
    BigEndian::read_u32(&slot[BODY_LEN..])
}

pub(crate) fn computed_crc(slot: &[u8]) -> u32
    requires { length slot.now ≡ 48 }
    ensures { result ≡ computed_crc slot.now }
{
    crc32(&slot[..BODY_LEN])
}
