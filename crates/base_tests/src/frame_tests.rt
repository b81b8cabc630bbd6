// Tests of CRCs, frames and slots.
ghost use Rattle.std.specs.Prelude.{◌<◌};

use crate::bitwise::crc32_bitwise;
use crc_frame::{Slot, crc32, frame, newest, unframe};
use std::alloc::{AllocError, Global};

// The frame of the element 5 with the body `k`.
const SMALL: [u8; 17] = [
    0x00, 0x00, 0x00, 0x00, 0x00, 0x00, 0x00, 0x05, 0x00, 0x00, 0x00, 0x01, 0x6B, 0x9C, 0xC2, 0x5E,
    0xA0,
];

// Bytes, and their CRC-32.
const KNOWN: [(&[u8], u32); 8] = [
    (b"", 0),
    (b"a", 0xE8B7_BE43),
    (b"1234567", 0x5003_699F),
    (b"12345678", 0x9AE0_DAAF),
    (b"123456789", 0xCBF4_3926),
    (b"The quick brown fox jumps over the lazy dog", 0x414F_A339),
    (&[0; 32], 0x190A_55AD),
    (&[0xFF; 17], 0x025D_4ABC),
];

pub(crate) fn are_known() -> bool {
    for (bytes, crc) in &KNOWN {
        if crc32(bytes) != *crc || crc32_bitwise(bytes) != *crc {
            return false;
        }
    }
    true
}

// Whether a frame stands at a place, with this number and body, and of so many bytes.
fn has_frame(bytes: &[u8], at: usize, number: u64, body: &[u8], total: usize) -> bool {
    match bytes.get(at..) {
        Some(rest) => match unframe(rest) {
            Some(frame) => frame.number == number && frame.body == body && frame.total == total,
            None => false,
        },
        None => false,
    }
}

// Two frames, and bytes that are none.
fn two_frames(alloc: Global) -> Result<Vec<u8>, AllocError> {
    let mut bytes = Vec::new(alloc);
    frame(5, b"k", &mut bytes)?;
    frame(u64::MAX, b"", &mut bytes)?;
    bytes.extend_from_slice(b"and more")?;
    Ok(bytes)
}

pub(crate) fn are_read_back(alloc: Global) -> Result<bool, AllocError> {
    Ok(are_two_frames(&two_frames(alloc)?) && unframe(b"and more").is_none())
}

fn are_two_frames(bytes: &[u8]) -> bool {
    bytes.get(..17) == Some(SMALL.as_slice())
        && has_frame(bytes, 0, 5, b"k", 17)
        && has_frame(bytes, 17, u64::MAX, b"", 16)
}

fn are_refused_cut() -> bool {
    for len in 0..SMALL.len() {
        if unframe(&SMALL[..len]).is_some() {
            return false;
        }
    }
    true
}

// Whether the small frame is refused with each of the bits of this byte changed.
fn is_refused_changed(place: usize) -> bool
    requires { place < 17 }
{
    for bit in 0..u8::BITS {
        let mut changed = SMALL;
        changed[place] ^= 1 << bit;
        if unframe(&changed).is_some() {
            return false;
        }
    }
    true
}

pub(crate) fn are_refused() -> bool {
    are_refused_cut() && are_refused_changed()
}

fn are_refused_changed() -> bool {
    for place in 0..SMALL.len() {
        if !is_refused_changed(place) {
            return false;
        }
    }
    true
}

// Slots of 14 bytes with the version 1, which say nothing but their turn.
const NO_SLOT: [u8; 14] = [0; 14];

const TURN_0: [u8; 14] = [0, 1, 0, 0, 0, 0, 0, 0, 0, 0, 0xF4, 0xF1, 0x7C, 0x35];

const TURN_1: [u8; 14] = [0, 1, 0, 0, 0, 0, 0, 0, 0, 1, 0x83, 0xF6, 0x4C, 0xA3];

const TURN_2: [u8; 14] = [0, 1, 0, 0, 0, 0, 0, 0, 0, 2, 0x1A, 0xFF, 0x1D, 0x19];

const LAST_TURN: [u8; 14] = [
    0, 1, 0xFF, 0xFF, 0xFF, 0xFF, 0xFF, 0xFF, 0xFF, 0xFF, 0xB0, 0x97, 0x7C, 0x40,
];

fn file_of(first: [u8; 14], second: [u8; 14]) -> [u8; 28] {
    let mut file = [0; 28];
    file[..14].copy_from_slice(&first);
    file[14..].copy_from_slice(&second);
    file
}

// Two slots, and the newest of them.
const NEWEST: [([u8; 14], [u8; 14], Option<Slot>); 8] = [
    (NO_SLOT, NO_SLOT, None),
    (TURN_0, NO_SLOT, Some(Slot { turn: 0, place: 0 })),
    (TURN_0, TURN_1, Some(Slot { turn: 1, place: 14 })),
    (TURN_2, TURN_1, Some(Slot { turn: 2, place: 0 })),
    (NO_SLOT, TURN_1, Some(Slot { turn: 1, place: 14 })),
    (TURN_1, TURN_2, None),
    (TURN_0, LAST_TURN, Some(Slot { turn: 0, place: 0 })),
    (
        TURN_2,
        LAST_TURN,
        Some(Slot {
            turn: u64::MAX,
            place: 14,
        }),
    ),
];

fn are_newest() -> bool {
    for (first, second, slot) in &NEWEST {
        if newest(&file_of(*first, *second), 14) != *slot {
            return false;
        }
    }
    true
}

pub(crate) fn are_found() -> bool {
    are_newest() && is_alone()
}

// One slot alone is the newest, and a part of one is none.
fn is_alone() -> bool {
    newest(&TURN_0, 14) == Some(Slot { turn: 0, place: 0 }) && newest(&TURN_0[..13], 14).is_none()
}
