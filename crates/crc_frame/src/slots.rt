// The newest intact one of a file's two slots.
ghost use Rattle.std.specs.Prelude.{◌≡◌, ◌≢◌, ℕ, ◌≤◌, length, IsTrue, false, IfSome, IfNone};
ghost use Rattle.crc_frame.specs.Slots.{place_of, slot_bytes, turn_of, is_slot, is_intact, slot_at, is_newer, newest_of, newest_slot};

use crate::crc::is_checked;
use byteorder::{BigEndian, ByteOrder};

/// An intact slot of a file of two slots.
#[derive(Clone, Copy, PartialEq, Eq, Debug)]
pub struct Slot {
    /// The turn of the slot.
    pub turn: u64,
    /// The place in the file where the slot begins.
    pub place: usize,
}

fn turn_of(slot: &[u8]) -> u64
    requires { 14 ≤ length slot.now }
    ensures { result ≡ turn_of slot.now }
{
    BigEndian::read_u64(&slot[2..])
}

fn place_of(width: usize, turn: u64) -> usize
    ensures { result ≡ place_of width turn }
{
    if turn % 2 == 0 { 0 } else { width }
}

#[tactic(auto, unfolding(crate::specs::Slots::is_slot))]
fn is_slot(slot: &[u8], width: usize, place: usize) -> bool
    requires { 14 ≤ width }
    ensures intact { result ≡ is_slot width place slot.now }
    ensures whole { IsTrue result → length slot.now ≡ width }
{
    slot.len() == width && is_checked(slot) && place == place_of(width, turn_of(slot))
}

// The bytes at the place of a slot, fewer where the file ends before the slot does.
fn slot_bytes(file: &[u8], width: usize, place: usize) -> &[u8]
    ensures { result.now ≡ slot_bytes width place file.now }
{
    let rest = &file[place.min(file.len())..];
    &rest[..width.min(rest.len())]
}

fn slot_at(file: &[u8], width: usize, place: usize) -> Option<Slot>
    requires { 14 ≤ width }
    ensures { result ≡ slot_at width place file.now }
{
    let slot = slot_bytes(file, width, place);
    if is_slot(slot, width, place) {
        let turn = turn_of(slot);
        Some(Slot { turn, place })
    } else {
        None
    }
}

fn is_newer(turn: u64, other: u64) -> bool
    ensures { result ≡ is_newer turn other }
{
    match (other, turn) {
        (u64::MAX, 0) => true,
        (0, u64::MAX) => false,
        _ => other < turn,
    }
}

fn newest_of(first: Option<Slot>, second: Option<Slot>) -> Option<Slot>
    ensures { result ≡ newest_of first second }
{
    match (first, second) {
        (Some(first), Some(second)) => {
            if is_newer(second.turn, first.turn) {
                Some(second)
            } else {
                Some(first)
            }
        }
        (Some(first), None) => Some(first),
        (None, second) => second,
    }
}

/// The newest intact slot of a file of two slots, `width` bytes wide each, that are written in turn; `None`
/// exactly where neither slot is intact.
///
/// A slot is a version in 2 bytes, its turn in 8, what it says, and in the last 4 bytes the CRC-32 of all
/// before, each number big endian. The slot of turn t stands at place `width` times (t mod 2). It is intact
/// where it stands there and its CRC-32 matches; its version isn't read. The newest one has the greatest
/// turn, but beside the slot of turn 2^64 - 1 that of turn 0 is the newest, since turns begin again at 0.
///
/// Bytes past the second slot are not read, and a file may be shorter than its slots.
pub fn newest(file: &[u8], width: usize) -> Option<Slot>
    requires { 14 ≤ width }
    ensures slot { result ≡ newest_slot width file.now }

    // The result is an intact slot of the file, and each other one has an older turn.
    ensures intact { IfSome result (λ s. IsTrue (is_intact width s.place file.now)) }
    ensures turn { IfSome result (λ s. s.turn ≡ turn_of (slot_bytes width s.place file.now)) }
    ensures newer { IfSome result (λ s. (place : ℕ)
        → IsTrue (is_intact width place file.now) → place ≢ s.place
        → IsTrue (is_newer s.turn (turn_of (slot_bytes width place file.now)))) }

    // There is none exactly where no slot is intact.
    ensures none { IfNone result ((place : ℕ) → is_intact width place file.now ≡ false) }
{
    newest_of(slot_at(file, width, 0), slot_at(file, width, width))
}
