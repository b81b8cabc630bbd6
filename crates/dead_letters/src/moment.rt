// A moment in twelve bytes: the seconds, rounded down, and the nanoseconds since then.
ghost use Rattle.std.specs.Prelude.{◌≡◌, length};
ghost use Rattle.plain_data.specs.Calendar.{IsMoment};
ghost use Rattle.element_code.specs.Parts.{time_bytes};
ghost use Rattle.dead_letters.specs.Records.{instant_in};

use byteorder::{BigEndian, ByteOrder};
use event_tree::Instant;

/// How many bytes a moment has.
pub(crate) const MOMENT_LEN: usize = 12;

const SECOND: i128 = 1_000_000_000;

#[tactic(auto, unfolding(element_code::specs::Parts::time_bytes))]
pub(crate) fn bytes_of(moment: Instant) -> [u8; MOMENT_LEN]
    ensures bytes { result ≡ time_bytes moment }
    ensures valid { IsMoment moment }
{
    let nanos = moment.nanos();
    let mut bytes = [0; MOMENT_LEN];
    BigEndian::write_i64(&mut bytes, nanos.div_euclid(SECOND) as i64);
    BigEndian::write_u32(&mut bytes[8..], nanos.rem_euclid(SECOND) as u32);
    bytes
}

pub(crate) fn moment_in(bytes: &[u8]) -> Option<Instant>
    requires { length bytes.now ≡ 12 }
    ensures { result ≡ instant_in bytes.now }
{
    let seconds = BigEndian::read_i64(bytes) as i128;
    let nanos = BigEndian::read_u32(&bytes[8..]);
    if nanos >= 1_000_000_000 {
        return None;
    }
    Instant::from_nanos(seconds * SECOND + nanos as i128)
}
