// Tests of instants at the bounds of their years.
use plain_data::Instant;

// Whether there is an instant of so many nanoseconds, which gives them back.
fn is_held(nanos: i128) -> bool {
    match Instant::from_nanos(nanos) {
        Some(moment) => moment.nanos() == nanos,
        None => false,
    }
}

// Nanoseconds, and whether they are those of an instant.
const HELD: [(i128, bool); 6] = [
    (-62_135_596_800_000_000_001, false),
    (-62_135_596_800_000_000_000, true),
    (-1, true),
    (0, true),
    (253_402_300_799_999_999_999, true),
    (253_402_300_800_000_000_000, false),
];

fn are_held() -> bool {
    for (nanos, holds) in &HELD {
        if is_held(*nanos) != *holds {
            return false;
        }
    }
    true
}

// The years 1 to 9999 are held, and instants are ordered.
pub(crate) fn are_instants() -> bool {
    let epoch = Some(Instant::epoch());
    are_held() && Instant::from_nanos(0) == epoch && Instant::from_nanos(-1) < epoch
}
