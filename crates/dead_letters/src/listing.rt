// The segments whose files stand in a folder.
ghost use Rattle.std.specs.Prelude.{◌≡◌, ◌<◌, ◌^◌, ◌++◌, ℕ, All, Contains, Some, IfOk, IfSome, codes};
ghost use Rattle.std.specs.Fmt.{decimal};
ghost use Rattle.dead_letters.specs.Trimming.{IsOfOther, IsOther};
ghost use Rattle.dead_letters.specs.Queues.{name_in, segment, segment_name};

use crate::queue::segment_name;
use crate::segments::Segments;
use event_tree::Text;
use slot_files::number_of;
use std::alloc::{AllocError, Global};

/// The files of segments that are none of these, by the last parts of the names in a folder.
pub(crate) fn others(
    alloc: Global,
    folder: &str,
    parts: &[Text],
    segments: Segments,
) -> Result<Vec<Text>, AllocError>
    ensures from { IfOk result (λ gone. All (IsOfOther folder.now segments) gone.items) }
    ensures all { IfOk result (λ gone. (n : ℕ) → IsOther segments n
        → Contains parts.now (segment_name n) → Contains gone.items (name_in folder.now (segment n))) }
{
    let mut gone = Vec::new(alloc);
    for part in parts {
        if let Some(number) = other_in(part.as_str(), segments) {
            gone.push(segment_name(alloc, folder, number)?)?;
        }
    }
    Ok(gone)
}

/// The number in the name of a segment that is none of these.
fn other_in(part: &str, segments: Segments) -> Option<u32>
    ensures some { IfSome result (λ n. IsOther segments n) }
    ensures all { (n : ℕ) → IsOther segments n → part.now ≡ segment_name n → result ≡ Some n }
{
    let number = number_in(part)?;
    if number < segments.first {
        return Some(number);
    }
    if segments.last < number {
        return Some(number);
    }
    None
}

/// The number in the name of a segment's file.
fn number_in(part: &str) -> Option<u32>
    ensures some { IfSome result (λ n. (n < 2 ^ 32) × (part.now ≡ segment_name n)) }
    ensures all { (n : ℕ) → n < 2 ^ 32 → part.now ≡ segment_name n → result ≡ Some n }
{
    if part == "dead.log" {
        return Some(0);
    }
    later_number_in(part)
}

/// The number in the name of a segment's file but the first one's.
fn later_number_in(part: &str) -> Option<u32>
    ensures some { IfSome result (λ n. (0 < n) × (n < 2 ^ 32)
        × (part.now ≡ codes "dead." ++ (decimal n ++ codes ".log"))) }
    ensures all { (n : ℕ) → 0 < n → n < 2 ^ 32
        → part.now ≡ codes "dead." ++ (decimal n ++ codes ".log") → result ≡ Some n }
{
    let behind = part.strip_prefix("dead.")?;
    let digits = behind.strip_suffix(".log")?;
    let number = number_of(digits)?;
    if number == 0 { None } else { Some(number) }
}
