// The order of two texts by their bytes.
ghost use Rattle.std.specs.Prelude.{◌≡◌};
ghost use Rattle.plain_data.specs.Keys.{text_cmp};

use std::cmp::Ordering;

/// The order of two texts: by their bytes, from the first on, and a text before a longer one that begins with it.
///
/// Most texts that are compared differ in their first byte.
pub fn text_order(left: &str, right: &str) -> Ordering
    ensures { result ≡ text_cmp left.now right.now }
{
    match (left.as_bytes().first(), right.as_bytes().first()) {
        (Some(x), Some(y)) if x != y => x.cmp(y),
        _ => left.cmp(right),
    }
}
