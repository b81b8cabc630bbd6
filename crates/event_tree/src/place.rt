// The index that a part of a path names in a list.
ghost use Rattle.std.specs.Prelude.{◌≡◌, ◌≤◌, IfSome};
ghost use Rattle.event_tree.specs.Paths.{digits, at_most, list_place};

/// The place that a part names in a list of `count` items, an item's or the place behind the last.
pub(crate) fn place_in(part: &str, count: usize) -> Option<usize>
    ensures exact { result ≡ list_place part.now count }
    ensures within { IfSome result (λ i. i ≤ count) }
{
    let bytes = part.as_bytes();
    match bytes.split_first() {
        None => None,
        Some((first, rest)) => {
            if *first == b'-' {
                match number_in(rest, count) {
                    Some(back) => Some(count - back),
                    None => None,
                }
            } else {
                number_in(bytes, count)
            }
        }
    }
}

/// The number that the bytes write in decimal, if it is at most `limit`.
fn number_in(bytes: &[u8], limit: usize) -> Option<usize>
    ensures exact { result ≡ at_most limit (digits bytes.now) }
    ensures within { IfSome result (λ k. k ≤ limit) }
{
    if bytes.is_empty() {
        return None;
    }
    let mut number = 0;
    for byte in bytes {
        if *byte < b'0' || b'9' < *byte {
            return None;
        }
        if number > limit / 10 {
            return None;
        }
        let next = number * 10;
        let digit = (*byte - b'0') as usize;
        if digit > limit - next {
            return None;
        }
        number = next + digit;
    }
    Some(number)
}
