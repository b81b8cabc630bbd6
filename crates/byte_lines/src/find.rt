// The search for the first line feed in some bytes.
ghost use Rattle.std.specs.Prelude.{◌≡◌, ◌≤◌, ◌<◌, ◌++◌, IfSome, IfNone, length, take, drop};
ghost use Rattle.std.specs.Str.Lines.{strip_carriage_return};
ghost use Rattle.byte_lines.specs.Split.{HasNoLineFeed, RawLine, IsRawLine, line_bytes, line_content};

use memchr::memchr;

/// The first line of some bytes.
#[derive(Clone, Copy, Debug)]
pub struct FoundLine {
    /// How many bytes from the front the line says.
    pub content_len: usize,
    /// How many bytes it stands in, with what ends it.
    pub taken: usize,
}

/// The first whole line of the bytes, of which the first `searched` are known to have no line feed.
pub fn find_line(bytes: &[u8], searched: usize, limit: usize) -> Option<FoundLine>
    requires limit { 0 < limit }
    requires within { searched ≤ length bytes.now }
    requires below { searched ≤ limit }
    requires no_line_feed { HasNoLineFeed (take searched bytes.now) }
    ensures line { IfSome result (λ found. (line : RawLine) × IsRawLine limit line
        × (line_content line ≡ take found.content_len bytes.now) × (bytes.now ≡ line_bytes line ++ drop found.taken bytes.now)) }
    ensures within { IfSome result (λ found. found.taken ≤ length bytes.now) }
    ensures content_within { IfSome result (λ found. found.content_len ≤ found.taken) }
    ensures none { IfNone result (HasNoLineFeed bytes.now) }
    ensures short { IfNone result (length bytes.now < limit) }
{
    let window = bytes.len().min(limit);
    match memchr(b'\n', &bytes[searched..window]) {
        Some(at) => {
            let end = searched + at;
            let content_len = without_carriage_return(&bytes[..end]).len();
            Some(FoundLine {
                content_len,
                taken: end + 1,
            })
        }
        None if window == limit => Some(FoundLine {
            content_len: limit,
            taken: limit,
        }),
        None => None,
    }
}

/// The bytes without the one carriage return at their end, if they have one.
pub fn without_carriage_return(bytes: &[u8]) -> &[u8]
    ensures value { result.now ≡ strip_carriage_return bytes.now }
    ensures front { result.now ≡ take (length result.now) bytes.now }
    ensures within { length result.now ≤ length bytes.now }
{
    match bytes {
        [front @ .., b'\r'] => front,
        _ => bytes,
    }
}
