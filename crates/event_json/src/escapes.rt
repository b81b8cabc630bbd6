// The escapes of JSON strings.
ghost use Rattle.std.specs.Prelude.{◌≡◌, ◌<◌, IfSome};
ghost use Rattle.event_json.specs.Strings.{short_of, hex_of};

/// The value of a digit in base 16, in either case (RFC 8259, section 7); none of another byte.
pub fn hex(byte: u8) -> Option<u32>
    ensures { result ≡ hex_of byte }
{
    match byte {
        b'0'..=b'9' => Some((byte - b'0') as u32),
        b'a'..=b'f' => Some((byte - 87) as u32),
        b'A'..=b'F' => Some((byte - 55) as u32),
        _ => None,
    }
}

/// What a backslash and this letter stand for in a string (RFC 8259, section 7); none where they are no
/// escape of two bytes. Both are ASCII.
pub fn short(letter: u8) -> Option<u8>
    ensures value { result ≡ short_of letter }
    ensures ascii { IfSome result (λ byte. (byte < 128) × (letter < 128)) }
{
    match letter {
        b'"' => Some(b'"'),
        b'\\' => Some(b'\\'),
        b'/' => Some(b'/'),
        b'b' => Some(b'\x08'),
        b'f' => Some(b'\x0C'),
        b'n' => Some(b'\n'),
        b'r' => Some(b'\r'),
        b't' => Some(b'\t'),
        _ => None,
    }
}
