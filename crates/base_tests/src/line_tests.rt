// Tests of lines in pieces of each size, against lines read byte by byte.
ghost use Rattle.std.specs.Prelude.{◌≡◌, ◌<◌, [], true, false, OnOk};
ghost use Rattle.byte_lines.specs.Unread.{lines_left};

use byte_lines::{LineReader, lines_of_bytes, text_of_bytes};
use std::alloc::{AllocError, Global};

// Adds the lines of an input that comes in pieces of `size` bytes, and leaves the reader at the start of another.
fn lines_in_pieces(
    to: &mut String,
    reader: &mut LineReader,
    input: &[u8],
    size: usize,
) -> Result<(), AllocError>
    requires open { reader.old.ended ≡ false }
    requires size { 0 < size }
    ensures { OnOk result (reader.new.ended ≡ false) }
{
    for piece in input.chunks(size) {
        reader.feed(piece)?;
        take_lines(reader, to)?;
    }
    reader.end();
    take_lines(reader, to)?;
    reader.restart();
    Ok(())
}

// Adds the lines that the reader has.
fn take_lines(reader: &mut LineReader, to: &mut String) -> Result<(), AllocError>
    ensures none_left { OnOk result (lines_left reader.new ≡ []) }
    ensures ended { reader.new.ended ≡ reader.old.ended }
{
    while let Some(line) = reader.next_line()? {
        add_line(to, line.as_str())?;
    }
    Ok(())
}

// Adds a line with a `|` behind it.
fn add_line(to: &mut String, line: &str) -> Result<(), AllocError> {
    to.push_str(line)?;
    to.push('|')
}

// Whether the slow definition finds these lines.
fn is_found_slowly(
    alloc: Global,
    limit: usize,
    input: &[u8],
    want: &str,
) -> Result<bool, AllocError>
    requires { 0 < limit }
{
    let mut text = String::new(alloc);
    for line in &lines_of_bytes(alloc, limit, input, true)? {
        add_line(&mut text, line.as_str())?;
    }
    Ok(text.as_str() == want)
}

// Whether a reader finds these lines in pieces of `size` bytes.
fn is_found_in_pieces(
    alloc: Global,
    reader: &mut LineReader,
    input: &[u8],
    size: usize,
    want: &str,
) -> Result<bool, AllocError>
    requires { 0 < size }
{
    if reader.is_ended() {
        return Ok(false);
    }
    let mut text = String::new(alloc);
    lines_in_pieces(&mut text, reader, input, size)?;
    Ok(text.as_str() == want)
}

// A limit, an input and its lines.
const LINES: [(usize, &[u8], &str); 22] = [
    (9, b"", ""),
    (9, b"\n\n", "||"),
    (9, b"\r\n\r\n", "||"),
    (9, b"one\r\ntwo\nthree", "one|two|three|"),
    (9, b"\r", "\r|"),
    (9, b"a\rb\r", "a\rb\r|"),
    (9, b"a\r\r\n", "a\r|"),
    (4, b"abc\n", "abc|"),
    (4, b"abcd", "abcd|"),
    (4, b"abcd\n", "abcd||"),
    (4, b"abcde", "abcd|e|"),
    (4, b"abcdefghi\n", "abcd|efgh|i|"),
    (4, b"abc\r\n", "abc\r||"),
    (4, b"abcd\r\n", "abcd||"),
    (1, b"ab\n\n", "a|b|||"),
    (9, b"a\xffb\n", "a\u{FFFD}b|"),
    (9, b"\xe2\x82\xac\n", "\u{20AC}|"),
    (9, b"\xe2\x82A", "\u{FFFD}\u{FFFD}A|"),
    (9, b"\xf0\x9f\x98\x80\n", "\u{1F600}|"),
    (2, b"a\xc3\xa9", "a\u{FFFD}|\u{FFFD}|"),
    (9, b"\xc3\n\xa9\n", "\u{FFFD}|\u{FFFD}|"),
    (9, b"\xed\xa0\x80\r\n", "\u{FFFD}\u{FFFD}\u{FFFD}|"),
];

// Whether one reader finds these lines in pieces of each size.
fn is_found(alloc: Global, limit: usize, input: &[u8], want: &str) -> Result<bool, AllocError>
    requires { 0 < limit }
{
    let mut reader = LineReader::new(alloc, limit);
    for size in [1, 2, 3, 100] {
        if !is_found_in_pieces(alloc, &mut reader, input, size, want)? {
            return Ok(false);
        }
    }
    is_found_slowly(alloc, limit, input, want)
}

pub(crate) fn are_found(alloc: Global) -> Result<bool, AllocError> {
    for (limit, input, want) in &LINES {
        if *limit == 0 || !is_found(alloc, *limit, input, want)? {
            return Ok(false);
        }
    }
    Ok(true)
}

// Bytes, and the text of them.
const TEXTS: [(&[u8], &str); 5] = [
    (b"", ""),
    (b"caf\xc3\xa9", "caf\u{E9}"),
    (b"\xc0\x80", "\u{FFFD}\u{FFFD}"),
    (b"\xf4\x90\x80\x80", "\u{FFFD}\u{FFFD}\u{FFFD}\u{FFFD}"),
    (b"\xe2\x82\xe2\x82\xac", "\u{FFFD}\u{FFFD}\u{20AC}"),
];

pub(crate) fn are_replaced(alloc: Global) -> Result<bool, AllocError> {
    for (bytes, want) in &TEXTS {
        if text_of_bytes(alloc, bytes)?.as_str() != *want {
            return Ok(false);
        }
    }
    Ok(true)
}
