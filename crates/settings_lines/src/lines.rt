//! What a line says.

ghost use Rattle.std.specs.Prelude.{◌≡◌, ◌≤◌, ◌<◌, ◌-◌, ◌==◌, ◌&&◌, true, length, drop, take, option_map, slice_index};
ghost use Rattle.std.specs.List.{list_all};
ghost use Rattle.settings_lines.specs.Lines as spec;
ghost use Rattle.settings_lines.specs.Pairs.{pair_view};

/// The key and the scalar of a line.
#[derive(Clone, Copy)]
pub(crate) struct Pair<'a> {
    pub(crate) key: &'a str,
    pub(crate) scalar: &'a str,
}

/// Whether a line says nothing: it has blanks alone, or a comment behind them.
pub(crate) fn is_blank(line: &str) -> bool
    ensures { result ≡ spec.is_blank line.now }
{
    let rest = skip_blanks(line);
    rest.is_empty() || begins_comment(rest)
}

fn begins_comment(text: &str) -> bool
    ensures { result ≡ spec.begins_comment text.now }
{
    match text.as_bytes() {
        [b'#', ..] => true,
        _ => false,
    }
}

/// Whether a line begins an entry.
pub(crate) fn begins_entry(line: &str) -> bool
    ensures { result ≡ spec.begins_entry line.now }
{
    match line.as_bytes() {
        [b'-', b' ', ..] => true,
        _ => false,
    }
}

/// The key and the scalar of a line, where it has the form of one: `- ` or two blanks in front, a key, `:`, at least
/// one blank, and a scalar.
pub(crate) fn pair_of(line: &str) -> Option<Pair<'_>>
    ensures { option_map pair_view result ≡ spec.pair_of line.now }
{
    match content_of(line) {
        Some(content) => pair_in(content),
        None => None,
    }
}

/// What stands behind `- ` or two blanks.
fn content_of(line: &str) -> Option<&str>
    ensures { option_map (λ content. content.now) result ≡ spec.content_of line.now }
{
    match line.as_bytes() {
        [b'-' | b' ', b' ', ..] => Some(behind(line, 2)),
        _ => None,
    }
}

fn pair_in(content: &str) -> Option<Pair<'_>>
    ensures { option_map pair_view result ≡ spec.pair_in content.now }
{
    let (key, value) = content.split_once(':')?;
    if !is_key(key) || !begins_blank(value) {
        return None;
    }
    match scalar_of(skip_blanks(value)) {
        Some(scalar) => Some(Pair { key, scalar }),
        None => None,
    }
}

/// What stands behind the first bytes, of which the last is ASCII.
fn behind(text: &str, len: usize) -> &str
    requires some { 0 < len }
    requires within { len ≤ length text.now }
    requires ascii { slice_index text.now (len - 1) < 128 }
    ensures { result.now ≡ drop len text.now }
{
    &text[len..]
}

fn skip_blanks(text: &str) -> &str
    ensures { result.now ≡ spec.skip_blanks text.now }
{
    text.trim_start_matches(' ')
}

fn begins_blank(text: &str) -> bool
    ensures { result ≡ spec.begins_blank text.now }
{
    match text.as_bytes() {
        [b' ', ..] => true,
        _ => false,
    }
}

/// Whether a text is a key: it isn't empty, has no blank, and doesn't begin with `#`.
fn is_key(text: &str) -> bool
    ensures { result ≡ spec.is_key text.now }
{
    !text.is_empty() && !begins_comment(text) && has_no_blank(text.as_bytes())
}

fn has_no_blank(bytes: &[u8]) -> bool
    ensures { result ≡ list_all spec.is_no_blank bytes.now }
{
    bytes.iter().all(|byte| *byte != b' ')
}

/// The scalar that a text is, but for blanks and a comment at its end.
fn scalar_of(text: &str) -> Option<&str>
    ensures { option_map (λ scalar. scalar.now) result ≡ spec.scalar_of text.now }
{
    match text.as_bytes() {
        [] => None,
        [b'"', ..] => quoted(behind(text, 1), '"'),
        [b'\'', ..] => quoted(behind(text, 1), '\''),
        _ => bare(text),
    }
}

/// What stands before the closing quote, where a line may end behind it.
fn quoted(text: &str, quote: char) -> Option<&str>
    requires { quote < 128 }
    ensures { option_map (λ scalar. scalar.now) result ≡ spec.quoted quote text.now }
{
    let (content, behind) = text.split_once(quote)?;
    if behind.is_empty() || (begins_blank(behind) && is_blank(behind)) {
        Some(content)
    } else {
        None
    }
}

/// What stands before a comment, without the blanks at its end; nothing where that is empty.
fn bare(text: &str) -> Option<&str>
    ensures { option_map (λ scalar. scalar.now) result ≡ spec.bare text.now }
{
    match bare_len(text.as_bytes()) {
        0 => None,
        len => Some(&text[..len]),
    }
}

/// Whether a byte begins a comment in a bare scalar.
fn ends_bare(byte: u8, behind_blank: bool) -> bool
    ensures { result ≡ (byte == 35 && behind_blank) }
{
    byte == b'#' && behind_blank
}

fn bare_len(bytes: &[u8]) -> usize
    ensures within { result ≤ length bytes.now }
    ensures front { take result bytes.now ≡ spec.trimmed (spec.without_comment true bytes.now) }
    ensures ends { result < length bytes.now → 0 < result → slice_index bytes.now result ≡ 32 }
{
    let mut len = 0;
    let mut behind_blank = true;
    for (at, &byte) in bytes.iter().enumerate() {
        if ends_bare(byte, behind_blank) {
            return len;
        }
        behind_blank = byte == b' ';
        if !behind_blank {
            len = at + 1;
        }
    }
    len
}
