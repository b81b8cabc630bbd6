// The keys and values that a text of pairs writes, as the filter `kv` reads them.
ghost use Rattle.std.specs.Prelude.{◌≡◌, ◌++◌, ◌∷◌, [], IfOk, OnOk, option_map, map, drop, true};
ghost use Rattle.std.specs.Str.{chars};
ghost use Rattle.filters_text.specs.Pairs as spec;
ghost use Rattle.filters_text.specs.Views.{both_chars, found_of, piece_of};

use plain_data::Items;
use std::alloc::{AllocError, Global};

/// The characters at which a text is split into keys and values.
pub struct Splits {
    /// Those between two pairs.
    pub fields: Items<char>,
    /// Those between a key and its value.
    pub values: Items<char>,
    /// Those that end a key: all of these.
    pub keys: Items<char>,
}

// Written out, so that it is one call wherever an error is handed on while one is held.
impl Drop for Splits {
    fn drop(self) {
        let Splits {
            fields: _fields,
            values: _values,
            keys: _keys,
        } = self;
    }
}

impl Splits {
    /// The keys and values of a text, in its order. It takes time in proportion to the text.
    pub fn pairs<'t>(
        &self,
        alloc: Global,
        text: &'t str,
    ) -> Result<Vec<(&'t str, &'t str)>, AllocError>
        ensures { IfOk result (λ pairs. map both_chars pairs.items ≡ spec.pairs_in self.now
            (chars text.now)) }
    {
        let mut found = Vec::new(alloc);
        let mut unclosed = Vec::new(alloc);
        let mut rest = self.behind_splits(text);
        while !rest.is_empty() {
            let (pair, left) = self.piece(rest, &mut unclosed)?;
            add_pair(&mut found, pair)?;
            rest = self.behind_splits(left);
        }
        Ok(found)
    }

    fn behind_splits<'t>(&self, text: &'t str) -> &'t str
        ensures { chars result.now ≡ spec.behind self.now.fields (chars text.now) }
    {
        behind(text, self.fields.as_slice())
    }

    /// The pair in front of a text, if there is one, and what is left behind it. `unclosed` are closing
    /// characters that are known not to stand in the text: none is looked for twice in vain.
    fn piece<'t>(
        &self,
        text: &'t str,
        unclosed: &mut Vec<char>,
    ) -> Result<(Option<(&'t str, &'t str)>, &'t str), AllocError>
        requires { spec.are_missing unclosed.old.items (chars text.now) ≡ true }
        ensures piece { IfOk result (λ piece. piece_of piece ≡ spec.piece_at self.now
            (chars text.now)) }
        ensures unclosed { IfOk result (λ piece. spec.are_missing unclosed.new.items
            (spec.behind self.now.fields (chars piece.1.now)) ≡ true) }
    {
        let (key, rest) = cut(text, self.keys.as_slice());
        if key.is_empty() {
            return Ok((None, self.next_piece(rest)));
        }
        let Some(behind) = behind_one(rest, self.values.as_slice()) else {
            return Ok((None, self.next_piece(rest)));
        };
        let (value, left) = self.value(behind, unclosed)?;
        Ok((with_key(key, value), left))
    }

    fn next_piece<'t>(&self, text: &'t str) -> &'t str
        ensures { chars result.now ≡ spec.since self.now.fields (chars text.now) }
    {
        cut(text, self.fields.as_slice()).1
    }

    /// The value in front of a text, if there is one, and what is left behind it.
    fn value<'t>(
        &self,
        text: &'t str,
        unclosed: &mut Vec<char>,
    ) -> Result<(Option<&'t str>, &'t str), AllocError>
        requires { spec.are_missing unclosed.old.items (chars text.now) ≡ true }
        ensures found { IfOk result (λ found. found_of found ≡ spec.value_at self.now
            (chars text.now)) }
        ensures unclosed { IfOk result (λ found. spec.are_missing unclosed.new.items
            (spec.behind self.now.fields (chars found.1.now)) ≡ true) }
    {
        match enclosed(text, unclosed)? {
            Some((value, behind)) => Ok((Some(value), self.next_piece(behind))),
            None => {
                let (value, left) = cut(text, self.fields.as_slice());
                Ok((some_text(value), left))
            }
        }
    }
}

fn add_pair<'t>(
    found: &mut Vec<(&'t str, &'t str)>,
    pair: Option<(&'t str, &'t str)>,
) -> Result<(), AllocError>
    ensures { OnOk result (map both_chars found.new.items
        ≡ map both_chars found.old.items ++ spec.listed (option_map both_chars pair.entry)) }
{
    if let Some(pair) = pair {
        found.push(pair)?;
    }
    Ok(())
}

fn with_key<'t>(key: &'t str, value: Option<&'t str>) -> Option<(&'t str, &'t str)>
    ensures { option_map both_chars result ≡ option_map (λ value. (chars key.now, value))
        (option_map (λ v. chars v.now) value.entry) }
{
    match value {
        Some(value) => Some((key, value)),
        None => None,
    }
}

fn some_text(text: &str) -> Option<&str>
    ensures { option_map (λ found. chars found.now) result ≡ spec.some_text (chars text.now) }
{
    if text.is_empty() { None } else { Some(text) }
}

/// What stands between an opening character in front and the next that closes it, and what stands
/// behind that.
fn enclosed<'t>(
    text: &'t str,
    unclosed: &mut Vec<char>,
) -> Result<Option<(&'t str, &'t str)>, AllocError>
    requires { spec.are_missing unclosed.old.items (chars text.now) ≡ true }
    ensures found { IfOk result (λ found. option_map both_chars found ≡ spec.enclosed
        (chars text.now)) }
    ensures unclosed { OnOk result (spec.are_missing unclosed.new.items (drop 1 (chars text.now)) ≡
        true) }
{
    let mut inside = text.chars();
    let Some(first) = inside.next() else {
        return Ok(None);
    };
    let Some(closing) = closing(first) else {
        return Ok(None);
    };
    closed(inside.as_str(), closing, unclosed)
}

/// What stands before a closing character, and what stands behind it.
fn closed<'t>(
    text: &'t str,
    closing: char,
    unclosed: &mut Vec<char>,
) -> Result<Option<(&'t str, &'t str)>, AllocError>
    requires { spec.are_missing unclosed.old.items (chars text.now) ≡ true }
    ensures found { IfOk result (λ found. option_map both_chars found ≡ spec.cut_at closing
        (chars text.now)) }
    ensures unclosed { OnOk result (spec.are_missing unclosed.new.items (chars text.now) ≡ true) }
{
    if unclosed.contains(&closing) {
        return Ok(None);
    }
    match text.split_once(closing) {
        Some(parts) => Ok(Some(parts)),
        None => {
            unclosed.push(closing)?;
            Ok(None)
        }
    }
}

/// The character that closes what another opens.
fn closing(opening: char) -> Option<char>
    ensures { result ≡ spec.closing opening }
{
    match opening {
        '"' => Some('"'),
        '\'' => Some('\''),
        '(' => Some(')'),
        '[' => Some(']'),
        '<' => Some('>'),
        _ => None,
    }
}

/// The text before the first character of a set, and the text from it on.
fn cut<'t>(text: &'t str, set: &[char]) -> (&'t str, &'t str)
    ensures { both_chars result ≡ (
      spec.until set.now (chars text.now),
      spec.since set.now
          (chars text.now),
    ) }
{
    match text.find(set) {
        Some(at) => text.split_at(at),
        None => text.split_at(text.len()),
    }
}

/// The text behind its first character, where that is one of a set.
fn behind_one<'t>(text: &'t str, set: &[char]) -> Option<&'t str>
    ensures { option_map (λ rest. chars rest.now) result ≡ spec.behind_one set.now
        (chars text.now) }
{
    text.strip_prefix(set)
}

/// The text without the characters of a set that stand in front.
fn behind<'t>(text: &'t str, set: &[char]) -> &'t str
    ensures { chars result.now ≡ spec.behind set.now (chars text.now) }
{
    let mut rest = text;
    while let Some(shorter) = rest.strip_prefix(set) {
        rest = shorter;
    }
    rest
}

/// The text without the characters of a set that stand at its end.
fn before<'t>(text: &'t str, set: &[char]) -> &'t str
    ensures { chars result.now ≡ spec.before set.now (chars text.now) }
{
    let mut rest = text;
    while let Some(shorter) = rest.strip_suffix(set) {
        rest = shorter;
    }
    rest
}

/// The text without the characters of a set that stand at both ends.
pub fn trimmed<'t>(text: &'t str, set: &[char]) -> &'t str
    ensures { chars result.now ≡ spec.trimmed set.now (chars text.now) }
{
    before(behind(text, set), set)
}
