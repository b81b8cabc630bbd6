// How grok patterns are written.
ghost use Rattle.std.specs.Prelude.{◌≡◌, ◌<◌, ◌++◌, ◌∷◌, [], false, option_map, IfOk, OnOk};
ghost use Rattle.grok_patterns.specs.Pieces as spec;
ghost use Rattle.grok_patterns.specs.Pieces.{pair_of};
ghost use Rattle.grok_patterns.specs.declared.piece.PatternPiece.TheVariants as piece;

use event_text::path_in;
use event_tree::{Items, Path, Text};
use filter_settings::split_text;
use std::alloc::{AllocError, Global};

/// What the text of a capture becomes.
#[derive(Clone, Copy)]
pub enum Coercion {
    /// It stays a text.
    Text,
    /// A number, where it writes a whole one.
    Integer,
    /// A number, where it writes one.
    Float,
}

/// Where a capture is kept.
#[derive(Drop)]
pub struct Field {
    pub path: Path,
    pub coercion: Coercion,
}

/// A piece of a grok pattern.
#[derive(Drop)]
pub enum PatternPiece {
    /// Text of a regular expression.
    Written(Text),
    /// `(?<FIELD>`, which begins a group that is kept, where a group may begin.
    Group(Text),
    /// `%{NAME}`: what the name stands for, as a group; with a field it is kept there.
    Reference(Text, Option<Field>),
    /// `%{..}` with something between that can't be read.
    Unreadable,
}

/// The pieces of a grok pattern, in their order.
pub type PatternPieces = Items<PatternPiece>;

/// Reads a grok pattern. `%{NAME}`, `%{NAME:FIELD}`, `%{NAME:FIELD:int}` and `%{NAME:FIELD:float}` up to
/// the next `}` are references, and `(?<FIELD>` up to the next `>` is a group. With `all_kept` a
/// reference without a field is kept under its name. All else stands for itself.
#[tactic(auto, unfolding(crate::specs::Pieces::pieces_of))]
pub fn read_pieces(alloc: Global, all_kept: bool, text: &str) -> Result<PatternPieces, AllocError>
    ensures { IfOk result (λ pieces. pieces ≡ spec.pieces_of all_kept text.now) }
{
    let parts = split_text(alloc, text, "%{")?;
    pieces_of(alloc, all_kept, parts.as_slice())
}

fn pieces_of(alloc: Global, all_kept: bool, parts: &[Text]) -> Result<PatternPieces, AllocError>
    ensures { IfOk result (λ pieces. pieces ≡ spec.parts_pieces all_kept false parts.now) }
{
    let mut pieces = PatternPieces::new(alloc);
    let mut later = false;
    for part in parts {
        add_part(&mut pieces, all_kept, later, part.as_str())?;
        later = true;
    }
    Ok(pieces)
}

// What stands between two `%{`, in front of the first or behind the last.
fn add_part(
    pieces: &mut PatternPieces,
    all_kept: bool,
    later: bool,
    part: &str,
) -> Result<(), AllocError>
    ensures { OnOk result (pieces.new ≡ pieces.old ++ spec.part_pieces all_kept later part.now) }
{
    if !later {
        return add_plain(pieces, part);
    }
    match cut(part, '}') {
        Some((inner, behind)) => add_reference(pieces, all_kept, inner, behind),
        None => add_joined(pieces, "%{", part),
    }
}

// A reference, and what stands behind it.
fn add_reference(
    pieces: &mut PatternPieces,
    all_kept: bool,
    inner: &str,
    behind: &str,
) -> Result<(), AllocError>
    ensures { OnOk result (pieces.new
        ≡ pieces.old ++ spec.reference all_kept inner.now ∷ spec.plain_pieces behind.now) }
{
    let reference = read_reference(pieces.allocator(), all_kept, inner)?;
    pieces.push(reference)?;
    add_plain(pieces, behind)
}

// What holds no reference.
fn add_plain(pieces: &mut PatternPieces, text: &str) -> Result<(), AllocError>
    ensures { OnOk result (pieces.new ≡ pieces.old ++ spec.plain_pieces text.now) }
{
    let parts = split_text(pieces.allocator(), text, "(?<")?;
    add_groups(pieces, parts.as_slice())
}

fn add_groups(pieces: &mut PatternPieces, parts: &[Text]) -> Result<(), AllocError>
    ensures { OnOk result (pieces.new ≡ pieces.old ++ spec.groups_pieces false parts.now) }
{
    let mut later = false;
    for part in parts {
        add_group(pieces, later, part.as_str())?;
        later = true;
    }
    Ok(())
}

// What stands between two `(?<`, in front of the first or behind the last.
fn add_group(pieces: &mut PatternPieces, later: bool, part: &str) -> Result<(), AllocError>
    ensures { OnOk result (pieces.new ≡ pieces.old ++ spec.group_pieces later part.now) }
{
    if !later {
        return add_written(pieces, part);
    }
    match named(part) {
        Some((name, behind)) => add_named(pieces, name, behind),
        None => add_joined(pieces, "(?<", part),
    }
}

// A group of this name, and what stands behind it.
fn add_named(pieces: &mut PatternPieces, name: &str, behind: &str) -> Result<(), AllocError>
    ensures { OnOk result (pieces.new
        ≡ pieces.old ++ piece.Group name.now ∷ piece.Written behind.now ∷ []) }
{
    let name = Text::of(pieces.allocator(), name)?;
    pieces.push(PatternPiece::Group(name))?;
    add_written(pieces, behind)
}

fn add_written(pieces: &mut PatternPieces, text: &str) -> Result<(), AllocError>
    ensures { OnOk result (pieces.new ≡ pieces.old ++ piece.Written text.now ∷ []) }
{
    let text = Text::of(pieces.allocator(), text)?;
    pieces.push(PatternPiece::Written(text))
}

// Two texts as one piece.
fn add_joined(pieces: &mut PatternPieces, front: &str, back: &str) -> Result<(), AllocError>
    ensures { OnOk result (pieces.new ≡ pieces.old ++ piece.Written (front.now ++ back.now) ∷ []) }
{
    let text = joined(pieces.allocator(), front, back)?;
    pieces.push(PatternPiece::Written(text))
}

// The name of a group, up to its `>`, and what stands behind; none at a look-behind.
fn named(part: &str) -> Option<(&str, &str)>
    ensures { option_map pair_of result ≡ spec.named part.now }
{
    if looks_behind(part.as_bytes()) {
        return None;
    }
    cut(part, '>')
}

fn looks_behind(part: &[u8]) -> bool
    ensures { result ≡ spec.looks_behind part.now }
{
    match part.first() {
        Some(first) => *first == b'=' || *first == b'!',
        None => false,
    }
}

fn read_reference(alloc: Global, all_kept: bool, inner: &str) -> Result<PatternPiece, AllocError>
    ensures { IfOk result (λ piece. piece ≡ spec.reference all_kept inner.now) }
{
    match cut(inner, ':') {
        Some((name, rest)) => read_field(alloc, name, rest),
        None => {
            if all_kept {
                kept_at(alloc, inner, inner, Coercion::Text)
            } else {
                Ok(PatternPiece::Reference(Text::of(alloc, inner)?, None))
            }
        }
    }
}

fn read_field(alloc: Global, name: &str, rest: &str) -> Result<PatternPiece, AllocError>
    ensures { IfOk result (λ piece. piece ≡ spec.with_field name.now rest.now) }
{
    match cut(rest, ':') {
        Some((field, kind)) => match coercion_of(kind) {
            Some(coercion) => kept_at(alloc, name, field, coercion),
            None => Ok(PatternPiece::Unreadable),
        },
        None => kept_at(alloc, name, rest, Coercion::Text),
    }
}

fn coercion_of(kind: &str) -> Option<Coercion>
    ensures { result ≡ spec.coercion_of kind.now }
{
    match kind {
        "int" => Some(Coercion::Integer),
        "float" => Some(Coercion::Float),
        _ => None,
    }
}

fn kept_at(
    alloc: Global,
    name: &str,
    field: &str,
    coercion: Coercion,
) -> Result<PatternPiece, AllocError>
    ensures { IfOk result (λ piece. piece ≡ spec.kept_at name.now field.now coercion) }
{
    let Some(path) = path_in(alloc, field)? else {
        return Ok(PatternPiece::Unreadable);
    };
    let name = Text::of(alloc, name)?;
    Ok(PatternPiece::Reference(name, Some(Field { path, coercion })))
}

// What stands before the first such character of ASCII, and behind it.
fn cut(text: &str, at: char) -> Option<(&str, &str)>
    requires { at < 128 }
    ensures { option_map pair_of result ≡ spec.cut at text.now }
{
    text.split_once(at)
}

fn joined(alloc: Global, front: &str, back: &str) -> Result<Text, AllocError>
    ensures { IfOk result (λ text. text ≡ front.now ++ back.now) }
{
    let mut text = String::from_str(alloc, front)?;
    text.push_str(back)?;
    Ok(Text::from_string(text))
}
