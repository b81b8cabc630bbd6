// How a replacement is written.
ghost use Rattle.std.specs.Prelude.{◌≡◌, ◌∷◌, ◌++◌, false, IfOk, OnOk};
ghost use Rattle.filters_mutate.specs.Gsub as spec;

use event_tree::Text;
use filter_settings::split_text;
use pattern_box::{Replacement, ReplacementPart};
use std::alloc::{AllocError, Global};

/// What a text stands for in the place of a match: `\1` to `\9` for the groups, and all else for itself.
pub(crate) fn read_replacement(alloc: Global, text: &str) -> Result<Replacement, AllocError>
    ensures { IfOk result (λ parts. parts ≡ spec.replacement text.now) }
{
    let pieces = split_text(alloc, text, "\\")?;
    parts_of(alloc, pieces.as_slice())
}

// The parts of the pieces around the backslashes.
fn parts_of(alloc: Global, pieces: &[Text]) -> Result<Replacement, AllocError>
    ensures { IfOk result (λ parts. parts ≡ spec.pieces_parts false pieces.now) }
{
    let mut parts = Replacement::new(alloc);
    let mut later = false;
    for piece in pieces {
        add_piece(alloc, &mut parts, later, piece.as_str())?;
        later = true;
    }
    Ok(parts)
}

fn add_piece(
    alloc: Global,
    parts: &mut Replacement,
    later: bool,
    piece: &str,
) -> Result<(), AllocError>
    ensures { OnOk result (parts.new ≡ parts.old ++ spec.piece_parts later piece.now) }
{
    if later {
        add_behind_backslash(alloc, parts, piece)
    } else {
        parts.push(ReplacementPart::Text(Text::of(alloc, piece)?))
    }
}

fn add_behind_backslash(
    alloc: Global,
    parts: &mut Replacement,
    piece: &str,
) -> Result<(), AllocError>
    ensures { OnOk result (parts.new ≡ parts.old ++ spec.behind_backslash piece.now) }
{
    match piece.as_bytes().first() {
        Some(digit) if is_group(*digit) => {
            parts.push(ReplacementPart::Group((*digit - b'0') as usize))?;
            parts.push(ReplacementPart::Text(Text::of(alloc, &piece[1..])?))
        }
        _ => parts.push(ReplacementPart::Text(with_backslash(alloc, piece)?)),
    }
}

fn is_group(byte: u8) -> bool
    ensures { result ≡ spec.is_group byte }
{
    b'1' <= byte && byte <= b'9'
}

fn with_backslash(alloc: Global, piece: &str) -> Result<Text, AllocError>
    ensures { IfOk result (λ text. text ≡ 92 ∷ piece.now) }
{
    let mut text = String::from_str(alloc, "\\")?;
    text.push_str(piece)?;
    Ok(Text::from_string(text))
}
