// Splitting a text around a separator.
ghost use Rattle.std.specs.Prelude.{◌≡◌, ◌<◌, ◌++◌, ◌∷◌, [], length, IfOk, OnOk};
ghost use Rattle.std.specs.Prelude.{encode_utf8};
ghost use Rattle.filter_settings.specs.Pieces as spec;

use event_tree::Names;
use plain_data::Text;
use std::alloc::{AllocError, Global};

/// The pieces of a text around a separator, from the front on; an empty separator gives the characters.
///
/// Empty pieces are among them: of a separator that is not empty there is one piece more than separators.
/// It takes time in proportion to the text.
pub fn split_text(alloc: Global, text: &str, separator: &str) -> Result<Names, AllocError>
    ensures { IfOk result (λ pieces. pieces ≡ spec.split_text separator.now text.now) }
{
    if separator.is_empty() {
        characters(alloc, text)
    } else {
        pieces(alloc, text, separator)
    }
}

fn pieces(alloc: Global, text: &str, separator: &str) -> Result<Names, AllocError>
    requires { 0 < length separator.now }
    ensures { IfOk result (λ pieces. pieces ≡ spec.pieces separator.now text.now) }
{
    let mut found = Names::new(alloc);
    let mut rest = text;
    while let Some((before, behind)) = rest.split_once(separator) {
        add_text(&mut found, before)?;
        rest = behind;
    }
    add_text(&mut found, rest)?;
    Ok(found)
}

/// Adds a copy of a text.
pub(crate) fn add_text(to: &mut Names, text: &str) -> Result<(), AllocError>
    ensures { OnOk result (to.new ≡ to.old ++ text.now ∷ []) }
{
    let text = Text::of(to.allocator(), text)?;
    to.push(text)
}

fn characters(alloc: Global, text: &str) -> Result<Names, AllocError>
    ensures { IfOk result (λ found. found ≡ spec.characters text.now) }
{
    let mut found = Names::new(alloc);
    for character in text.chars() {
        found.push(text_of(alloc, character)?)?;
    }
    Ok(found)
}

fn text_of(alloc: Global, character: char) -> Result<Text, AllocError>
    ensures { IfOk result (λ text. text ≡ encode_utf8 character) }
{
    let mut text = String::new(alloc);
    text.push(character)?;
    Ok(Text::from_string(text))
}
