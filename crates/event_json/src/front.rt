// The front of a text that is ASCII, cut off.
ghost use Rattle.std.specs.Prelude.{◌≡◌, ◌<◌, ◌∷◌, MatchOption};
ghost use Rattle.event_json.specs.Stops.{BeginsOther, IsRest};

// The rest of a text, from where `rest` begins in its bytes.
pub(crate) fn rest_of<'t>(text: &'t str, rest: &[u8]) -> &'t str
    requires { IsRest text.now rest.now }
    ensures { result.now ≡ rest.now }
{
    &text[text.len() - rest.len()..]
}

// What follows an ASCII byte, where the text begins with it.
pub(crate) fn after_byte(text: &str, byte: u8) -> Option<&str>
    requires { byte < 128 }
    ensures { MatchOption result (BeginsOther byte text.now) (λ rest. text.now ≡ byte ∷ rest.now) }
{
    match text.as_bytes().split_first() {
        Some((first, rest)) if *first == byte => Some(rest_of(text, rest)),
        _ => None,
    }
}
