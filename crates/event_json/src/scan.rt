// Blanks, numbers and literals, on bytes: what follows them, or where they stop.
ghost use Rattle.std.specs.Prelude.{◌≡◌, length};
ghost use Rattle.event_json.specs.Reading.{skip as skipped, skip_digits as skipped_digits, digits as some_digits, after_minus as unsigned, after_sign as unsigned_exponent, whole as whole_part, fraction as fraction_part, exponent as exponent_part, after_number, after_word as behind_word};
ghost use Rattle.event_json.specs.Stops.{Gives};

use crate::fault::JsonStop;

pub(crate) fn stopped(rest: &[u8]) -> JsonStop
    ensures { result ≡ JsonStop.At (length rest.now) }
{
    JsonStop::At(rest.len())
}

pub(crate) fn skip(bytes: &[u8]) -> &[u8]
    ensures { result.now ≡ skipped bytes.now }
{
    let mut rest = bytes;
    while let [b' ' | b'\t' | b'\n' | b'\r', more @ ..] = rest {
        rest = more;
    }
    rest
}

fn skip_digits(bytes: &[u8]) -> &[u8]
    ensures { result.now ≡ skipped_digits bytes.now }
{
    let mut rest = bytes;
    while let [b'0'..=b'9', more @ ..] = rest {
        rest = more;
    }
    rest
}

fn digits(bytes: &[u8]) -> Result<&[u8], JsonStop>
    ensures { Gives (λ x. x.now) result (some_digits bytes.now) }
{
    match bytes {
        [b'0'..=b'9', more @ ..] => Ok(skip_digits(more)),
        _ => Err(stopped(bytes)),
    }
}

fn after_minus(bytes: &[u8]) -> &[u8]
    ensures { result.now ≡ unsigned bytes.now }
{
    match bytes {
        [b'-', more @ ..] => more,
        _ => bytes,
    }
}

fn after_sign(bytes: &[u8]) -> &[u8]
    ensures { result.now ≡ unsigned_exponent bytes.now }
{
    match bytes {
        [b'-' | b'+', more @ ..] => more,
        _ => bytes,
    }
}

fn whole(bytes: &[u8]) -> Result<&[u8], JsonStop>
    ensures { Gives (λ x. x.now) result (whole_part bytes.now) }
{
    match bytes {
        [b'0', more @ ..] => Ok(more),
        _ => digits(bytes),
    }
}

fn fraction(bytes: &[u8]) -> Result<&[u8], JsonStop>
    ensures { Gives (λ x. x.now) result (fraction_part bytes.now) }
{
    match bytes {
        [b'.', more @ ..] => digits(more),
        _ => Ok(bytes),
    }
}

fn exponent(bytes: &[u8]) -> Result<&[u8], JsonStop>
    ensures { Gives (λ x. x.now) result (exponent_part bytes.now) }
{
    match bytes {
        [b'e' | b'E', more @ ..] => digits(after_sign(more)),
        _ => Ok(bytes),
    }
}

#[tactic(auto, unfolding(crate::specs::Reading::after_number))]
pub(crate) fn number_end(bytes: &[u8]) -> Result<&[u8], JsonStop>
    ensures { Gives (λ x. x.now) result (after_number bytes.now) }
{
    let rest = whole(after_minus(bytes))?;
    let rest = fraction(rest)?;
    exponent(rest)
}

pub(crate) fn after_word<'t>(bytes: &'t [u8], word: &[u8]) -> Result<&'t [u8], JsonStop>
    ensures { Gives (λ x. x.now) result (behind_word word.now bytes.now) }
{
    let mut rest = bytes;
    for letter in word {
        let Some((first, more)) = rest.split_first() else {
            return Err(stopped(rest));
        };
        if first != letter {
            return Err(stopped(rest));
        }
        rest = more;
    }
    Ok(rest)
}
