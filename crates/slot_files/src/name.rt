// The name of the position file of a path.
ghost use Rattle.std.specs.Prelude.{◌≡◌, ◌<◌, ◌∷◌, ◌++◌, [], string_bytes, IfOk, OnOk};
ghost use Rattle.std.specs.Char.{digit_char};
ghost use Rattle.slot_files.specs.Names.{is_plain, byte_named, path_named, start_of, position_name};

use plain_data::Text;
use std::alloc::{AllocError, Global};

/// Of what a position file records a position.
#[derive(Clone, Copy)]
pub enum PositionOf {
    /// Of a file that is written.
    Output,
    /// Of a file that is read.
    Input,
}

impl PositionOf {
    // What the name of such a position file begins with.
    fn start(self) -> &'static str
        ensures { result.now ≡ start_of self }
    {
        match self {
            PositionOf::Output => "out.",
            PositionOf::Input => "in.",
        }
    }
}

/// The last part of the name of the position file of a path: `out.` or `in.`, and the path, of which each
/// byte but ASCII letters, digits, `.` and `-` is written as `_` with two lower-case digits in base 16. No
/// two paths have one name.
///
/// An error is want of memory.
pub fn position_name(alloc: Global, of: PositionOf, path: &str) -> Result<Text, AllocError>
    ensures { IfOk result (λ name. name ≡ position_name of path.now) }
{
    let mut name = String::from_str(alloc, of.start())?;
    push_path(&mut name, path.as_bytes())?;
    Ok(Text::from_string(name))
}

// Appends a path as it stands in a name.
fn push_path(to: &mut String, path: &[u8]) -> Result<(), AllocError>
    ensures { OnOk result (string_bytes to.new ≡ string_bytes to.old ++ path_named path.now) }
{
    for byte in path {
        push_byte(to, *byte)?;
    }
    Ok(())
}

fn push_byte(to: &mut String, byte: u8) -> Result<(), AllocError>
    ensures { OnOk result (string_bytes to.new ≡ string_bytes to.old ++ byte_named byte) }
{
    if is_plain(byte) {
        return push_ascii(to, byte);
    }
    push_ascii(to, b'_')?;
    push_ascii(to, digit(byte / 16))?;
    push_ascii(to, digit(byte % 16))
}

fn is_plain(byte: u8) -> bool
    ensures plain { result ≡ is_plain byte }
{
    byte.is_ascii_alphanumeric() || byte == b'-' || byte == b'.'
}

// A digit in base 16.
fn digit(value: u8) -> u8
    requires { value < 16 }
    ensures digit { result ≡ digit_char value }
    ensures ascii { result < 128 }
{
    if value < 10 {
        b'0' + value
    } else {
        b'a' + (value - 10)
    }
}

fn push_ascii(to: &mut String, byte: u8) -> Result<(), AllocError>
    requires { byte < 128 }
    ensures { OnOk result (string_bytes to.new ≡ string_bytes to.old ++ byte ∷ []) }
{
    to.push(byte as char)
}
