// An input that makes events of lines: stdin, or a generator.
use crate::generator::Generator;
use crate::settings::EventSettings;

/// An input that makes events of lines.
pub enum LineInput {
    /// It reads bytes, and has the lines of these.
    Stdin(EventSettings),
    /// It makes its lines itself.
    Generated(Generator),
}

// Written out, so that it is one call wherever an error is handed on while one is held.
impl Drop for LineInput {
    fn drop(self) {
        match self {
            LineInput::Stdin(_settings) => {}
            LineInput::Generated(_generator) => {}
        }
    }
}
