//! Why tokens could not be read.

use std::alloc::AllocError;

/// Why tokens are no configuration. A fault has the number of tokens from its place on.
#[derive(Drop)]
pub enum ReadError {
    Memory,
    /// The first of those tokens can't stand where it stands; or, with none left, the tokens end early.
    Syntax(usize),
    /// The first of those tokens opens a level too many.
    Deep(usize),
}

impl From<AllocError> for ReadError {
    ghost use Rattle.std.specs.Prelude.{◌≡◌};
    ghost use Rattle.config_parse.specs.declared.error.ReadError.TheVariants.{Memory};

    ghost from_gives = { λ _ e. e ≡ Memory };

    fn from(_e: AllocError) -> ReadError {
        ReadError::Memory
    }
}
