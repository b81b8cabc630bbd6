//! Why a text is no configuration.

use std::alloc::AllocError;
use thiserror::Error;

/// Why a text is no configuration. Places are counted in bytes from the text's start.
#[derive(Clone, Copy, Debug, PartialEq, Eq, Drop, Error)]
pub enum ConfigFault {
    /// The text has more than 1,048,576 bytes.
    #[error("longer than 1048576 bytes")]
    Long,
    /// The token at this place can't stand behind those before it; or the text ends early, and this is its length.
    #[error("a syntax fault at {0}")]
    Syntax(usize),
    /// The token at this place opens the 65th level: of `{`, `[`, `(` and `!`.
    #[error("nested too deeply at {0}")]
    Deep(usize),
    /// Memory ran out.
    #[error("out of memory")]
    Memory,
}

impl From<AllocError> for ConfigFault {
    ghost use Rattle.std.specs.Prelude.{◌≡◌};
    ghost use Rattle.config_parse.specs.declared.fault.ConfigFault.TheVariants.{Memory};

    ghost from_gives = { λ _ e. e ≡ Memory };

    fn from(_e: AllocError) -> ConfigFault {
        ConfigFault::Memory
    }
}
