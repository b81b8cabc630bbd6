// Why settings of a plugin are refused.
use plain_data::Text;
use std::alloc::AllocError;
use thiserror::Error;

/// Why a plugin's settings are refused. Each variant has the name of the setting.
#[derive(Debug, Drop, Error)]
pub enum SettingFault {
    /// The plugin needs the setting, and it doesn't stand there.
    #[error("the setting {0} is missing")]
    Missing(Text),
    /// The plugin has no such setting.
    #[error("the setting {0} is unknown")]
    Unknown(Text),
    /// The setting has a value of another kind.
    #[error("the setting {0} has a value of another kind")]
    WrongKind(Text),
    /// The setting has a text that should be a pattern, and is none.
    #[error("the setting {0} has a bad pattern")]
    BadPattern(Text),
}

/// Why nothing was made of settings.
#[derive(Debug, Drop, Error)]
pub enum FromFault {
    /// The settings are refused.
    #[error("{0}")]
    Bad(SettingFault),
    /// Memory ran out.
    #[error("out of memory")]
    Memory,
}

impl From<AllocError> for FromFault {
    ghost use Rattle.std.specs.Prelude.{◌≡◌};
    ghost use Rattle.config_tree.specs.declared.fault.FromFault.TheVariants.{Memory};

    ghost from_gives = { λ _ fault. fault ≡ Memory };

    fn from(_error: AllocError) -> FromFault {
        FromFault::Memory
    }
}
