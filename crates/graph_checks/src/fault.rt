// Why a configuration is refused.
use config_tree::SettingFault;
use plain_data::Text;
use std::alloc::AllocError;
use thiserror::Error;

/// Why a configuration is refused.
#[derive(Debug, Drop, Error)]
pub enum GraphFault {
    /// No plugin of its section has the name, and no box was ever handed in under it.
    #[error("there is no plugin {0}")]
    UnknownPlugin(Text),
    /// A setting of the plugin of this id, or a pattern of the condition of this id, is refused.
    #[error("{0}: {1}")]
    Setting(Text, SettingFault),
    /// An earlier plugin has the id.
    #[error("the id {0} stands twice")]
    TwiceId(Text),
    /// An earlier `file` output, or an earlier `file` input, has the path.
    #[error("the path {0} stands twice")]
    TwicePath(Text),
    /// An earlier input listens on the address.
    #[error("the address {0} stands twice")]
    TwiceAddress(Text),
    /// An earlier input is `stdin` too.
    #[error("stdin stands twice")]
    TwiceStdin,
    /// The name of the position file of this path has more than 250 bytes.
    #[error("the path {0} is too long")]
    PathLong(Text),
    #[error("there is no input")]
    NoInput,
    #[error("there is no output")]
    NoOutput,
    /// Of the boxes of this name so many are wanted, and fewer are left: so many.
    #[error("of {0} {1} are wanted, and {2} are left")]
    NoSpare(Text, u64, u64),
    #[error("out of memory")]
    Memory,
}

impl From<AllocError> for GraphFault {
    ghost use Rattle.std.specs.Prelude.{◌≡◌};
    ghost use Rattle.graph_checks.specs.declared.fault.GraphFault.TheVariants.{Memory};

    ghost from_gives = { λ _ fault. fault ≡ Memory };

    fn from(_error: AllocError) -> GraphFault {
        GraphFault::Memory
    }
}
