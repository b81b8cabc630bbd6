//! What inputs and outputs are set to: their settings, read once and in the order of the text, up to the
//! first that is at fault.
#![tactic(auto)]

mod codecs;
mod common;
mod faults;
mod inputs;
mod network;
mod numbers;
mod outputs;
mod read;

pub use codecs::{read_codec, read_out_codec};
pub use common::InputSettings;
pub use config_tree::{FromFault, SettingFault, Settings};
pub use in_lines::{Codec, OutCodec};
pub use inputs::{FileInputSettings, GeneratorSettings};
pub use network::{AddressSettings, DeadLetterSettings, HttpSettings, TcpSettings};
pub use outputs::{FileOutputSettings, SendSettings, SinkSettings, StdoutSettings};
pub use read::{Input, Output, read_input, read_output};
