// Inputs and outputs of any kind with their settings, read by the plugin's name.
ghost use Rattle.filter_settings.specs.Settings.{Gives};
ghost use Rattle.plugin_settings.specs.Inputs as inputs;
ghost use Rattle.plugin_settings.specs.Outputs as outputs;
ghost use Rattle.plugin_settings.specs.Read as spec;
ghost use Rattle.plugin_settings.specs.declared.read.Input.TheVariants as input;
ghost use Rattle.plugin_settings.specs.declared.read.Output.TheVariants as output;

use crate::common::InputSettings;
use crate::inputs::{FileInputSettings, GeneratorSettings};
use crate::network::{AddressSettings, DeadLetterSettings, HttpSettings, TcpSettings};
use crate::outputs::{FileOutputSettings, SendSettings, SinkSettings, StdoutSettings};
use config_tree::{FromFault, Settings};
use filter_settings::read_settings;
use in_lines::Codec;

/// What an input is set to, of any kind.
pub enum Input {
    Stdin(InputSettings),
    Generator(GeneratorSettings),
    File(FileInputSettings),
    Tcp(TcpSettings),
    Http(HttpSettings),
    Pipeline(AddressSettings),
    DeadLetters(DeadLetterSettings),
}

impl Drop for Input {
    fn drop(self) {
        match self {
            Input::Stdin(_settings) => {}
            Input::Generator(_settings) => {}
            Input::File(_settings) => {}
            Input::Tcp(_settings) => {}
            Input::Http(_settings) => {}
            Input::Pipeline(_settings) => {}
            Input::DeadLetters(_settings) => {}
        }
    }
}

/// What an output is set to, of any kind that is built in.
pub enum Output {
    Stdout(StdoutSettings),
    File(FileOutputSettings),
    Pipeline(SendSettings),
    Sink(SinkSettings),
}

impl Drop for Output {
    fn drop(self) {
        match self {
            Output::Stdout(_settings) => {}
            Output::File(_settings) => {}
            Output::Pipeline(_settings) => {}
            Output::Sink(_settings) => {}
        }
    }
}

/// The input of a name with what its settings say; none where no input has the name. The fault is that of
/// the first setting, in the order of the text, that is unknown or of another kind, and then that of one
/// which is missing.
#[tactic(auto, unfolding(crate::specs::Read::input_of))]
pub fn read_input(name: &str, settings: &Settings) -> Result<Option<Input>, FromFault>
    ensures { Gives result (spec.input_of name.now settings.now.list) }
{
    match name {
        "stdin" => stdin_input(settings),
        "generator" => generator_input(settings),
        "file" => file_input(settings),
        "tcp" => tcp_input(settings),
        "http" => http_input(settings),
        "pipeline" => address_input(settings),
        "dead_letter_queue" => letters_input(settings),
        _ => Ok(None),
    }
}

fn stdin_input(settings: &Settings) -> Result<Option<Input>, FromFault>
    ensures { Gives result (spec.some_of input.Stdin (inputs.stdin_of settings.now.list)) }
{
    Ok(Some(Input::Stdin(read_stdin(settings)?)))
}

fn generator_input(settings: &Settings) -> Result<Option<Input>, FromFault>
    ensures { Gives result (spec.some_of input.Generator (inputs.generator_of settings.now.list)) }
{
    Ok(Some(Input::Generator(GeneratorSettings::from_settings(settings)?)))
}

fn file_input(settings: &Settings) -> Result<Option<Input>, FromFault>
    ensures { Gives result (spec.some_of input.File (inputs.file_of settings.now.list)) }
{
    Ok(Some(Input::File(FileInputSettings::from_settings(settings)?)))
}

fn tcp_input(settings: &Settings) -> Result<Option<Input>, FromFault>
    ensures { Gives result (spec.some_of input.Tcp (inputs.tcp_of settings.now.list)) }
{
    Ok(Some(Input::Tcp(TcpSettings::from_settings(settings)?)))
}

fn http_input(settings: &Settings) -> Result<Option<Input>, FromFault>
    ensures { Gives result (spec.some_of input.Http (inputs.http_of settings.now.list)) }
{
    Ok(Some(Input::Http(HttpSettings::from_settings(settings)?)))
}

fn address_input(settings: &Settings) -> Result<Option<Input>, FromFault>
    ensures { Gives result (spec.some_of input.Pipeline (inputs.address_of settings.now.list)) }
{
    Ok(Some(Input::Pipeline(AddressSettings::from_settings(settings)?)))
}

fn letters_input(settings: &Settings) -> Result<Option<Input>, FromFault>
    ensures { Gives result (spec.some_of input.DeadLetters (inputs.letters_of settings.now.list)) }
{
    Ok(Some(Input::DeadLetters(DeadLetterSettings::from_settings(settings)?)))
}

fn read_stdin(settings: &Settings) -> Result<InputSettings, FromFault>
    ensures { Gives result (inputs.stdin_of settings.now.list) }
{
    let start = InputSettings::new(settings.list.allocator(), Codec::Line);
    read_settings(settings, start)
}

/// The output of a name with what its settings say; none where no output that is built in has the name. The
/// fault is that of the first setting, in the order of the text, that is unknown or of another kind, and
/// then that of one which is missing.
#[tactic(auto, unfolding(crate::specs::Read::output_of))]
pub fn read_output(name: &str, settings: &Settings) -> Result<Option<Output>, FromFault>
    ensures { Gives result (spec.output_of name.now settings.now.list) }
{
    match name {
        "stdout" => stdout_output(settings),
        "file" => file_output(settings),
        "pipeline" => send_output(settings),
        "sink" => sink_output(settings),
        _ => Ok(None),
    }
}

fn stdout_output(settings: &Settings) -> Result<Option<Output>, FromFault>
    ensures { Gives result (spec.some_of output.Stdout (outputs.stdout_of settings.now.list)) }
{
    Ok(Some(Output::Stdout(StdoutSettings::from_settings(settings)?)))
}

fn file_output(settings: &Settings) -> Result<Option<Output>, FromFault>
    ensures { Gives result (spec.some_of output.File (outputs.file_of settings.now.list)) }
{
    Ok(Some(Output::File(FileOutputSettings::from_settings(settings)?)))
}

fn send_output(settings: &Settings) -> Result<Option<Output>, FromFault>
    ensures { Gives result (spec.some_of output.Pipeline (outputs.send_of settings.now.list)) }
{
    Ok(Some(Output::Pipeline(SendSettings::from_settings(settings)?)))
}

fn sink_output(settings: &Settings) -> Result<Option<Output>, FromFault>
    ensures { Gives result (spec.some_of output.Sink (outputs.sink_of settings.now.list)) }
{
    Ok(Some(Output::Sink(SinkSettings::from_settings(settings)?)))
}
