// The inputs and outputs of a plan, as their settings say.
ghost use Rattle.std.specs.Prelude.{◌≡◌, ◌++◌, map, IfOk, OnOk, Option, option_copied};
ghost use Rattle.filter_settings.specs.Settings.{Gives, Made};
ghost use Rattle.plugin_settings.specs.declared.read.Input.{Input as Source};
ghost use Rattle.plugin_settings.specs.declared.read.Output.{Output as Written};
ghost use Rattle.graph_checks.specs.Planned as spec;

use built_plugins::{Flat, Outputs, plugin_id};
use config_tree::{Config, FromFault, Plugin, copy_statements};
use plain_data::{Items, Text};
use plugin_settings::{Input, OutCodec, Output, read_input, read_output};
use std::alloc::{AllocError, Global};

/// An input of a plan.
pub struct PlannedInput {
    pub id: Text,
    /// What its statement sets it to.
    pub input: Input,
}

// Written out, so that it is one call wherever an error is handed on while it is held.
impl Drop for PlannedInput {
    fn drop(self) {
        let PlannedInput {
            id: _id,
            input: _input,
        } = self;
    }
}

/// The outputs of a plan, in the order of the text.
#[derive(Drop)]
pub struct PlannedOutputs {
    /// Their ids, and the places to which they deliver.
    pub outputs: Outputs,
    /// What each is set to; none where it is a box.
    pub settings: Items<Option<Output>>,
}

impl PlannedOutputs {
    /// How the output at this place writes events, where it writes them to stdout or a file.
    pub fn codec(&self, at: usize) -> Option<&OutCodec>
        ensures { option_copied result ≡ spec.codec_at self.now.settings at }
    {
        match self.settings.as_slice().get(at) {
            Some(Some(Output::Stdout(settings))) => Some(&settings.codec),
            Some(Some(Output::File(settings))) => Some(&settings.codec),
            _ => None,
        }
    }
}

/// The inputs that plugins are, in the order of the text. One whose settings are refused is left out; the checks refuse
/// such a configuration.
pub(crate) fn plan_inputs(
    alloc: Global,
    plugins: &[Plugin],
) -> Result<Items<PlannedInput>, AllocError>
    ensures { IfOk result (λ planned. planned ≡ spec.inputs_from 1 plugins.now) }
{
    let mut planned = Items::with_capacity(alloc, plugins.len())?;
    for at in 0..plugins.len() {
        add_input(alloc, at as u64 + 1, &plugins[at], &mut planned)?;
    }
    Ok(planned)
}

// Adds the input that the k-th plugin is, unless its settings are refused.
fn add_input(
    alloc: Global,
    number: u64,
    plugin: &Plugin,
    planned: &mut Items<PlannedInput>,
) -> Result<(), AllocError>
    ensures { OnOk result (planned.new ≡ planned.old ++ spec.input_at number plugin.now) }
{
    match unless_bad_input(read_input(plugin.name.as_str(), &plugin.settings))? {
        Some(input) => {
            let id = plugin_id(alloc, "input", number, plugin)?;
            planned.push(PlannedInput { id, input })
        }
        None => Ok(()),
    }
}

fn unless_bad_input(read: Result<Option<Input>, FromFault>) -> Result<Option<Input>, AllocError>
    ensures { (said : Made (Option Source)) → Gives read said
        → IfOk result (λ input. input ≡ spec.unless_refused said) }
{
    match read {
        Ok(input) => Ok(input),
        Err(FromFault::Bad(_)) => Ok(None),
        Err(FromFault::Memory) => Err(AllocError),
    }
}

/// The outputs of a configuration, with the numbers that were drawn for its boxed ones.
pub(crate) fn plan_outputs(
    alloc: Global,
    config: &Config,
    draws: &[(Text, u64)],
) -> Result<PlannedOutputs, AllocError>
    ensures { IfOk result (λ planned. planned ≡ spec.planned_outputs draws.now config.now) }
{
    let outputs = copy_statements(alloc, config.outputs.as_slice())?;
    let Flat { plugins, .. } = Flat::of_statements(alloc, outputs)?;
    Ok(PlannedOutputs {
        outputs: Outputs::of_plugins(alloc, draws, plugins.as_slice())?,
        settings: read_outputs(alloc, plugins.as_slice())?,
    })
}

fn read_outputs(alloc: Global, plugins: &[Plugin]) -> Result<Items<Option<Output>>, AllocError>
    ensures { IfOk result (λ read. read ≡ map spec.output_at plugins.now) }
{
    let mut read = Items::with_capacity(alloc, plugins.len())?;
    for plugin in plugins {
        read.push(unless_bad_output(read_output(plugin.name.as_str(), &plugin.settings))?)?;
    }
    Ok(read)
}

fn unless_bad_output(read: Result<Option<Output>, FromFault>) -> Result<Option<Output>, AllocError>
    ensures { (said : Made (Option Written)) → Gives read said
        → IfOk result (λ output. output ≡ spec.unless_refused said) }
{
    match read {
        Ok(output) => Ok(output),
        Err(FromFault::Bad(_)) => Ok(None),
        Err(FromFault::Memory) => Err(AllocError),
    }
}
