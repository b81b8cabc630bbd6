// Whether a configuration is one that the program can run.
ghost use Rattle.std.specs.Prelude.{◌≡◌, IfOk};
ghost use Rattle.std.specs.List.{list_all};
ghost use Rattle.event_flow.specs.Parts.{parts_of};
ghost use Rattle.logstash_top.specs.Built as spec;

use built_plugins::Flat;
use config_tree::{Config, Plugin, copy_statements};
use plain_data::Items;
use std::alloc::{AllocError, Global};

/// Whether a configuration is one that the program runs: its inputs are stdin, generators, files and connections, and none
/// of its outputs sends to a pipeline. The only error is want of memory.
pub(crate) fn is_built(alloc: Global, config: &Config) -> Result<bool, AllocError>
    ensures { IfOk result (λ built. built ≡ spec.is_built config.now) }
{
    if !are_built_inputs(config.inputs.as_slice()) {
        return Ok(false);
    }
    let outputs = output_plugins(alloc, config)?;
    Ok(are_built_outputs(outputs.as_slice()))
}

/// The plugins of the output section, in the order of the text.
pub(crate) fn output_plugins(alloc: Global, config: &Config) -> Result<Items<Plugin>, AllocError>
    ensures { IfOk result (λ plugins. plugins ≡ (parts_of config.now.outputs).plugins) }
{
    let outputs = copy_statements(alloc, config.outputs.as_slice())?;
    let Flat { plugins, .. } = Flat::of_statements(alloc, outputs)?;
    Ok(plugins)
}

fn are_built_inputs(inputs: &[Plugin]) -> bool
    ensures { result ≡ list_all spec.is_built_input inputs.now }
{
    inputs.iter().all(is_built_input)
}

fn is_built_input(plugin: &Plugin) -> bool
    ensures { result ≡ spec.is_built_input plugin.now }
{
    match plugin.name.as_str() {
        "stdin" | "generator" | "file" | "tcp" => true,
        _ => false,
    }
}

fn are_built_outputs(outputs: &[Plugin]) -> bool
    ensures { result ≡ list_all spec.is_built_output outputs.now }
{
    outputs.iter().all(is_built_output)
}

fn is_built_output(plugin: &Plugin) -> bool
    ensures { result ≡ spec.is_built_output plugin.now }
{
    plugin.name.as_str() != "pipeline"
}
