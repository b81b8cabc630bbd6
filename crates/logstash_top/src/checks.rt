//! The checks of the configuration of a pipeline with these settings.

ghost use Rattle.std.specs.Prelude.{◌≡◌};
ghost use Rattle.foreign_parts.specs.Boxes.{Keeps};
ghost use Rattle.graph_checks.specs.Answers.{Gives};
ghost use Rattle.graph_checks.specs.Whole.{given_by};
ghost use Rattle.logstash_top.specs.Checks as spec;
ghost use Rattle.logstash_top.specs.Checks.{checked_all, place_checked, targets_checked};

use crate::built::output_plugins;
use built_plugins::{Outputs, Shared, Target};
use config_tree::Config;
use foreign_parts::Place;
use graph_checks::{Boxes, GraphFault, check};
use plain_data::Text;
use settings_lines::PipelineSettings;
use std::alloc::Global;

/// Sees whether a configuration may be run: makes the checks of `graph_checks`, and sees behind them whether a `file` output would
/// write into the folder of the queues. No box is taken.
pub(crate) fn check_all<B: Boxes>(
    alloc: Global,
    settings: &PipelineSettings,
    config: &Config,
    boxes: &mut B,
) -> Result<(), GraphFault>
    ensures fault { Gives result (checked_all
        (given_by B.stand B.links boxes.old settings.now.workers)
        settings.now.path_data config.now) }
    ensures keeps { Keeps B.stand B.links boxes.old boxes.new }
{
    check(alloc, config, boxes, settings.workers)?;
    let plugins = output_plugins(alloc, config)?;
    let outputs = Outputs::of_plugins(alloc, &[], plugins.as_slice())?;
    check_targets(settings.path_data.as_str(), outputs.targets.as_slice())
}

// Sees whether one of these is a file in a folder.
fn check_targets(folder: &str, targets: &[Shared<Target>]) -> Result<(), GraphFault>
    ensures { Gives result (targets_checked folder.now targets.now) }
{
    for target in targets {
        match check_place(folder, &target.get().place) {
            Ok(()) => {}
            Err(fault) => return Err(fault),
        }
    }
    Ok(())
}

fn check_place(folder: &str, place: &Place) -> Result<(), GraphFault>
    ensures { Gives result (place_checked folder.now place.now) }
{
    match place {
        Place::File(path) => check_file(folder, path),
        _ => Ok(()),
    }
}

fn check_file(folder: &str, path: &Text) -> Result<(), GraphFault>
    ensures { Gives result (spec.file_checked folder.now path.now) }
{
    if is_within(folder.as_bytes(), path.as_str().as_bytes()) {
        return Err(GraphFault::TwicePath(path.copy()?));
    }
    Ok(())
}

// Whether a path begins with that of a folder and a slash.
fn is_within(folder: &[u8], path: &[u8]) -> bool
    ensures { result ≡ spec.is_within folder.now path.now }
{
    match path.strip_prefix(folder) {
        Some(rest) => begins_with_slash(rest),
        None => false,
    }
}

fn begins_with_slash(path: &[u8]) -> bool
    ensures { result ≡ spec.begins_with_slash path.now }
{
    match path {
        [b'/', ..] => true,
        _ => false,
    }
}
