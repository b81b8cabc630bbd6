// Reading the settings of a built-in plugin, and what is kept of them.
ghost use Rattle.std.specs.Prelude.{◌≡◌, IfOk};
ghost use Rattle.filter_settings.specs.Settings.{Gives};
ghost use Rattle.graph_checks.specs.BuiltIn as spec;

use built_plugins::BuiltFilter;
use config_tree::{FromFault, Plugin};
use foreign_parts::BoxKind;
use plain_data::Text;
use plugin_settings::{Output, read_output};
use std::alloc::AllocError;

/// What is kept of a plugin that is built in.
#[derive(Drop)]
pub(crate) struct BuiltIn {
    /// The path of a file that it writes.
    pub path: Option<Text>,
}

/// What is read of a plugin by its name and its settings; none where none of its kind and name is built in.
pub(crate) fn read_built_in(kind: BoxKind, plugin: &Plugin) -> Result<Option<BuiltIn>, FromFault>
    ensures { Gives result (spec.built_in kind plugin.now.name plugin.now.settings.list) }
{
    match kind {
        BoxKind::Filter => match BuiltFilter::from_plugin(plugin)? {
            Some(_filter) => Ok(Some(BuiltIn { path: None })),
            None => Ok(None),
        },
        BoxKind::Output => match read_output(plugin.name.as_str(), &plugin.settings)? {
            Some(output) => Ok(Some(kept_of(&output)?)),
            None => Ok(None),
        },
    }
}

fn kept_of(output: &Output) -> Result<BuiltIn, AllocError>
    ensures { IfOk result (λ kept. kept ≡ spec.kept_of output.now) }
{
    match output {
        Output::File(settings) => Ok(BuiltIn {
            path: Some(settings.path.copy()?),
        }),
        Output::Stdout(_) | Output::Pipeline(_) | Output::Sink(_) => Ok(BuiltIn { path: None }),
    }
}
