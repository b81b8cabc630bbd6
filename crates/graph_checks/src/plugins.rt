// The checks of one plugin: its name, settings, id and path.
ghost use Rattle.std.specs.Prelude.{◌≡◌, IfOk, OnOk};
ghost use Rattle.graph_checks.specs.Answers.{Gives, Leaves};
ghost use Rattle.graph_checks.specs.Boxes.{Keeps};
ghost use Rattle.graph_checks.specs.Plugins as spec;

use crate::box_settings::read_box;
use crate::built_in::read_built_in;
use crate::fault::GraphFault;
use crate::seen_texts::SeenTexts;
use crate::walk::Walk;
use crate::want::Want;
use built_plugins::plugin_id;
use config_tree::{FromFault, Plugin};
use foreign_parts::{BoxKind, Boxes};
use plain_data::Text;
use slot_files::{PositionOf, position_name};
use std::alloc::{AllocError, Global};

// The most bytes of the last part of the name of a position file.
const NAME_LIMIT: usize = 250;

/// The fault of settings, told with the id of their plugin.
pub(crate) fn setting_fault(id: Text, fault: FromFault) -> GraphFault
    ensures { spec.IsSettingFault id fault result }
{
    match fault {
        FromFault::Bad(fault) => GraphFault::Setting(id, fault),
        FromFault::Memory => GraphFault::Memory,
    }
}

/// Meets an id that no earlier plugin may have.
pub(crate) fn meet_id(ids: &mut SeenTexts, id: Text) -> Result<(), GraphFault>
    ensures { Leaves result (spec.id_behind id ids.old) ids.new }
{
    match ids.meet(id)? {
        Some(id) => Err(GraphFault::TwiceId(id)),
        None => Ok(()),
    }
}

/// Meets a path that no earlier plugin of its kind may have.
pub(crate) fn meet_path_once(paths: &mut SeenTexts, path: Text) -> Result<(), GraphFault>
    ensures { Leaves result (spec.path_behind path paths.old) paths.new }
{
    match paths.meet(path)? {
        Some(path) => Err(GraphFault::TwicePath(path)),
        None => Ok(()),
    }
}

/// The same, of a path that has a position file, whose name may not be too long.
pub(crate) fn meet_path(
    alloc: Global,
    of: PositionOf,
    paths: &mut SeenTexts,
    path: Text,
) -> Result<(), GraphFault>
    ensures { Leaves result (spec.path_met of path paths.old) paths.new }
{
    meet_path_once(paths, path.copy()?)?;
    test_length(alloc, of, path)
}

fn test_length(alloc: Global, of: PositionOf, path: Text) -> Result<(), GraphFault>
    ensures { Gives result (spec.path_fits of path) }
{
    let name = position_name(alloc, of, path.as_str())?;
    if name.len() > NAME_LIMIT {
        Err(GraphFault::PathLong(path))
    } else {
        Ok(())
    }
}

impl Walk {
    /// Tests a plugin: its name, its settings, its id, and the path of an output.
    #[tactic(auto, unfolding(crate::specs::Plugins::plugin_checked))]
    pub(crate) fn check_plugin<B: Boxes>(
        &mut self,
        alloc: Global,
        kind: BoxKind,
        plugin: &Plugin,
        boxes: &mut B,
    ) -> Result<(), GraphFault>
        ensures walk { Leaves result (spec.plugin_checked kind (B.stand boxes.old kind)
            plugin.now self.old) self.new }
        ensures keeps { Keeps B.stand B.links boxes.old boxes.new }
    {
        let id = self.next_plugin_id(alloc, kind, plugin)?;
        match read_built_in(kind, plugin) {
            Ok(Some(built_in)) => self.meet_plugin(alloc, id, built_in.path),
            Ok(None) => {
                self.check_box(kind, &id, plugin, boxes)?;
                self.meet_plugin(alloc, id, None)
            }
            Err(fault) => Err(setting_fault(id, fault)),
        }
    }

    fn next_plugin_id(
        &self,
        alloc: Global,
        kind: BoxKind,
        plugin: &Plugin,
    ) -> Result<Text, AllocError>
        ensures { IfOk result (λ id. id ≡ spec.id_next kind self.now plugin.now) }
    {
        let number = self.plugins.checked_add(1).ok_or(AllocError)?;
        plugin_id(alloc, section_name(kind), number, plugin)
    }

    fn check_box<B: Boxes>(
        &mut self,
        kind: BoxKind,
        id: &Text,
        plugin: &Plugin,
        boxes: &mut B,
    ) -> Result<(), GraphFault>
        ensures walk { Leaves result (spec.box_checked kind (B.stand boxes.old kind) id.now
            plugin.now self.old) self.new }
        ensures keeps { Keeps B.stand B.links boxes.old boxes.new }
    {
        if !boxes.knows(kind, plugin.name.as_str()) {
            return Err(GraphFault::UnknownPlugin(plugin.name.copy()?));
        }
        let before = self.boxes.count(&plugin.name);
        match read_box(boxes, kind, self.each, before, plugin) {
            Ok(()) => Ok(self.add_want(id, &plugin.name)?),
            Err(fault) => Err(setting_fault(id.copy()?, fault)),
        }
    }

    fn add_want(&mut self, id: &Text, name: &Text) -> Result<(), AllocError>
        ensures { OnOk result (self.new ≡ spec.with_want id.now name.now self.old) }
    {
        self.boxes.raise(name)?;
        let id = id.copy()?;
        let name = name.copy()?;
        self.wants.push(Want { id, name })
    }

    // Meets what was read of a plugin: its id, and its path where it has one.
    fn meet_plugin(&mut self, alloc: Global, id: Text, path: Option<Text>) -> Result<(), GraphFault>
        ensures { Leaves result (spec.plugin_met id path self.old) self.new }
    {
        meet_id(&mut self.ids, id)?;
        self.plugins = self.plugins.checked_add(1).ok_or(AllocError)?;
        match path {
            Some(path) => meet_path(alloc, PositionOf::Output, &mut self.paths, path),
            None => Ok(()),
        }
    }
}

/// How a section is called in ids.
pub(crate) fn section_name(kind: BoxKind) -> &'static str
    ensures { result.now ≡ spec.section_name kind }
{
    match kind {
        BoxKind::Filter => "filter",
        BoxKind::Output => "output",
    }
}
