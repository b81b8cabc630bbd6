// One event that is taken through a configuration as it is written.

ghost use Rattle.std.specs.Prelude.{◌≡◌, ◌≤◌, ℕ, ◌∷◌, [], IfOk};
ghost use Rattle.event_tree.specs.Events.{Ev};
ghost use Rattle.foreign_parts.specs.declared.filter.Verdict.{Verdict};
ghost use Rattle.event_flow.specs.Laying.{IsTableOf};
ghost use Rattle.event_flow.specs.Places.{Draws};
ghost use Rattle.plugin_graph.specs.Graphs.{boxes_in, built_in, contents_of};
ghost use Rattle.plugin_graph.specs.Kits.{MayAt, table_of};
ghost use Rattle.built_plugins.specs.Makes.{makes};
ghost use Rattle.plugin_graph.specs.Passages.{IsPassageOf};
ghost use Rattle.plugin_graph.specs.Walks.{IsKitOf};

use crate::kit::Kit;
use crate::parts::Parts;
use crate::passage::Passage;
use crate::walker::{Walker, filter_plugins, plain_filters};
use config_tree::Config;
use event_tree::Event;
use foreign_parts::FilterCall;
use std::alloc::{AllocError, Global};
use std::mem;

/// Takes one event through a configuration as it is written, by a kit of an equal configuration: it
/// does what the configuration means.
///
/// Each built-in filter without a pattern is read from its settings anew each time an event meets it,
/// which is counted in [`Kit::built`]. The others, the conditions and the outputs are those of the kit.
pub fn walk<X: FilterCall>(
    alloc: Global,
    config: &Config,
    kit: &mut Kit<X>,
    event: &Event,
) -> Result<Passage, AllocError>
    requires { IsKitOf config.now (contents_of kit.old) }
    ensures passage { IfOk result (λ passage. (draws : Draws)
        → IsTableOf makes config.now draws (table_of (contents_of kit.old))
        → IsPassageOf (MayAt X.may (boxes_in kit.old))
        makes config.now draws (event.now ∷ []) passage) }
    ensures table { table_of (contents_of kit.new) ≡ table_of (contents_of kit.old) }
    ensures boxes { boxes_in kit.new ≡ boxes_in kit.old }
    ensures may { (k : ℕ) (e : Ev) (v : Verdict)
        → MayAt X.may (boxes_in kit.new) k e v
        → MayAt X.may (boxes_in kit.old) k e v }
    ensures built { built_in kit.old ≤ built_in kit.new }
{
    let plugins = filter_plugins(alloc, config)?;
    let plain = plain_filters(alloc, kit.parts.filters.as_slice())?;
    let parts = mem::replace(&mut kit.parts, Parts::new(alloc));
    let mut walker = Walker {
        parts,
        plugins,
        plain,
        reads: 0,
    };
    let passage = walker.pass(alloc, config, event);
    let Walker { parts, reads, .. } = walker;
    kit.parts = parts;
    kit.built = kit.built.saturating_add(reads);
    passage
}
