//! Laws of the definitions. Each is the contract of a function that does nothing: a caller learns the law by the call.
#![tactic(auto)]

ghost use Rattle.std.specs.Prelude.{◌≡◌, ◌++◌, List, map};
ghost use Rattle.event_tree.specs.Events.{Ev};
ghost use Rattle.config_tree.specs.declared.tree.Config.{Config};
ghost use Rattle.foreign_parts.specs.declared.filter.Verdict.{Verdict};
ghost use Rattle.event_flow.specs.Meaning.{dead_in, derive_each, due, some_letters};
ghost use Rattle.event_flow.specs.Places.{Draws};
ghost use Rattle.built_plugins.specs.Makes.{makes};
ghost use Rattle.plugin_graph.specs.Passages.{sent_of};
ghost use Rattle.graph_checks.specs.OwnIds.{HaveOwnIds};
ghost use Rattle.graph_checks.specs.Planned.{planned_outputs};
ghost use Rattle.line_jobs.specs.Deliveries.{deliveries_of};
ghost use Rattle.line_jobs.specs.Dues.{IsWhatIsDue};

/// Where each output has an id of its own, the letters of what is dead and the deliveries of what is sent are those that
/// the configuration says are due, in that order.
pub fn deliveries_are_due()
    ensures { (config : Config) (draws : Draws) (es : List Ev) (verdicts : List Verdict)
        → HaveOwnIds config → IsWhatIsDue config draws es verdicts
        (deliveries_of (planned_outputs draws config)
        (sent_of (derive_each makes config draws es verdicts))) }
{}
