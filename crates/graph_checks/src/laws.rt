//! Laws of the definitions. Each is the contract of a function that does nothing: a caller learns the law by
//! the call.
#![tactic(auto)]

ghost use Rattle.std.specs.Prelude.{◌≡◌, ℕ, List, Ok};
ghost use Rattle.config_tree.specs.declared.tree.Config.{Config};
ghost use Rattle.foreign_parts.specs.Stocks.{Stock};
ghost use Rattle.foreign_parts.specs.declared.links.LinkPlace.{LinkPlace};
ghost use Rattle.graph_checks.specs.Drawings.{AllDrawn, AllMayGoBack, Numbered, all_back};
ghost use Rattle.graph_checks.specs.Linked.{LinksMayGoBack, all_taken, links_back, links_there};
ghost use Rattle.graph_checks.specs.OwnIds.{HaveOwnIds};
ghost use Rattle.graph_checks.specs.Readings.{IsRead};
ghost use Rattle.graph_checks.specs.Whole.{Given, checked};

/// Where a configuration has no fault each of its filters reads, and each pattern of its conditions is one.
pub fn checked_configurations_read()
    ensures { (given : Given) (config : Config) → checked given config ≡ Ok tt → IsRead config }
{}

/// Where a configuration has no fault each of its outputs has an id of its own.
pub fn checked_outputs_have_own_ids()
    ensures { (given : Given) (config : Config) → checked given config ≡ Ok tt → HaveOwnIds config }
{}

/// Links that were taken may go back, and then the rack has those that it had.
pub fn taken_links_go_back()
    ensures may { (addresses : List (List ℕ)) (places : List LinkPlace)
        → LinksMayGoBack (links_there addresses places) (all_taken addresses places) }
    ensures places { (addresses : List (List ℕ)) (places : List LinkPlace)
        → links_back (links_there addresses places) (all_taken addresses places) ≡ places }
{}

/// Boxes that were drawn may go back, and then the rack holds what it held before they were drawn.
pub fn drawn_boxes_go_back()
    ensures may { (given : ℕ) (filters outputs : Numbered) (fs os new_fs new_os : List Stock)
        → AllDrawn given filters outputs fs os new_fs new_os
        → AllMayGoBack given filters outputs new_fs new_os }
    ensures filters { (given : ℕ) (filters outputs : Numbered) (fs os new_fs new_os : List Stock)
        → AllDrawn given filters outputs fs os new_fs new_os → all_back filters new_fs ≡ fs }
    ensures outputs { (given : ℕ) (filters outputs : Numbered) (fs os new_fs new_os : List Stock)
        → AllDrawn given filters outputs fs os new_fs new_os → all_back outputs new_os ≡ os }
{}
