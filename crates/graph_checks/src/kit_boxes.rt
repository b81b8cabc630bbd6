// Handing drawn boxes out to the kits of the workers.
ghost use Rattle.std.specs.Prelude.{◌≡◌, ◌≤◌, ◌<◌, ◌+◌, ◌++◌, ℕ, All, length, map, slice_get, false};
ghost use Rattle.event_tree.specs.Paths.{over};
ghost use Rattle.graph_checks.specs.Plans.{HasItsBoxes, HasNoBox, boxes_of_kits, column, held, rows, width};
ghost use Rattle.graph_checks.specs.Filling.{StandsFrom, one_if, wanted, wanted_at};
ghost use Rattle.plugin_graph.specs.Graphs.{boxes_in, built_in, contents_of};
ghost use Rattle.built_plugins.specs.Makes.{is_boxed};

use plugin_graph::Kit;

/// Hands boxes out to kits: the first boxed filter of each kit has the first of them, and so on.
pub(crate) fn hand_out<X: Drop>(kits: &mut Vec<Kit<X>>, boxes: Vec<X>)
    requires none { All HasNoBox kits.old.items }
    requires enough { length boxes.items ≡ wanted (width (map contents_of kits.old.items))
        (map contents_of kits.old.items) }
    ensures boxes { boxes_of_kits kits.new.items ≡ boxes.items }
    ensures filled { All HasItsBoxes kits.new.items }
    ensures contents { map contents_of kits.new.items ≡ map contents_of kits.old.items }
    ensures built { map built_in kits.new.items ≡ map built_in kits.old.items }
{
    let mut left = boxes;
    let mut at = most_filters(kits.as_slice());
    while at > 0 {
        at -= 1;
        fill_column(kits, at, &mut left);
    }
}

/// How many filters the kit has that has the most.
pub(crate) fn most_filters<X: Drop>(kits: &[Kit<X>]) -> usize
    ensures { result ≡ width (map contents_of kits.now) }
{
    let mut most = 0;
    for kit in kits {
        let filters = kit.filters();
        if most < filters {
            most = filters;
        }
    }
    most
}

// Hands boxes out for the filter of a number, the last to the last kit.
fn fill_column<X: Drop>(kits: &mut Vec<Kit<X>>, at: usize, boxes: &mut Vec<X>)
    requires stand { All (StandsFrom (at + 1)) kits.old.items }
    requires enough { wanted_at at (map contents_of kits.old.items) ≤ length boxes.old.items }
    ensures stand { All (StandsFrom at) kits.new.items }
    ensures boxes { boxes.new.items ++ column at (rows kits.new.items) ≡ boxes.old.items }
    ensures behind { (k : ℕ) → at < k
        → column k (rows kits.new.items) ≡ column k (rows kits.old.items) }
    ensures contents { map contents_of kits.new.items ≡ map contents_of kits.old.items }
    ensures built { map built_in kits.new.items ≡ map built_in kits.old.items }
{
    let mut next = kits.len();
    while next > 0 {
        next -= 1;
        fill(&mut kits[next], at, boxes);
    }
}

fn fill<X: Drop>(kit: &mut Kit<X>, at: usize, boxes: &mut Vec<X>)
    requires stands { StandsFrom (at + 1) kit.old }
    requires enough { one_if (over is_boxed false (slice_get (contents_of kit.old).filters at))
        ≤ length boxes.old.items }
    ensures stands { StandsFrom at kit.new }
    ensures boxes { boxes.new.items ++ held (slice_get (boxes_in kit.new) at) ≡ boxes.old.items }
    ensures behind { (k : ℕ) → at < k
        → slice_get (boxes_in kit.new) k ≡ slice_get (boxes_in kit.old) k }
    ensures contents { contents_of kit.new ≡ contents_of kit.old }
    ensures built { built_in kit.new ≡ built_in kit.old }
{
    if kit.wants_box(at) {
        let plugged = boxes.pop();
        let _ = kit.replace_box(at, plugged);
    }
}
