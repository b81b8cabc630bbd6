//! That a graph and a kit may go to another thread: what is here is proved where that is so.
ghost use Rattle.std.specs.Prelude.{◌≡◌};

use crate::passages::NoBox;
use plugin_graph::{Graph, Kit};

/// Takes what may go to another thread, and gives it back.
fn crossing<T: Send>(value: T) -> T
    ensures { result ≡ value }
{
    value
}

/// A kit whose boxes may go to another thread may go there.
pub fn crossing_kit(kit: Kit<NoBox>) -> Kit<NoBox>
    ensures { result ≡ kit }
{
    crossing(kit)
}

/// A graph may go to another thread.
pub fn crossing_graph(graph: Graph) -> Graph
    ensures { result ≡ graph }
{
    crossing(graph)
}
