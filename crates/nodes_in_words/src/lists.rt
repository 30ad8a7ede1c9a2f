// The nodes of the graph, as the owner of a heap's words keeps them. Contracts alone see them.

ghost use Rattle.std.specs.Prelude.{◌≡◌, []};

use ghost_values::GhostValue;
use std::marker::Model;

/// A list of nodes. It is never made.
#[derive(Drop)]
pub struct NodeLists {
    none: u8,
}

impl Model for NodeLists {
    ghost use Rattle.std.specs.Prelude.{List, []};
    ghost use Rattle.gc_graph.specs.State.{Node};

    ghost Value = { List Node };

    ghost view = { λ nodes. [] };
}

impl NodeLists {
    /// No nodes.
    pub fn none() -> GhostValue<NodeLists>
        ensures { result.value ≡ [] }
    {
        GhostValue::chosen(&0u8)
    }
}
