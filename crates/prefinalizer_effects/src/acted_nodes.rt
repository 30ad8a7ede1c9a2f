// What an action makes of the nodes. All of it is for contracts alone.

ghost use Rattle.std.specs.Prelude.{◌≡◌};
ghost use Rattle.gc_graph.specs.Actions.{acted};

use gc_graph::Action;
use ghost_values::GhostValue;
use nodes_in_words::NodeLists;

/// What an action looks at.
#[derive(Drop)]
struct AboutAction<'a> {
    nodes: &'a GhostValue<NodeLists>,
    dying: u32,
    action: Action,
}

/// The action was done for a dying node.
pub fn acted(nodes: &GhostValue<NodeLists>, dying: u32, action: Action) -> GhostValue<NodeLists>
    ensures { result.value ≡ acted nodes.now.value dying action }
{
    GhostValue::chosen(&AboutAction {
        nodes,
        dying,
        action,
    })
}
