// What a pause makes of the nodes. All of it is for contracts alone.

ghost use Rattle.std.specs.Prelude.{◌≡◌};
ghost use Rattle.marker_core.specs.Bodies.{holds};
ghost use Rattle.prefinalizer_effects.specs.PlacesInWords.{kept_of};
ghost use Rattle.prefinalizer_effects.specs.Judgement.{nodes_after};

use ghost_values::GhostValue;
use page_words::MutatorSeat;
use prefinalizer_effects::NodeLists;

/// What a judgement looks at.
#[derive(Drop)]
struct AboutMarks<'a> {
    nodes: &'a GhostValue<NodeLists>,
    seat: &'a MutatorSeat,
}

/// The nodes that are not marked are condemned, and what is weak and named one of them is null.
pub fn judged(nodes: &GhostValue<NodeLists>, seat: &MutatorSeat) -> GhostValue<NodeLists>
    ensures { result.value
        ≡ nodes_after (kept_of (holds seat.now.marked) nodes.now.value) nodes.now.value }
{
    GhostValue::chosen(&AboutMarks { nodes, seat })
}
