// The nodes of the graph, and how calls on the objects change them. All of it is for contracts
// alone.

ghost use Rattle.std.specs.Prelude.{◌≡◌, [], map, Some};
ghost use Rattle.gc_graph.specs.Sweep.{finalise};
ghost use Rattle.sweeper.specs.Sweeping.{cursor_at};
ghost use Rattle.heap_objects.specs.Objects.{with_made, written_in, paired_in};

use crate::content::Content;
use crate::names::Names;
use crate::pair_fields::PairContent;
use atomic_pause::NodeLists;
use ghost_values::GhostValue;
use page_space::Space;
use sweeper::Sweep;
use type_table::TypeTable;

/// What a new node looks at.
#[derive(Drop)]
struct AboutNew<'a> {
    nodes: &'a GhostValue<NodeLists>,
    space: &'a Space,
    types: &'a TypeTable,
    t: u32,
    extra: u32,
    place: u32,
}

/// A new node joins the others.
pub fn made(
    nodes: &GhostValue<NodeLists>,
    space: &Space,
    types: &TypeTable,
    t: u32,
    extra: u32,
    place: u32,
) -> GhostValue<NodeLists>
    ensures { result.value ≡ with_made (record {
      shape = space.now.shape;
      markers = 0;
      types = types.now;
      callbacks = [];
    }) nodes.now.value t extra (Some place) }
{
    GhostValue::chosen(&AboutNew {
        nodes,
        space,
        types,
        t,
        extra,
        place,
    })
}

/// What a write looks at.
#[derive(Drop)]
struct AboutWrite<'a> {
    nodes: &'a GhostValue<NodeLists>,
    named: &'a GhostValue<Names>,
    f: u32,
    content: &'a Content,
}

/// Field f of the named node got the content.
pub fn written(
    nodes: &GhostValue<NodeLists>,
    named: &GhostValue<Names>,
    f: u32,
    content: &Content,
) -> GhostValue<NodeLists>
    ensures { result.value ≡ written_in nodes.now.value named.now.value f
        content.now.value.value }
{
    GhostValue::chosen(&AboutWrite {
        nodes,
        named,
        f,
        content,
    })
}

/// What a write of a pair looks at.
#[derive(Drop)]
struct AboutPair<'a> {
    nodes: &'a GhostValue<NodeLists>,
    named: &'a GhostValue<Names>,
    f: u32,
    pair: &'a PairContent,
}

/// The pair that is field f of the named node got the key and the value.
pub fn paired(
    nodes: &GhostValue<NodeLists>,
    named: &GhostValue<Names>,
    f: u32,
    pair: &PairContent,
) -> GhostValue<NodeLists>
    ensures { result.value ≡ paired_in nodes.now.value named.now.value f
        pair.now.key.value.value pair.now.value.value.value }
{
    GhostValue::chosen(&AboutPair {
        nodes,
        named,
        f,
        pair,
    })
}

/// What a sweep looks at.
#[derive(Drop)]
struct AboutSweep<'a> {
    nodes: &'a GhostValue<NodeLists>,
    space: &'a Space,
    sweep: &'a Sweep,
}

/// The dead nodes in the pages that are swept are gone.
pub fn finalised(
    nodes: &GhostValue<NodeLists>,
    space: &Space,
    sweep: &Sweep,
) -> GhostValue<NodeLists>
    ensures { result.value
        ≡ map (finalise (cursor_at space.now.shape sweep.now)) nodes.now.value }
{
    GhostValue::chosen(&AboutSweep {
        nodes,
        space,
        sweep,
    })
}
