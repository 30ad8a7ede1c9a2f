// The laws of what a collection keeps and condemns, as in laws.rt.

ghost use Rattle.gc_graph.specs.CollectionLaw.{CollectsUnreached, KeptIsAccountedFor};

/// Where no thread runs, `gc now precise` condemns exactly the live nodes that the roots don't
/// reach.
pub fn precise_collection_is_exact()
    ensures { CollectsUnreached }
{}

/// A node that a pause keeps is new since the start, or the start's graph reached it from the
/// start's roots and the nodes that were read weakly since, or the pause's graph reaches it from
/// these and the hits; without hits it is one of the first two.
pub fn kept_is_accounted_for()
    ensures { KeptIsAccountedFor }
{}
