// The law of reach.

ghost use Rattle.gc_graph.specs.Reach.{ReachIsLeast};

/// Where edges and roots are nodes of the graph, reach is closed, holds the roots, and lies in
/// every closed set that holds them. Whoever calls this has the law.
pub fn reach_is_least()
    ensures { ReachIsLeast }
{}
