// The laws of a node's life, as in laws.rt.

ghost use Rattle.gc_graph.specs.OnceLaw.{Once, NodesStayPut};

/// Over a whole run each number is placed at most once, and finalised at most once: after the pause
/// of an earlier command condemned it, and before its words are part of another object's. A node
/// that is gone stays gone, and no later read of the owner gives it; a thread's reply may be told
/// later than the read was made.
pub fn lives_end_once()
    ensures { Once }
{}

/// A step loses no node, and leaves each at the place that it had.
pub fn nodes_stay_put()
    ensures { NodesStayPut }
{}
