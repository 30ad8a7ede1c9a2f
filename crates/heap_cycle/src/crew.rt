// The markers of a heap: they are started once marking has begun, and stopped where a heap is let go
// while marking goes on.

ghost use Rattle.std.specs.Prelude.{◌≡◌, [], MatchOption};
ghost use Rattle.gc_graph.specs.declared.phase.Phase.TheVariants.{Marking};
ghost use Rattle.heap_roots.specs.Crews.{AreListsFor};
ghost use Rattle.heap_cycle.specs.Cycles.{HasManned};
ghost use Rattle.heap_cycle.specs.Parts.{setup_of, AreTied};

use crate::parts::Parts;
use heap_roots::{CrewLists, Gate};
use std::sync::Arc;
use std::thread::Threads;

/// Starts the heap's markers, where it has some.
pub(crate) fn start_crew<R: Threads, G: Gate + Send + Sync + 'static>(
    rt: &R,
    parts: &mut Parts,
    lists: Option<CrewLists>,
    gate: &Arc<G>,
)
    requires tied { AreTied parts.old }
    requires marking { parts.old.cycle.phase ≡ Marking }
    requires home { parts.old.objects.grey.running ≡ [] }
    requires lists { MatchOption lists (parts.old.objects.grey.markers ≡ 0)
        (AreListsFor parts.old.objects.grey.markers) }
    ensures manned { HasManned parts.old parts.new }
{
    match lists {
        Some(lists) => parts.objects.start_crew(rt, lists, gate),
        None => {}
    }
}

/// Stops the markers of a heap, where some run, and joins them.
pub fn join_crew<R: Threads>(rt: &R, parts: &mut Parts)
    requires tied { AreTied parts.old }
    ensures stopped { parts.new.objects.grey.running ≡ [] }
    ensures lent { parts.new.objects.seat.lent ≡ 0 }
    ensures nodes { parts.new.objects.nodes ≡ parts.old.objects.nodes }
    ensures setup { setup_of parts.new ≡ setup_of parts.old }
    ensures others { parts.new ≡ record parts.old { objects = parts.new.objects } }
{
    parts.objects.join_crew(rt);
}
