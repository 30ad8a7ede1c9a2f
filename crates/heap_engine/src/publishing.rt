// The totals of a heap, which threads read.

ghost use Rattle.std.specs.Prelude.{◌≡◌, ◌^◌, ◌<◌, ◌≤◌, length};
ghost use Rattle.gc_graph.specs.ThreadLaw.{IsCounted};
ghost use Rattle.heap_cycle.specs.Parts.{state_of};
ghost use Rattle.heap_engine.specs.Going.{published, totals_of};

use heap_cycle::Parts;
use std::sync::Wait;
use thread_queues::Totals;

/// Publishes the totals of a heap whose last command is counted.
pub(crate) fn publish<R: Wait>(rt: &R, parts: &mut Parts)
    requires counted { IsCounted (state_of parts.old) }
    requires few { parts.old.cycle.rest.ordinal < 2 ^ 64 }
    requires made { length parts.old.objects.nodes ≤ parts.old.cycle.rest.ordinal }
    requires later { parts.old.region.last.ordinal < parts.old.cycle.rest.ordinal }
    ensures { parts.new ≡ published parts.old }
{
    let totals = totals_told(parts);
    parts.region.publish(rt, totals);
}

fn totals_told(parts: &Parts) -> Totals
    requires counted { IsCounted (state_of parts.now) }
    requires few { parts.now.cycle.rest.ordinal < 2 ^ 64 }
    requires made { length parts.now.objects.nodes ≤ parts.now.cycle.rest.ordinal }
    ensures { result ≡ totals_of (state_of parts.now) }
{
    let (objects, used, _pages) = parts.objects.totals();
    let counts = parts.cycle.counts();
    Totals {
        ordinal: counts.ordinal,
        objects: u64::from(objects),
        used: u64::from(used),
        finalised: counts.finalised,
    }
}
