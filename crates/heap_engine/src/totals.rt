// How much the heap holds.

ghost use Rattle.gc_graph.specs.declared.command.Command.TheVariants as C;
ghost use Rattle.heap_cycle.specs.Parts.{IsReady};
ghost use Rattle.heap_engine.specs.CarriedOut.{IsDoneAlone, TellsNothing};

use gc_graph::Line;
use heap_cycle::{Outcome, Parts};

/// Tells how much the heap holds.
pub fn stat(parts: &Parts, outcome: &mut Outcome)
    requires ready { IsReady parts.now }
    requires nothing { TellsNothing outcome.old }
    ensures done { IsDoneAlone C.Stat parts.now parts.now outcome.old outcome.new }
{
    let (n, u, g) = parts.objects.totals();
    outcome.end(Line::Objects { n, u, g });
}
