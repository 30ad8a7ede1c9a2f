// The commands on slots, strong and weak (`include/cppgc/persistent.h`).

ghost use Rattle.std.specs.Prelude.{◌≡◌, ◌<◌, None};
ghost use Rattle.std.specs.Prelude.{IfSome, option_map, slice_index_or};
ghost use Rattle.gc_graph.specs.declared.command.Command.TheVariants as C;
ghost use Rattle.heap_cycle.specs.Nodes.{place_of};
ghost use Rattle.heap_cycle.specs.Objects.{IsLiveAt};
ghost use Rattle.heap_cycle.specs.Parts.{IsReady};
ghost use Rattle.heap_engine.specs.CarriedOut.{IsDoneAlone, TellsNothing};

use crate::fields::line_of;
use gc_graph::Line;
use heap_cycle::{Outcome, Parts, read_weakly};

/// Slot q gets what slot p holds.
pub fn copy(parts: &mut Parts, outcome: &mut Outcome, p: u32, q: u32)
    requires ready { IsReady parts.old }
    requires from { p < 256 }
    requires into { q < 256 }
    requires nothing { TellsNothing outcome.old }
    ensures done { IsDoneAlone (C.Copy p q) parts.old parts.new outcome.old outcome.new }
{
    parts.handles.copy(p, q);
    outcome.end(Line::Fine);
}

/// Weak slot w gets what slot p holds.
pub fn weaken(parts: &mut Parts, outcome: &mut Outcome, w: u32, p: u32)
    requires ready { IsReady parts.old }
    requires into { w < 64 }
    requires from { p < 256 }
    requires nothing { TellsNothing outcome.old }
    ensures done { IsDoneAlone (C.Weak w p) parts.old parts.new outcome.old outcome.new }
{
    parts.handles.weaken(w, p);
    outcome.end(Line::Fine);
}

/// Slot p gets what weak slot w holds, by a weak read.
pub fn read(parts: &mut Parts, outcome: &mut Outcome, w: u32, p: u32)
    requires ready { IsReady parts.old }
    requires from { w < 64 }
    requires into { p < 256 }
    requires nothing { TellsNothing outcome.old }
    ensures done { IsDoneAlone (C.Read w p) parts.old parts.new outcome.old outcome.new }
{
    let target = weak_target(parts, w);
    read_weakly(parts, target);
    parts.handles.put(p, target);
    outcome.end(line_of(target));
}

/// The place and the number of what weak slot w holds.
fn weak_target(parts: &mut Parts, w: u32) -> Option<(u32, u32)>
    requires ready { IsReady parts.old }
    requires slot { w < 64 }
    ensures target { result ≡ option_map (λ n. (place_of parts.old.objects.nodes n, n))
        (slice_index_or parts.old.handles.weak w None) }
    ensures live { IfSome result (λ t. IsLiveAt parts.old.objects.nodes t.1 t.0) }
    ensures same { parts.new ≡ parts.old }
{
    match parts.handles.weak_place(w) {
        Some(place) => Some((place, parts.objects.number_at(place))),
        None => None,
    }
}

/// Makes slot p null.
pub fn drop_slot(parts: &mut Parts, outcome: &mut Outcome, p: u32)
    requires ready { IsReady parts.old }
    requires slot { p < 256 }
    requires nothing { TellsNothing outcome.old }
    ensures done { IsDoneAlone (C.Drop p) parts.old parts.new outcome.old outcome.new }
{
    parts.handles.put(p, None);
    outcome.end(Line::Fine);
}
