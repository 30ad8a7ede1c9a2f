// The commands on the region, whose slots the owner shares with other threads
// (`include/cppgc/cross-thread-persistent.h`).

ghost use Rattle.std.specs.Prelude.{◌≡◌, ◌<◌, [], ◌∷◌};
ghost use Rattle.gc_graph.specs.declared.command.Command.TheVariants as C;
ghost use Rattle.gc_graph.specs.Outcomes.{answered};
ghost use Rattle.gc_graph.specs.RegionSteps.{StepExport, StepImport};
ghost use Rattle.heap_cycle.specs.Calls.{TakesMore};
ghost use Rattle.heap_cycle.specs.Owned.{piece_of};
ghost use Rattle.heap_cycle.specs.Parts.{state_of, counted, IsReady, IsFrame};
ghost use Rattle.heap_cycle.specs.Region.{HasRegion};
ghost use Rattle.heap_engine.specs.CarriedOut.{IsAsked, IsCarriedOut};

use crate::fields::line_of;
use gc_graph::{Line, NoMemory, Refusal};
use heap_cycle::{Outcome, Parts};
use std::sync::Wait;

/// Slot x of the region becomes strong for what slot p names. Want of memory is free.
pub fn export<R: Wait>(rt: &R, parts: &mut Parts, outcome: &mut Outcome, p: u32, x: u32)
    requires asked { IsAsked parts.old outcome.old }
    requires from { p < 256 }
    requires into { x < 32 }
    ensures done { IsCarriedOut (C.Export p x) parts.old parts.new outcome.old outcome.new }
{
    outcome.end(export_node(rt, parts, p, x));
}

/// Slot p gets what slot x of the region names; from a weak slot it is a weak read. Want of memory
/// is free.
pub fn import<R: Wait>(rt: &R, parts: &mut Parts, outcome: &mut Outcome, x: u32, p: u32)
    requires asked { IsAsked parts.old outcome.old }
    requires from { x < 32 }
    requires into { p < 256 }
    ensures done { IsCarriedOut (C.Import x p) parts.old parts.new outcome.old outcome.new }
{
    outcome.end(import_node(rt, parts, x, p));
}

/// The slot becomes strong, where slot p isn't null.
fn export_node<R: Wait>(rt: &R, parts: &mut Parts, p: u32, x: u32) -> Line
    requires ready { IsReady parts.old }
    requires region { HasRegion parts.old }
    requires quiet { parts.old.region.told ≡ [] }
    requires from { p < 256 }
    requires into { x < 32 }
    ensures step { StepExport (state_of parts.old) p x (piece_of parts.old.region parts.new.region)
        (result ∷ []) (answered (state_of parts.new)) }
    ensures frame { IsFrame parts.old (counted parts.new) result }
    ensures region { HasRegion parts.new }
    ensures grown { TakesMore parts.old.region parts.new.region }
{
    gc_graph::orders_keep_valid();
    let Some(place) = parts.handles.place(p) else {
        return Line::Refused(Refusal::Null);
    };
    let number = parts.objects.number_at(place);
    let before = heap_cycle::moment(parts);
    match parts
        .region
        .export(rt, &mut parts.objects, x, number, place)
    {
        Ok(()) => {
            parts.take_since(&before);
            Line::Fine
        }
        Err(NoMemory) => Line::Memory,
    }
}

/// The line that tells what slot p got.
fn import_node<R: Wait>(rt: &R, parts: &mut Parts, x: u32, p: u32) -> Line
    requires ready { IsReady parts.old }
    requires region { HasRegion parts.old }
    requires quiet { parts.old.region.told ≡ [] }
    requires from { x < 32 }
    requires into { p < 256 }
    ensures step { StepImport (state_of parts.old) x p (piece_of parts.old.region parts.new.region)
        (result ∷ []) (answered (state_of parts.new)) }
    ensures frame { IsFrame parts.old (counted parts.new) result }
    ensures region { HasRegion parts.new }
    ensures grown { TakesMore parts.old.region parts.new.region }
{
    gc_graph::orders_keep_valid();
    let before = heap_cycle::moment(parts);
    match parts.region.import(rt, &mut parts.objects, x) {
        Ok(target) => {
            parts.take_since(&before);
            parts.handles.put(p, target);
            line_of(target)
        }
        Err(NoMemory) => Line::Memory,
    }
}
