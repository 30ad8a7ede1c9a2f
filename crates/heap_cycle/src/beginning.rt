// The beginning of a cycle: room is taken, the region has the start entry, an open sweep is ended,
// and marking begins.

ghost use Rattle.std.specs.Prelude.{◌≡◌, ◌*◌, ◌^◌, ◌≤◌, true, false, [], length, vec_capacity};
ghost use Rattle.std.specs.Prelude.{OnOk, OnErr};
ghost use Rattle.gc_graph.specs.declared.phase.Phase.TheVariants.{Idle, Marking};
ghost use Rattle.gc_graph.specs.CycleSteps.{is_marking};
ghost use Rattle.gc_graph.specs.May.{marking};
ghost use Rattle.cross_thread_region.specs.Histories.{start_told, is_started, IsPlacedBy};
ghost use Rattle.heap_roots.specs.Nodes.{place_of};
ghost use Rattle.heap_roots.specs.Pages.{word_count};
ghost use Rattle.heap_roots.specs.Objects.{refused_of};
ghost use Rattle.heap_cycle.specs.Cycles.{HasBegun, AreSlotsMarked};
ghost use Rattle.heap_cycle.specs.Parts.{setup_of, state_of, IsReady};
ghost use Rattle.heap_cycle.specs.Region.{HasRegion};

use crate::parts::Parts;
use crate::states;
use crate::sweeps::end_sweep;
use gc_graph::NoMemory;
use std::sync::Wait;

/// Begins a cycle: takes room for marking, makes the start entry behind what threads have done, ends
/// an open sweep, and then marking begins. Want of memory is free.
pub(crate) fn begin<R: Wait>(
    rt: &R,
    parts: &mut Parts,
    finalised: &mut Vec<u32>,
) -> Result<(), NoMemory>
    requires ready { IsReady parts.old }
    requires region { HasRegion parts.old }
    requires quiet { parts.old.region.told ≡ [] }
    requires calm { is_marking parts.old.cycle.phase ≡ false }
    requires empty { finalised.old.items ≡ [] }
    requires room { word_count parts.old.objects.shape ≤ 2 * vec_capacity finalised.old }
    ensures begun { OnOk result (HasBegun parts.old finalised.new.items parts.new) }
    ensures same { OnErr result (parts.new ≡ parts.old) }
    ensures none { OnErr result (finalised.new.items ≡ []) }
    ensures many { length finalised.new.items ≤ 2 ^ 24 }
    ensures room { vec_capacity finalised.new ≡ vec_capacity finalised.old }
{
    gc_graph::step_keeps_valid();
    gc_graph::orders_keep_valid();
    parts.objects.shape_is_valid();
    // Room for a list of an ordinary length, so that a walk of the heap is rare.
    parts.objects.reserve()?;
    let mut told = [0; 32];
    // Once the start entry is made nothing can be refused.
    parts.region.start(rt, &mut parts.objects, &mut told)?;
    end_sweep(parts, finalised);
    mark_roots(parts, &told);
    Ok(())
}

/// Marking begins: from now on what the roots reach may be kept, and what the strong slots name is
/// marked, and what the region's strong slots named at the start entry.
fn mark_roots(parts: &mut Parts, told: &[u32])
    requires ready { IsReady parts.old }
    requires idle { parts.old.cycle.phase ≡ Idle }
    requires opened { parts.old.region.closed ≡ false }
    requires placed { IsPlacedBy (place_of parts.old.objects.nodes) parts.old.region.taken }
    requires started { is_started parts.old.region.taken ≡ true }
    requires told { told.now ≡ start_told parts.old.region.taken 32 }
    ensures state { state_of parts.new ≡ marking (state_of parts.old) }
    ensures ready { IsReady parts.new }
    ensures region { HasRegion parts.new }
    ensures marked { AreSlotsMarked parts.new parts.new.region.taken }
    ensures setup { setup_of parts.new ≡ setup_of parts.old }
    ensures home { parts.new.objects.grey.running ≡ [] }
    ensures since { parts.new.objects.grey.since ≡ refused_of parts.old.objects }
    ensures others { parts.new ≡ record parts.old {
      objects = parts.new.objects;
      cycle = record parts.old.cycle { phase = Marking; rest = parts.new.cycle.rest };
    } }
{
    parts.objects.shape_is_valid();
    gc_graph::step_keeps_valid();
    let rest = states::begun(parts);
    parts.handles.begin(&parts.region, told, &mut parts.objects);
    parts.cycle.begin(rest);
}
