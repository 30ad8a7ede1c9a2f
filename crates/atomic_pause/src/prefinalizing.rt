// Prefinalizers run on the objects of a heap (`include/cppgc/prefinalizer.h`). They see words and
// change words, and never store a reference, so that nothing comes to life again.

ghost use Rattle.std.specs.Prelude.{◌≡◌, All, length};
ghost use Rattle.std.specs.Io.{StartsWith};
ghost use Rattle.gc_graph.specs.ActionLaw.{HaveStayed};
ghost use Rattle.gc_graph.specs.Pause.{run_order, prefinalised};
ghost use Rattle.callback_table.specs.Registry.{IsRegistered, registrations_of};
ghost use Rattle.callback_table.specs.Registry.{pairs_run, entries_left};
ghost use Rattle.callback_table.specs.Table.{callback_kinds};
ghost use Rattle.callback_table.specs.WeakRegistry.{IsWeaklyRegistered, calls_in_order};
ghost use Rattle.callback_table.specs.WeakRegistry.{pairs_called};
ghost use Rattle.gc_graph.specs.WeakCalls.{called};
ghost use Rattle.weak_clearing.specs.Space.{extents_of_bodies};
ghost use Rattle.prefinalizer_effects.specs.Prepared.{IsPrepared};

use crate::weak_calling::call_weak;
use callback_table::{CallbackTable, Registry, WeakRegistry};
use ghost_values::GhostValue;
use page_words::MutatorSeat;
use prefinalizer_effects::{NodeLists, PausedBodies};
use type_table::TypeTable;
use weak_clearing::Space;

/// Runs the weak callbacks of the objects that have a mask, and then the prefinalizers of the dead
/// ones, which it takes away.
pub fn call_back(
    registry: &mut Registry,
    weak_calls: &mut WeakRegistry,
    callbacks: &CallbackTable,
    space: &Space,
    types: &TypeTable,
    seat: &mut MutatorSeat,
    nodes: &mut GhostValue<NodeLists>,
)
    requires ready { IsPrepared space.now types.now seat.old nodes.old.value }
    requires registered { All (IsRegistered nodes.old.value (length (callback_kinds callbacks.now)))
        registry.old.entries }
    requires weakly_registered { All (IsWeaklyRegistered nodes.old.value
        (length (callback_kinds callbacks.now))) weak_calls.old.entries }
    ensures nodes { nodes.new.value ≡ prefinalised (callback_kinds callbacks.now)
        (run_order nodes.old.value (registrations_of registry.old.entries))
        (called (callback_kinds callbacks.now) (calls_in_order weak_calls.old.entries)
        nodes.old.value) }
    ensures ran { registry.new.ran ≡ pairs_run nodes.old.value registry.old.entries }
    ensures left { registry.new.entries ≡ entries_left nodes.old.value registry.old.entries }
    ensures weak_ran { weak_calls.new.ran ≡ pairs_called weak_calls.old.entries }
    ensures weak_left { weak_calls.new.entries ≡ weak_calls.old.entries }
    ensures ready { IsPrepared space.now types.now seat.new nodes.new.value }
    ensures stayed { HaveStayed nodes.old.value nodes.new.value }
    ensures extents { extents_of_bodies seat.new.bodies ≡ extents_of_bodies seat.old.bodies }
    ensures looked { StartsWith seat.new.looked seat.old.looked }
    ensures early { seat.new.early ≡ seat.old.early }
    ensures marked { seat.new.marked ≡ seat.old.marked }
{
    call_weak(weak_calls, callbacks, space, types, seat, nodes);
    prefinalise(registry, callbacks, space, types, seat, nodes);
}

/// Runs the prefinalizers of the dead objects, from the last that was registered to the first, and
/// takes them away.
fn prefinalise(
    registry: &mut Registry,
    callbacks: &CallbackTable,
    space: &Space,
    types: &TypeTable,
    seat: &mut MutatorSeat,
    nodes: &mut GhostValue<NodeLists>,
)
    requires ready { IsPrepared space.now types.now seat.old nodes.old.value }
    requires registered { All (IsRegistered nodes.old.value (length (callback_kinds callbacks.now)))
        registry.old.entries }
    ensures nodes { nodes.new.value ≡ prefinalised (callback_kinds callbacks.now)
        (run_order nodes.old.value (registrations_of registry.old.entries)) nodes.old.value }
    ensures ran { registry.new.ran ≡ pairs_run nodes.old.value registry.old.entries }
    ensures left { registry.new.entries ≡ entries_left nodes.old.value registry.old.entries }
    ensures ready { IsPrepared space.now types.now seat.new nodes.new.value }
    ensures stayed { HaveStayed nodes.old.value nodes.new.value }
    ensures extents { extents_of_bodies seat.new.bodies ≡ extents_of_bodies seat.old.bodies }
    ensures looked { StartsWith seat.new.looked seat.old.looked }
    ensures early { seat.new.early ≡ seat.old.early }
    ensures marked { seat.new.marked ≡ seat.old.marked }
{
    let mut bodies = PausedBodies {
        seat,
        nodes,
        space,
        types,
    };
    registry.run_dead(callbacks, &mut bodies);
}
