// Weak callbacks in a pause (`WeakCallback`, `include/cppgc/visitor.h`): before weak clearing each
// object that has some is asked which of its weak fields are to become null, and after it they run.

ghost use Rattle.std.specs.Prelude.{◌≡◌, false, All, length, map};
ghost use Rattle.std.specs.Io.{StartsWith};
ghost use Rattle.gc_graph.specs.ActionLaw.{HaveStayed};
ghost use Rattle.gc_graph.specs.WeakCalls.{called};
ghost use Rattle.callback_table.specs.Table.{callback_kinds};
ghost use Rattle.callback_table.specs.WeakRegistry.{IsWeaklyRegistered, calls_in_order};
ghost use Rattle.callback_table.specs.WeakRegistry.{left_by, pairs_called, places_of};
ghost use Rattle.page_words.specs.Seat.{OnlyLooked};
ghost use Rattle.prefinalizer_effects.specs.Prepared.{IsPrepared};
ghost use Rattle.weak_clearing.specs.Clearing.{MarkedHaveWeakReferences};
ghost use Rattle.weak_clearing.specs.Space.{IsSeatOf, extents_of_bodies};
ghost use Rattle.atomic_pause.specs.WeakCalling.{IsShownAt, dying_at};

use callback_table::{CallbackTable, WeakRegistry};
use ghost_values::GhostValue;
use page_words::MutatorSeat;
use prefinalizer_effects::{NodeLists, PausedBodies};
use type_table::TypeTable;
use weak_clearing::{Space, dying};

/// Gives each registration the mask of its object's weak fields whose object is not marked.
/// Registrations of objects that are not marked go.
pub fn prepare(
    space: &Space,
    types: &TypeTable,
    seat: &mut MutatorSeat,
    weak_calls: &mut WeakRegistry,
)
    requires heap { IsSeatOf space.now seat.old }
    requires off { seat.old.on ≡ false }
    requires types { types.now ≡ seat.old.types }
    requires references { MarkedHaveWeakReferences seat.old }
    requires registered { All (IsShownAt seat.old) (places_of weak_calls.old.entries) }
    ensures entries { weak_calls.new.entries ≡ left_by
        (map (dying_at seat.old seat.old.bodies) (places_of weak_calls.old.entries))
        weak_calls.old.entries }
    ensures ran { weak_calls.new.ran ≡ weak_calls.old.ran }
    ensures view { OnlyLooked seat.old seat.new }
    ensures looked { StartsWith seat.new.looked seat.old.looked }
{
    let mut mask = |place: u32| -> Option<u64>
        requires heap { IsSeatOf space.now seat.now }
        requires off { seat.now.on ≡ false }
        requires types { types.now ≡ seat.now.types }
        requires references { MarkedHaveWeakReferences seat.now }
        requires place { IsShownAt seat.now place }
        ensures answer { result ≡ dying_at seat.entry.now seat.entry.now.bodies place }
        ensures view { OnlyLooked seat.entry.now seat.exit.now }
        ensures looked { StartsWith seat.exit.now.looked seat.entry.now.looked }
    { dying(space, types, seat, place) };
    weak_calls.prepare(&mut mask);
}

/// Runs the weak callbacks of the objects that have a mask, in the order of their registrations.
pub fn call_weak(
    weak_calls: &mut WeakRegistry,
    callbacks: &CallbackTable,
    space: &Space,
    types: &TypeTable,
    seat: &mut MutatorSeat,
    nodes: &mut GhostValue<NodeLists>,
)
    requires ready { IsPrepared space.now types.now seat.old nodes.old.value }
    requires registered { All (IsWeaklyRegistered nodes.old.value
        (length (callback_kinds callbacks.now))) weak_calls.old.entries }
    ensures nodes { nodes.new.value ≡ called (callback_kinds callbacks.now)
        (calls_in_order weak_calls.old.entries) nodes.old.value }
    ensures ran { weak_calls.new.ran ≡ pairs_called weak_calls.old.entries }
    ensures entries { weak_calls.new.entries ≡ weak_calls.old.entries }
    ensures ready { IsPrepared space.now types.now seat.new nodes.new.value }
    ensures stayed { HaveStayed nodes.old.value nodes.new.value }
    ensures extents { extents_of_bodies seat.new.bodies ≡ extents_of_bodies seat.old.bodies }
    ensures looked { StartsWith seat.new.looked seat.old.looked }
    ensures early { seat.new.early ≡ seat.old.early }
    ensures marked { seat.new.marked ≡ seat.old.marked }
{
    let mut bodies = PausedBodies {
        seat,
        nodes,
        space,
        types,
    };
    weak_calls.run(callbacks, &mut bodies);
}
