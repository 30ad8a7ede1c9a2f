// Weak clearing: what is weak and names an object that was not marked becomes null, before any
// object goes.

ghost use Rattle.std.specs.Prelude.{◌≡◌, false, All, map, not};
ghost use Rattle.std.specs.Io.{StartsWith};
ghost use Rattle.gc_graph.specs.Pause.{clear_slot};
ghost use Rattle.gc_graph.specs.declared.kind.Kind.TheVariants.{Pair};
ghost use Rattle.marker_core.specs.Bodies.{IsPlace};
ghost use Rattle.marker_core.specs.Bodies.{holds};
ghost use Rattle.page_words.specs.Seat.{OnlyLooked};
ghost use Rattle.weak_clearing.specs.Space.{IsSeatOf};
ghost use Rattle.persistent_slots.specs.Clearing.{taken};
ghost use Rattle.callback_table.specs.WeakRegistry.{left_by, places_of};
ghost use Rattle.atomic_pause.specs.WeakCalling.{IsShownAt, dying_at};
ghost use Rattle.weak_clearing.specs.Clearing.{MarkedHaveWeakReferences, with_weak_cleared};
ghost use Rattle.weak_clearing.specs.Clearing.{MarkedHaveReferencesOf, with_pairs_cleared};

use crate::weak_calling::prepare;
use callback_table::WeakRegistry;
use page_words::MutatorSeat;
use persistent_slots::Slots;
use type_table::TypeTable;
use weak_clearing::{Space, clear_fields, clear_pairs, clear_slots};

/// Sets to null the weak slots whose object is not marked, and of marked objects the weak fields
/// whose object is not, and the pairs whose key is not. Before that each registration of weak
/// callbacks gets the mask of the weak fields that are to become null, or goes with its object.
pub fn clear_weak(
    space: &Space,
    types: &TypeTable,
    seat: &mut MutatorSeat,
    weak: &mut Slots,
    weak_calls: &mut WeakRegistry,
)
    requires heap { IsSeatOf space.now seat.old }
    requires off { seat.old.on ≡ false }
    requires types { types.now ≡ seat.old.types }
    requires references { MarkedHaveWeakReferences seat.old }
    requires pairs { MarkedHaveReferencesOf Pair seat.old }
    requires places { All (IsPlace seat.old.bodies) (taken weak.old) }
    requires registered { All (IsShownAt seat.old) (places_of weak_calls.old.entries) }
    ensures slots { weak.new ≡ map (clear_slot (λ a. not (holds seat.old.marked a))) weak.old }
    ensures fields { OnlyLooked (with_pairs_cleared (with_weak_cleared seat.old)) seat.new }
    ensures looked { StartsWith seat.new.looked seat.old.looked }
    ensures entries { weak_calls.new.entries ≡ left_by
        (map (dying_at seat.old seat.old.bodies) (places_of weak_calls.old.entries))
        weak_calls.old.entries }
{
    prepare(space, types, seat, weak_calls);
    clear_slots(space, seat, weak);
    // Weak fields first: a pair's words are then still as they were.
    clear_fields(space, types, seat);
    clear_pairs(space, types, seat);
}
