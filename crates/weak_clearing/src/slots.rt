// Weak handles outside the heap (`WeakPersistent`, `include/cppgc/persistent.h`).

ghost use Rattle.std.specs.Prelude.{◌≡◌, ◌<◌, All, None, length, map, not, false};
ghost use Rattle.std.specs.Prelude.{slice_index_or, slice_set};
ghost use Rattle.std.specs.Io.{StartsWith};
ghost use Rattle.std.specs.Option.{ForSome};
ghost use Rattle.gc_graph.specs.Pause.{clear_slot};
ghost use Rattle.page_words.specs.Seat.{OnlyLooked};
ghost use Rattle.page_space.specs.Space.{IsSeatOf};
ghost use Rattle.marker_core.specs.Bodies.{IsPlace};
ghost use Rattle.marker_core.specs.Bodies.{holds};
ghost use Rattle.persistent_slots.specs.Clearing.{taken};

use crate::marks::is_marked;
use page_space::Space;
use page_words::MutatorSeat;
use persistent_slots::Slots;

/// Empties exactly the slots whose object is not marked.
pub fn clear_slots(space: &Space, seat: &mut MutatorSeat, weak: &mut Slots)
    requires heap { IsSeatOf space.now seat.old }
    requires off { seat.old.on ≡ false }
    requires places { All (IsPlace seat.old.bodies) (taken weak.old) }
    ensures cleared { weak.new ≡ map (clear_slot (λ a. not (holds seat.old.marked a))) weak.old }
    ensures view { OnlyLooked seat.old seat.new }
    ensures looked { StartsWith seat.new.looked seat.old.looked }
{
    for i in 0..weak.len() {
        clear_at(space, seat, weak, i);
    }
}

/// Empties a slot, if its object is not marked.
fn clear_at(space: &Space, seat: &mut MutatorSeat, weak: &mut Slots, i: u32)
    requires heap { IsSeatOf space.now seat.old }
    requires off { seat.old.on ≡ false }
    requires slot { i < length weak.old }
    requires place { ForSome (slice_index_or weak.old i None) (IsPlace seat.old.bodies) }
    ensures cleared { weak.new ≡ slice_set weak.old i (clear_slot
        (λ a. not (holds seat.old.marked a)) (slice_index_or weak.old i None)) }
    ensures view { OnlyLooked seat.old seat.new }
    ensures looked { StartsWith seat.new.looked seat.old.looked }
{
    if let Some(place) = weak.get(i) {
        if !is_marked(space, seat, place) {
            weak.clear(i);
        }
    }
}
