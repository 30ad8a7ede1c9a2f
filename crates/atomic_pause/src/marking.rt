// The marking of a pause: what the roots reach is marked, and then marking ends.

ghost use Rattle.std.specs.Prelude.{◌≡◌, ◌+◌, ℕ, true, false, [], Some, Contains, All, length};
ghost use Rattle.std.specs.Option.{ForSome};
ghost use Rattle.mark_worklist.specs.Refusals.{TellsRefused, refusals_of};
ghost use Rattle.marker_core.specs.Bodies.{IsPlace, holds};
ghost use Rattle.weak_clearing.specs.Space.{IsSpaceOf};
ghost use Rattle.cross_thread_region.specs.Histories.{strong_place};
ghost use Rattle.ephemerons.specs.BodyGraph.{PlacesDiffer};
ghost use Rattle.ephemerons.specs.Marking.{traced_count};
ghost use Rattle.ephemerons.specs.Fixpoint.{IsUnrefused};
ghost use Rattle.ephemerons.specs.LookedAt.{LooksWithin};
ghost use Rattle.ephemerons.specs.Notes.{group_at, refusals_in};
ghost use Rattle.ephemerons.specs.UnderWay.{IsReadyToEnd};
ghost use Rattle.atomic_pause.specs.Marking.{IsRootPlace, IsMayOrRoot, MarksReachable};
ghost use Rattle.atomic_pause.specs.Marking.{marked_count};

use crate::closing::close;
use crate::roots::{scan_stack, visit_region, visit_slots};
use cross_thread_region::HeldRegion;
use ephemerons::Pairs;
use mark_worklist::Marking;
use page_words::MutatorSeat;
use persistent_slots::Slots;
use type_table::TypeTable;
use weak_clearing::Space;

/// Marks what the roots reach, and what is marked already leads to, and ends marking: what is not
/// marked is dead. Answers how many objects it traced. `early` tells how many headers had been
/// looked at by then.
pub fn mark_out(
    space: &Space,
    types: &TypeTable,
    seat: &mut MutatorSeat,
    marking: &mut Marking,
    notes: &mut [Pairs],
    strong: &Slots,
    held: &HeldRegion,
    stack: &[u64],
    precise: bool,
) -> u32
    requires space { IsSpaceOf space.now seat.old }
    requires types { types.now ≡ seat.old.types }
    requires differ { PlacesDiffer seat.old.bodies }
    requires ready { IsReadyToEnd types.now seat.old marking.old notes.old }
    requires may { (p : ℕ) → Contains strong.now (Some p) → holds seat.old.may p ≡ true }
    requires strong { All (λ slot. ForSome slot (IsPlace seat.old.bodies)) strong.now }
    requires shared { (x p : ℕ) → strong_place held.now.history x ≡ Some p
        → IsPlace seat.old.bodies p }
    ensures over { MarksReachable types.now
        (IsRootPlace strong.now held.now.history precise seat.old.bodies stack.now)
        (IsMayOrRoot held.now.history precise seat.old stack.now) seat.old seat.new }
    ensures traced { traced_count seat.old + result ≡ marked_count seat.new }
    ensures list { marking.new.list.items ≡ [] }
    ensures off { marking.new.on ≡ false }
    ensures whole { marking.new.list.whole ≡ true }
    ensures shares { length marking.new.list.shares ≡ length marking.old.list.shares }
    ensures groups { length notes.new ≡ length notes.old }
    ensures told { TellsRefused (refusals_of marking.old) (refusals_of marking.new) }
    ensures notes_told { (i : ℕ) → TellsRefused
        (refusals_in (group_at notes.old i)) (refusals_in (group_at notes.new i)) }
    ensures looked { precise ≡ true → IsUnrefused marking.new.overflow notes.new
        → LooksWithin types.now seat.old seat.new }
    ensures early { seat.new.early ≡ length seat.new.looked }
{
    seat.bodies_lie_apart();
    visit_slots(space, seat, marking, strong);
    visit_region(space, seat, marking, held);
    scan_stack(space, seat, marking, stack, precise);
    close(space, types, seat, marking, notes)
}
