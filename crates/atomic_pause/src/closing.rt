// Marking comes to its end: what is listed is traced and what is noted is settled, until nothing
// asks for more.

ghost use Rattle.std.specs.Prelude.{◌≡◌, ◌<◌, ◌+◌, ℕ, true, false, [], length};
ghost use Rattle.mark_worklist.specs.Refusals.{TellsRefused, refusals_of};
ghost use Rattle.weak_clearing.specs.Space.{IsSeatOf};
ghost use Rattle.ephemerons.specs.BodyGraph.{PlacesDiffer};
ghost use Rattle.ephemerons.specs.Marking.{traced_count};
ghost use Rattle.ephemerons.specs.Fixpoint.{IsUnrefused};
ghost use Rattle.ephemerons.specs.LookedAt.{LooksWithin};
ghost use Rattle.ephemerons.specs.Notes.{group_at, refusals_in};
ghost use Rattle.ephemerons.specs.UnderWay.{IsReadyToEnd};
ghost use Rattle.atomic_pause.specs.Marking.{IsMarkedIn, MarksReachable, marked_count};

use ephemerons::{Pairs, fixpoint};
use mark_worklist::Marking;
use page_words::{MutatorSeat, Words};
use type_table::TypeTable;
use weak_clearing::Space;

/// Traces all that is marked and marks what that asks for, until nothing is grey and what is marked
/// is closed, and ends marking: what is not marked is dead. Answers how many objects it traced. It
/// needs no memory.
pub fn close(
    space: &Space,
    types: &TypeTable,
    seat: &mut MutatorSeat,
    marking: &mut Marking,
    notes: &mut [Pairs],
) -> u32
    requires heap { IsSeatOf space.now seat.old }
    requires types { types.now ≡ seat.old.types }
    requires differ { PlacesDiffer seat.old.bodies }
    requires ready { IsReadyToEnd types.now seat.old marking.old notes.old }
    ensures over { MarksReachable types.now (IsMarkedIn seat.old) (IsMarkedIn seat.old)
        seat.old seat.new }
    ensures traced { traced_count seat.old + result ≡ marked_count seat.new }
    ensures list { marking.new.list.items ≡ [] }
    ensures off { marking.new.on ≡ false }
    ensures whole { marking.new.list.whole ≡ true }
    ensures shares { length marking.new.list.shares ≡ length marking.old.list.shares }
    ensures groups { length notes.new ≡ length notes.old }
    ensures told { TellsRefused (refusals_of marking.old) (refusals_of marking.new) }
    ensures notes_told { (i : ℕ) → TellsRefused
        (refusals_in (group_at notes.old i)) (refusals_in (group_at notes.new i)) }
    ensures looked { IsUnrefused marking.new.overflow notes.new
        → LooksWithin types.now seat.old seat.new }
    ensures early { seat.new.early ≡ length seat.new.looked }
{
    seat.bodies_lie_apart();
    // What was refused a place on the list, or a note, can be found by a walk alone.
    let walk = is_refused(marking, notes);
    let words = space.words();
    let traced = fixpoint::<Words>(words, types, seat, marking, notes, walk);
    seat.bodies_lie_apart();
    words.set_stop(seat, true);
    marking.on = false;
    traced
}

/// Whether a push or a note was refused, so that the heap was walked.
pub fn is_refused(marking: &Marking, notes: &[Pairs]) -> bool
    ensures whole { result ≡ false → IsUnrefused marking.now.overflow notes.now }
    ensures walked { result ≡ true → IsUnrefused marking.now.overflow notes.now → ⊥ }
{
    if marking.overflow {
        return true;
    }
    for group in notes {
        if group.overflow() {
            return true;
        }
    }
    false
}
