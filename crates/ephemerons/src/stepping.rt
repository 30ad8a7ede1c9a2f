// A step of marking: so many objects from the list are traced, and no note is settled.

ghost use Rattle.std.specs.Prelude.{◌≡◌, ◌⊎◌, ◌<◌, ◌≤◌, ◌+◌, ◌^◌, [], ◌∷◌, None, Some};
ghost use Rattle.std.specs.Prelude.{true, Contains};
ghost use Rattle.mark_worklist.specs.Refusals.{TellsRefused, refusals_of};
ghost use Rattle.marker_core.specs.Bodies.{IsPlace};
ghost use Rattle.page_words.specs.Seat.{IsAlone};
ghost use Rattle.pair_notes.specs.declared.notes.Note.{Note};
ghost use Rattle.pair_notes.specs.BodyGraph.{PlacesDiffer, HaveNoPairs};
ghost use Rattle.pair_notes.specs.Marking.{MarksOn, traced_count};
ghost use Rattle.pair_notes.specs.Notes.{refusals_in};
ghost use Rattle.ephemerons.specs.UnderWay.{IsOfTraced, IsUnderWay};
ghost use Rattle.ephemerons.specs.Fixpoint.{IsGround, Works, mode_of, stage, with_held};

use crate::draining::has_pairs;
use crate::marks::{list_held, next_listed};
use crate::strong_fields::trace_strong;
use crate::tracing::{claim, trace_fields};
use mark_worklist::Marking;
use page_words::{Bodywords, MutatorSeat};
use pair_notes::Pairs;
use type_table::TypeTable;

/// Traces objects from the list, at most so many. Answers how many: fewer only where the list came
/// to its end. Pairs whose key is not marked are noted, and none is settled. It can't be refused.
pub fn trace_listed<B: Bodywords>(
    space: &B,
    types: &TypeTable,
    seat: &mut MutatorSeat,
    marking: &mut Marking,
    notes: &mut Pairs,
    most: u32,
) -> u32
    requires heap { seat.old.heap ≡ B.heap space.now }
    requires types { types.now ≡ seat.old.types }
    requires under_way { IsUnderWay seat.old marking.old notes.old }
    requires alone { IsAlone seat.old }
    requires whole { marking.old.list.whole ≡ true }
    requires objects { (note : Note) → Contains notes.old.notes note → note.word ≡ 0
        → IsPlace seat.old.bodies note.holder }
    ensures under_way { IsUnderWay seat.new marking.new notes.new }
    ensures alone { IsAlone seat.new }
    ensures mode { mode_of marking.new ≡ mode_of marking.old }
    ensures noted { (note : Note) → Contains notes.new.notes note → Contains notes.old.notes note
        ⊎ IsOfTraced types.now seat.new note }
    ensures kept { MarksOn seat.old seat.new }
    ensures counted { PlacesDiffer seat.old.bodies
        → traced_count seat.new ≡ traced_count seat.old + result }
    ensures most { result ≤ most }
    ensures done { result < most → marking.new.list.items ≡ [] }
    ensures told { TellsRefused (refusals_of marking.old) (refusals_of marking.new) }
    ensures notes_told { TellsRefused (refusals_in notes.old) (refusals_in notes.new) }
{
    seat.bodies_lie_apart();
    if has_pairs(types) {
        step_with_notes(space, types, seat, marking, notes, most)
    } else {
        step_pairless(space, types, seat, marking, notes, most)
    }
}

/// The step where types have pairs.
fn step_with_notes<B: Bodywords>(
    space: &B,
    types: &TypeTable,
    seat: &mut MutatorSeat,
    marking: &mut Marking,
    notes: &mut Pairs,
    most: u32,
) -> u32
    requires heap { seat.old.heap ≡ B.heap space.now }
    requires ground { IsGround types.now (stage seat.old marking.old (notes.old ∷ []) 0) }
    requires under_way { IsUnderWay seat.old marking.old notes.old }
    ensures works { Works types.now None (stage seat.old marking.old (notes.old ∷ []) 0)
        (stage seat.new marking.new (notes.new ∷ []) result) }
    ensures under_way { IsUnderWay seat.new marking.new notes.new }
    ensures noted { (note : Note) → Contains notes.new.notes note → Contains notes.old.notes note
        ⊎ IsOfTraced types.now seat.new note }
    ensures most { result ≤ most }
    ensures done { result < most → marking.new.list.items ≡ [] }
{
    let mut traced = 0;
    while traced < most {
        let Some(place) = marking.list.pop() else {
            return traced;
        };
        trace_taken(space, types, seat, marking, notes, &mut traced, place);
    }
    traced
}

/// Claims an object that was taken from the list and traces it, unless it was traced before.
/// `traced` counts.
fn trace_taken<B: Bodywords>(
    words: &B,
    types: &TypeTable,
    seat: &mut MutatorSeat,
    marking: &mut Marking,
    notes: &mut Pairs,
    traced: &mut u32,
    place: u32,
)
    requires heap { seat.old.heap ≡ B.heap words.now }
    requires ground { IsGround types.now
        (stage seat.old marking.old (notes.old ∷ []) traced.old) }
    requires under_way { IsUnderWay seat.old (with_held (Some place) marking.old) notes.old }
    ensures ground { IsGround types.now (stage seat.new marking.new (notes.new ∷ []) traced.new) }
    ensures works { Works types.now (Some place)
        (stage seat.old marking.old (notes.old ∷ []) traced.old)
        (stage seat.new marking.new (notes.new ∷ []) traced.new) }
    ensures under_way { IsUnderWay seat.new marking.new notes.new }
    ensures noted { (note : Note) → Contains notes.new.notes note → Contains notes.old.notes note
        ⊎ IsOfTraced types.now seat.new note }
    ensures one { traced.new ≤ traced.old + 1 }
{
    seat.bodies_lie_apart();
    if let Some(ty) = claim(words, seat, place) {
        *traced += 1;
        trace_fields(words, types, seat, marking, notes, place, ty);
    }
}

/// The step where no type has a pair. What the last strong field of an object names is traced next,
/// and what would be traced next at the end is listed again: so a chain is traced without the list.
// As in the fixpoint's drain: alone, it has all registers.
#[inline(never)]
fn step_pairless<B: Bodywords>(
    space: &B,
    types: &TypeTable,
    seat: &mut MutatorSeat,
    marking: &mut Marking,
    notes: &Pairs,
    most: u32,
) -> u32
    requires heap { seat.old.heap ≡ B.heap space.now }
    requires pairless { HaveNoPairs types.now }
    requires ground { IsGround types.now (stage seat.old marking.old (notes.now ∷ []) 0) }
    requires under_way { IsUnderWay seat.old marking.old notes.now }
    ensures works { Works types.now None (stage seat.old marking.old (notes.now ∷ []) 0)
        (stage seat.new marking.new (notes.now ∷ []) result) }
    ensures under_way { IsUnderWay seat.new marking.new notes.now }
    ensures most { result ≤ most }
    ensures done { result < most → marking.new.list.items ≡ [] }
{
    let mut traced = 0;
    let mut next = next_listed(marking, None);
    while let Some(place) = next {
        if traced == most {
            list_held(marking, next);
            return traced;
        }
        let held = trace_taken_pairless(space, types, seat, marking, notes, &mut traced, place);
        next = next_listed(marking, held);
    }
    traced
}

/// The same for an object of a type without pairs. Of what was marked the answer has one object,
/// which is held back, and the others are listed.
#[inline(always)]
fn trace_taken_pairless<B: Bodywords>(
    words: &B,
    types: &TypeTable,
    seat: &mut MutatorSeat,
    marking: &mut Marking,
    notes: &Pairs,
    traced: &mut u32,
    place: u32,
) -> Option<u32>
    requires heap { seat.old.heap ≡ B.heap words.now }
    requires pairless { HaveNoPairs types.now }
    requires ground { IsGround types.now
        (stage seat.old marking.old (notes.now ∷ []) traced.old) }
    requires under_way { IsUnderWay seat.old (with_held (Some place) marking.old) notes.now }
    ensures ground { IsGround types.now
        (stage seat.new (with_held result marking.new) (notes.now ∷ []) traced.new) }
    ensures works { Works types.now (Some place)
        (stage seat.old marking.old (notes.now ∷ []) traced.old)
        (stage seat.new (with_held result marking.new) (notes.now ∷ []) traced.new) }
    ensures under_way { IsUnderWay seat.new (with_held result marking.new) notes.now }
    ensures one { traced.new ≤ traced.old + 1 }
{
    let _ = notes;
    seat.bodies_lie_apart();
    match claim(words, seat, place) {
        Some(ty) => {
            *traced += 1;
            trace_strong(words, types, seat, marking, place, ty)
        }
        None => None,
    }
}
