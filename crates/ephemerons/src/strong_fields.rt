// The strong fields of an object in hand: what they name is marked.

ghost use Rattle.std.specs.Prelude.{◌≡◌, ◌⊎◌, ℕ, ◌+◌, true, None, Contains, length, drop};
ghost use Rattle.gc_graph.specs.declared.kind.Kind.TheVariants.{Strong};
ghost use Rattle.type_table.specs.Types.{declared_kinds, offsets_of_kind};
ghost use Rattle.mark_worklist.specs.declared.marking.Marking.{Marking};
ghost use Rattle.object_headers.specs.Offsets.{reference_to};
ghost use Rattle.marker_core.specs.Bodies.{holds};
ghost use Rattle.marker_core.specs.declared.states.Body.{Body};
ghost use Rattle.marker_core.specs.declared.states.Part.TheVariants.{Read};
ghost use Rattle.pair_notes.specs.BodyGraph.{HasType, HaveNoPairs, strong_offsets, word_at};
ghost use Rattle.pair_notes.specs.Marking.{GrowsWithin, HasStrongMarked, HasTargetMarked};
ghost use Rattle.pair_notes.specs.InHand.{IsTracing, IsPast, IsAt, IsAtTarget};
ghost use Rattle.pair_notes.specs.InHand.{hand_over, traced_in, moved_on, BeginsWith};
ghost use Rattle.ephemerons.specs.Fixpoint.{ListsMarks, with_held};
ghost use Rattle.pair_notes.specs.BodyGraph.{BodyHasWord};

use crate::marks::{list_held, mark_named};
use mark_worklist::Marking;
use page_words::{Bodywords, MutatorSeat, Tracing};
use type_table::TypeTable;

/// Traces an object in hand, of a type without pairs: marks what its strong fields name. All of it
/// is listed but what the last one names: that is the answer, if it was not marked. So a chain is
/// traced without the list.
#[inline(always)]
pub(crate) fn trace_strong<B: Bodywords>(
    words: &B,
    types: &TypeTable,
    seat: &mut MutatorSeat,
    marking: &mut Marking,
    place: u32,
    ty: u32,
) -> Option<u32>
    requires heap { seat.old.heap ≡ B.heap words.now }
    requires marking { marking.old.on ≡ seat.old.on }
    requires types { seat.old.types ≡ types.now }
    requires tracing { IsTracing seat.old }
    requires pairless { HaveNoPairs types.now }
    requires body { HasType seat.old.bodies place ty }
    requires marked { holds seat.old.marked place ≡ true }
    requires hand { IsPast seat.old place ty 1 }
    ensures marks { ListsMarks seat.old marking.old seat.new (with_held result marking.new) }
    ensures within { GrowsWithin types.now seat.old seat.new }
    ensures strong { HasStrongMarked types.now seat.new place }
    ensures noted { seat.new.noted ≡ seat.old.noted }
    ensures hand { seat.new.hand ≡ None }
    ensures looked { seat.new.looked ≡ seat.old.looked }
{
    seat.bodies_lie_apart();
    let strong = types.strong_words(ty);
    match strong.split_last() {
        Some((last, others)) => {
            trace_words(words, seat, marking, place, ty, others);
            trace_strong_word(words, seat, place, *last)
        }
        None => None,
    }
}

/// Marks and lists what the first words that the hand comes to name, which are strong fields.
#[inline(always)]
fn trace_words<B: Bodywords>(
    words: &B,
    seat: &mut MutatorSeat,
    marking: &mut Marking,
    place: u32,
    ty: u32,
    offsets: &[u32],
)
    requires heap { seat.old.heap ≡ B.heap words.now }
    requires marking { marking.old.on ≡ seat.old.on }
    requires tracing { IsTracing seat.old }
    requires body { HasType seat.old.bodies place ty }
    requires strong { (offset : ℕ) → Contains offsets.now offset
        → Contains (offsets_of_kind Strong (declared_kinds seat.old.types ty)) offset }
    requires first { BeginsWith (traced_in seat.old.types ty) offsets.now }
    requires marked { holds seat.old.marked place ≡ true }
    requires hand { seat.old.hand ≡ hand_over place ty (traced_in seat.old.types ty) }
    ensures marks { ListsMarks seat.old marking.old seat.new marking.new }
    ensures within { GrowsWithin seat.old.types seat.old seat.new }
    ensures named { (offset : ℕ) → Contains offsets.now offset
        → HasTargetMarked seat.new place offset }
    ensures noted { seat.new.noted ≡ seat.old.noted }
    ensures hand { seat.new.hand
        ≡ hand_over place ty (drop (length offsets.now) (traced_in seat.old.types ty)) }
    ensures looked { seat.new.looked ≡ seat.old.looked }
{
    let _ = ty;
    for offset in offsets {
        let fresh = trace_strong_word(words, seat, place, *offset);
        list_held(marking, fresh);
    }
}

/// Marks what the strong field in hand names. Its place where it was not marked: the caller lists or
/// traces it.
#[inline(always)]
pub(crate) fn trace_strong_word<B: Bodywords>(
    words: &B,
    seat: &mut MutatorSeat,
    holder: u32,
    offset: u32,
) -> Option<u32>
    requires heap { seat.old.heap ≡ B.heap words.now }
    requires tracing { IsTracing seat.old }
    requires marked { holds seat.old.marked holder ≡ true }
    requires hand { IsAt strong_offsets seat.old holder offset Read }
    ensures marks { (m : Marking) → ListsMarks seat.old m seat.new (with_held result m) }
    ensures within { GrowsWithin seat.old.types seat.old seat.new }
    ensures named { HasTargetMarked seat.new holder offset }
    ensures only { (b : Body) (p : ℕ) → Contains seat.old.bodies b → b.place ≡ holder
        → holds seat.new.marked p ≡ true
        → (holds seat.old.marked p ≡ true) ⊎ (word_at b offset ≡ reference_to p) }
    ensures noted { seat.new.noted ≡ seat.old.noted }
    ensures hand { seat.new.hand ≡ moved_on seat.old }
    ensures looked { seat.new.looked ≡ seat.old.looked }
{
    seat.bodies_lie_apart();
    trace_target(words, seat, holder, offset)
}

/// Reads the word that the hand wants, and marks what it names: then the hand moves on. Its place
/// where it was not marked.
#[inline(always)]
pub(crate) fn trace_target<B: Bodywords>(
    words: &B,
    seat: &mut MutatorSeat,
    holder: u32,
    offset: u32,
) -> Option<u32>
    requires heap { seat.old.heap ≡ B.heap words.now }
    requires tracing { IsTracing seat.old }
    requires field { BodyHasWord seat.old.bodies holder offset }
    requires hand { IsAtTarget seat.old (holder + offset) }
    ensures marks { (m : Marking) → ListsMarks seat.old m seat.new (with_held result m) }
    ensures named { HasTargetMarked seat.new holder offset }
    ensures only { (b : Body) (p : ℕ) → Contains seat.old.bodies b → b.place ≡ holder
        → holds seat.new.marked p ≡ true
        → (holds seat.old.marked p ≡ true) ⊎ (word_at b offset ≡ reference_to p) }
    ensures noted { seat.new.noted ≡ seat.old.noted }
    ensures hand { seat.new.hand ≡ moved_on seat.old }
    ensures looked { seat.new.looked ≡ seat.old.looked }
{
    seat.bodies_lie_apart();
    let reference = words.load::<Tracing>(seat, holder + offset);
    seat.bodies_lie_apart();
    mark_named(words, seat, reference)
}
