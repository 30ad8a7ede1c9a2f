// Marks of objects, and the words of their fields.

ghost use Rattle.std.specs.Prelude.{◌≡◌, ◌⊎◌, ℕ, ◌^◌, ◌<◌, true, false};
ghost use Rattle.std.specs.Prelude.{Contains, MatchOption, Some, IfSome, IfNone, [], ◌∷◌, ◌++◌};
ghost use Rattle.mark_worklist.specs.declared.marking.Marking.{Marking};
ghost use Rattle.object_headers.specs.Offsets.{reference_to};
ghost use Rattle.marker_core.specs.Bodies.{IsPlace, IsReference};
ghost use Rattle.marker_core.specs.declared.states.Body.{Body};
ghost use Rattle.marker_core.specs.Bodies.{holds};
ghost use Rattle.marker_core.specs.Hands.{hand_after_mark, each_hand};
ghost use Rattle.page_words.specs.Roles.{kind_lists};
ghost use Rattle.page_words.specs.Seat.{OnlyLooked};
ghost use Rattle.pair_notes.specs.BodyGraph.{HasType, word_at};
ghost use Rattle.pair_notes.specs.Marking.{heap_and_marks};
ghost use Rattle.pair_notes.specs.InHand.{MayMark};
ghost use Rattle.ephemerons.specs.LookedAt.{LooksOnlyAt};
ghost use Rattle.ephemerons.specs.Fixpoint.{ListsMarks, IsListed, weight_of};
ghost use Rattle.pair_notes.specs.BodyGraph.{BodyHasWord};
ghost use Rattle.ephemerons.specs.Fixpoint.{IsStillHeld, with_held};

use mark_worklist::Marking;
use object_headers::Header;
use page_words::{Bodywords, MutatorSeat, Reading, has_mark};

/// Whether the object that a reference names is marked. Null names none.
pub(crate) fn names_marked<B: Bodywords>(space: &B, seat: &mut MutatorSeat, reference: u64) -> bool
    requires heap { seat.old.heap ≡ B.heap space.now }
    requires alone { seat.old.lent ≡ 0 }
    requires reference { IsReference seat.old.bodies reference }
    ensures named { (p : ℕ) → reference ≡ reference_to p → result ≡ holds seat.old.marked p }
    ensures null { reference ≡ 0 → result ≡ false }
    ensures view { OnlyLooked seat.old seat.new }
    ensures looked { LooksOnlyAt (λ p. reference ≡ reference_to p) seat.old seat.new }
{
    seat.bodies_lie_apart();
    reference != 0 && is_marked(space, seat, (reference - 1) as u32)
}

/// Whether the object at a place is marked. No more of its header is looked at.
pub(crate) fn is_marked<B: Bodywords>(words: &B, seat: &mut MutatorSeat, place: u32) -> bool
    requires heap { seat.old.heap ≡ B.heap words.now }
    requires alone { seat.old.lent ≡ 0 }
    requires place { IsPlace seat.old.bodies place }
    ensures mark { result ≡ holds seat.old.marked place }
    ensures view { OnlyLooked seat.old seat.new }
    ensures looked { seat.new.looked ≡ seat.old.looked ++ place ∷ [] }
{
    seat.bodies_lie_apart();
    has_mark(words.load::<Reading>(seat, place))
}

/// The type of the object at a place.
pub(crate) fn type_of<B: Bodywords>(words: &B, seat: &mut MutatorSeat, place: u32) -> u32
    requires heap { seat.old.heap ≡ B.heap words.now }
    requires place { IsPlace seat.old.bodies place }
    ensures body { HasType seat.old.bodies place result }
    ensures view { OnlyLooked seat.old seat.new }
    ensures looked { seat.new.looked ≡ seat.old.looked ++ place ∷ [] }
{
    seat.bodies_lie_apart();
    Header::type_in(words.load::<Reading>(seat, place))
}

/// The field word at an offset of the object at a place.
pub(crate) fn word_of<B: Bodywords>(
    words: &B,
    seat: &mut MutatorSeat,
    holder: u32,
    offset: u32,
) -> u64
    requires heap { seat.old.heap ≡ B.heap words.now }
    requires field { BodyHasWord seat.old.bodies holder offset }
    ensures word { (b : Body) → Contains seat.old.bodies b → b.place ≡ holder
        → result ≡ word_at b offset }
    ensures view { seat.new ≡ seat.old }
{
    seat.bodies_lie_apart();
    words.load::<Reading>(seat, holder + offset)
}

/// Marks and lists what a field word names. True where it was not marked.
pub(crate) fn mark_reference<B: Bodywords>(
    words: &B,
    seat: &mut MutatorSeat,
    marking: &mut Marking,
    reference: u64,
) -> bool
    requires heap { seat.old.heap ≡ B.heap words.now }
    requires on { seat.old.on ≡ true }
    requires marking { marking.old.on ≡ seat.old.on }
    requires alone { seat.old.lent ≡ 0 }
    requires may { MayMark seat.old reference }
    ensures marks { ListsMarks seat.old marking.old seat.new marking.new }
    ensures target { (p : ℕ) → reference ≡ reference_to p → holds seat.new.marked p ≡ true }
    ensures only { (p : ℕ) → holds seat.new.marked p ≡ true
        → (holds seat.old.marked p ≡ true) ⊎ (reference ≡ reference_to p) }
    ensures found { result ≡ true
        → weight_of seat.new marking.new < weight_of seat.old marking.old }
    ensures still { result ≡ false → (heap_and_marks seat.new ≡ heap_and_marks seat.old)
        × (marking.new ≡ marking.old) }
    ensures looked { seat.new.looked ≡ seat.old.looked }
{
    let fresh = mark_named(words, seat, reference);
    list_held(marking, fresh);
    fresh.is_some()
}

/// Marks an object, and lists it if it was not marked. True where it was not. A refused push leaves
/// it marked, and raises `overflow`.
pub fn mark<B: Bodywords>(
    words: &B,
    seat: &mut MutatorSeat,
    marking: &mut Marking,
    place: u32,
) -> bool
    requires heap { seat.old.heap ≡ B.heap words.now }
    requires on { seat.old.on ≡ true }
    requires marking { marking.old.on ≡ seat.old.on }
    requires alone { seat.old.lent ≡ 0 }
    requires place { IsPlace seat.old.bodies place }
    requires may { holds seat.old.may place ≡ true }
    ensures marks { ListsMarks seat.old marking.old seat.new marking.new }
    ensures target { holds seat.new.marked place ≡ true }
    ensures only { (p : ℕ) → holds seat.new.marked p ≡ true
        → (holds seat.old.marked p ≡ true) ⊎ (place ≡ p) }
    ensures noted { seat.new.noted ≡ seat.old.noted }
    ensures found { result ≡ true
        → weight_of seat.new marking.new < weight_of seat.old marking.old }
    ensures still { result ≡ false → (heap_and_marks seat.new ≡ heap_and_marks seat.old)
        × (marking.new ≡ marking.old) }
    ensures looked { seat.new.looked ≡ seat.old.looked }
{
    let fresh = mark_unlisted(words, seat, place);
    list_held(marking, fresh);
    fresh.is_some()
}

/// Marks what a field word names. Its place where it was not marked: the caller lists or traces it.
#[inline(always)]
pub(crate) fn mark_named<B: Bodywords>(
    words: &B,
    seat: &mut MutatorSeat,
    reference: u64,
) -> Option<u32>
    requires heap { seat.old.heap ≡ B.heap words.now }
    requires on { seat.old.on ≡ true }
    requires alone { seat.old.lent ≡ 0 }
    requires may { MayMark seat.old reference }
    ensures marks { (m : Marking) → ListsMarks seat.old m seat.new (with_held result m) }
    ensures found { (m : Marking) → IfSome result (λ p.
        weight_of seat.new (with_held (Some p) m) < weight_of seat.old m) }
    ensures still { IfNone result (heap_and_marks seat.new ≡ heap_and_marks seat.old) }
    ensures target { (p : ℕ) → reference ≡ reference_to p → holds seat.new.marked p ≡ true }
    ensures only { (p : ℕ) → holds seat.new.marked p ≡ true
        → (holds seat.old.marked p ≡ true) ⊎ (reference ≡ reference_to p) }
    ensures null { reference ≡ 0 → seat.new ≡ seat.old }
    ensures noted { seat.new.noted ≡ seat.old.noted }
    ensures hand { (p : ℕ) → reference ≡ reference_to p
        → seat.new.hand ≡ each_hand (hand_after_mark (kind_lists seat.old.types) p) seat.old.hand }
    ensures looked { seat.new.looked ≡ seat.old.looked }
{
    seat.bodies_lie_apart();
    if reference == 0 {
        return None;
    }
    mark_unlisted(words, seat, place_named(reference))
}

/// The place that a reference names, which isn't null. It is counted in the 32 bits of a place, which
/// then are an index as they stand.
#[inline(always)]
fn place_named(reference: u64) -> u32
    requires some { 0 < reference }
    requires small { reference < 2 ^ 32 }
    ensures { reference ≡ reference_to result }
{
    reference as u32 - 1
}

/// Marks an object. Its place where it was not marked.
#[inline(always)]
fn mark_unlisted<B: Bodywords>(words: &B, seat: &mut MutatorSeat, place: u32) -> Option<u32>
    requires heap { seat.old.heap ≡ B.heap words.now }
    requires on { seat.old.on ≡ true }
    requires alone { seat.old.lent ≡ 0 }
    requires place { IsPlace seat.old.bodies place }
    requires may { holds seat.old.may place ≡ true }
    ensures marks { (m : Marking) → ListsMarks seat.old m seat.new (with_held result m) }
    ensures found { (m : Marking) → IfSome result (λ p.
        weight_of seat.new (with_held (Some p) m) < weight_of seat.old m) }
    ensures still { IfNone result (heap_and_marks seat.new ≡ heap_and_marks seat.old) }
    ensures target { holds seat.new.marked place ≡ true }
    ensures only { (p : ℕ) → holds seat.new.marked p ≡ true
        → (holds seat.old.marked p ≡ true) ⊎ (place ≡ p) }
    ensures noted { seat.new.noted ≡ seat.old.noted }
    ensures hand { seat.new.hand
        ≡ each_hand (hand_after_mark (kind_lists seat.old.types) place) seat.old.hand }
    ensures looked { seat.new.looked ≡ seat.old.looked }
{
    seat.bodies_lie_apart();
    if words.mark(seat, place) {
        Some(place)
    } else {
        None
    }
}

/// Lists the object that was held back, if there is one.
pub(crate) fn list_held(marking: &mut Marking, held: Option<u32>)
    ensures listed { MatchOption held (marking.new ≡ marking.old)
        (IsListed marking.old marking.new) }
{
    if let Some(place) = held {
        marking.push(place);
    }
}

/// The object that was held back, or else one that was listed.
#[inline(always)]
pub(crate) fn next_listed(marking: &mut Marking, held: Option<u32>) -> Option<u32>
    requires whole { marking.old.list.whole ≡ true }
    ensures next { IsStillHeld marking.old held marking.new result }
    ensures none { IfNone result (marking.new.list.items ≡ []) }
{
    match held {
        Some(place) => Some(place),
        None => marking.list.pop(),
    }
}
