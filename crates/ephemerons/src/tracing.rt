// Tracing: what the strong fields of an object name is marked, and so is the value of each pair
// whose key is marked. It is the machine's hand that goes from word to word.

ghost use Rattle.std.specs.Prelude.{◌≡◌, ℕ, true, false, Contains, Some, None, IfSome, IfNone};
ghost use Rattle.std.specs.Prelude.{[], ◌∷◌};
ghost use Rattle.std.specs.Option.{is_some};
ghost use Rattle.type_table.specs.Types.{declared_kinds};
ghost use Rattle.type_table.specs.TracedWords.{traced_words_of};
ghost use Rattle.marker_core.specs.Bodies.{IsPlace, holds};
ghost use Rattle.page_words.specs.Seat.{IsAlone, is_grey_at};
ghost use Rattle.pair_notes.specs.BodyGraph.{HasType, HaveNoPairs};
ghost use Rattle.pair_notes.specs.Marking.{GrowsWithin, HasStrongMarked};
ghost use Rattle.pair_notes.specs.Notes.{NotesGrow, HasPairsNoted};
ghost use Rattle.pair_notes.specs.InHand.{IsTracing, IsPast, IsAtWord, IsWordTraced};
ghost use Rattle.pair_notes.specs.InHand.{Claims, OnlyLooks, moved_on};
ghost use Rattle.ephemerons.specs.Traces.{Traces};
ghost use Rattle.ephemerons.specs.Fixpoint.{ListsMarks, with_held};
ghost use Rattle.ephemerons.specs.Fixpoint.{IsGround, Works, stage};
ghost use Rattle.ephemerons.specs.LookedAt.{LooksOnlyAt, LooksWithin, LooksOnward};

use crate::marks::{list_held, type_of};
use crate::pair_fields::trace_pair;
use crate::strong_fields::{trace_strong, trace_strong_word};
use mark_worklist::Marking;
use object_headers::{Header, with_traced};
use page_words::{Bodywords, MutatorSeat, Reading, has_mark};
use pair_notes::Pairs;
use type_table::{TracedWord, TypeTable};

/// Traces an object that this seat claimed, and that is in hand as the claim left it: marks and
/// lists what its strong fields name, and for each pair marks and lists the value where the key is
/// marked, and notes the pair otherwise. A refused push leaves its object marked and raises
/// `overflow` of the marking, and a refused note that of the notes.
pub fn trace<B: Bodywords>(
    space: &B,
    types: &TypeTable,
    seat: &mut MutatorSeat,
    marking: &mut Marking,
    notes: &mut Pairs,
    place: u32,
)
    requires heap { seat.old.heap ≡ B.heap space.now }
    requires marking { marking.old.on ≡ seat.old.on }
    requires types { seat.old.types ≡ types.now }
    requires tracing { IsTracing seat.old }
    requires claimed { holds seat.old.traced place ≡ true }
    requires hand { (ty : ℕ) → HasType seat.old.bodies place ty → IsPast seat.old place ty 1 }
    ensures marks { ListsMarks seat.old marking.old seat.new marking.new }
    ensures within { GrowsWithin types.now seat.old seat.new }
    ensures strong { HasStrongMarked types.now seat.new place }
    ensures notes { NotesGrow types.now seat.old.bodies notes.old notes.new }
    ensures pairs { notes.new.overflow ≡ false
        → HasPairsNoted types.now seat.new place (Contains notes.new.notes) }
    ensures told { (ty : ℕ) → HasType seat.old.bodies place ty
        → Traces seat.old notes.old seat.new notes.new place
        (traced_words_of (declared_kinds types.now ty)) }
    ensures hand { seat.new.hand ≡ None }
    ensures looked { LooksWithin types.now seat.old seat.new }
{
    seat.bodies_lie_apart();
    let ty = type_of(space, seat, place);
    trace_fields(space, types, seat, marking, notes, place, ty);
}

/// Traces a marked object of a type, which is in hand. Its other words are never read.
pub(crate) fn trace_fields<B: Bodywords>(
    words: &B,
    types: &TypeTable,
    seat: &mut MutatorSeat,
    marking: &mut Marking,
    notes: &mut Pairs,
    place: u32,
    ty: u32,
)
    requires heap { seat.old.heap ≡ B.heap words.now }
    requires marking { marking.old.on ≡ seat.old.on }
    requires types { seat.old.types ≡ types.now }
    requires tracing { IsTracing seat.old }
    requires body { HasType seat.old.bodies place ty }
    requires marked { holds seat.old.marked place ≡ true }
    requires hand { IsPast seat.old place ty 1 }
    ensures marks { ListsMarks seat.old marking.old seat.new marking.new }
    ensures within { GrowsWithin types.now seat.old seat.new }
    ensures strong { HasStrongMarked types.now seat.new place }
    ensures notes { NotesGrow types.now seat.old.bodies notes.old notes.new }
    ensures pairs { notes.new.overflow ≡ false
        → HasPairsNoted types.now seat.new place (Contains notes.new.notes) }
    ensures told { Traces seat.old notes.old seat.new notes.new place
        (traced_words_of (declared_kinds types.now ty)) }
    ensures hand { seat.new.hand ≡ None }
    ensures looked { LooksWithin types.now seat.old seat.new }
{
    seat.bodies_lie_apart();
    let traced = types.traced_words(ty);
    for word in traced {
        trace_word(words, seat, marking, notes, place, *word);
    }
}

/// Traces the word in hand of a marked object.
fn trace_word<B: Bodywords>(
    words: &B,
    seat: &mut MutatorSeat,
    marking: &mut Marking,
    notes: &mut Pairs,
    place: u32,
    word: TracedWord,
)
    requires heap { seat.old.heap ≡ B.heap words.now }
    requires marking { marking.old.on ≡ seat.old.on }
    requires tracing { IsTracing seat.old }
    requires marked { holds seat.old.marked place ≡ true }
    requires hand { IsAtWord seat.old place word }
    ensures marks { ListsMarks seat.old marking.old seat.new marking.new }
    ensures within { GrowsWithin seat.old.types seat.old seat.new }
    ensures notes { NotesGrow seat.old.types seat.old.bodies notes.old notes.new }
    ensures done { IsWordTraced seat.old.types seat.new place notes.new word }
    ensures told { Traces seat.old notes.old seat.new notes.new place (word ∷ []) }
    ensures hand { seat.new.hand ≡ moved_on seat.old }
    ensures looked { LooksWithin seat.old.types seat.old seat.new }
{
    match word {
        TracedWord::StrongAt(offset) => {
            let fresh = trace_strong_word(words, seat, place, offset);
            list_held(marking, fresh);
        }
        TracedWord::PairAt(offset) => trace_pair(words, seat, marking, notes, place, offset),
    }
}

/// Claims an object and traces it, where it is marked and not yet traced, and where no type has a
/// pair: the strong fields are all that there is to trace. `traced` counts. Of what was marked the
/// answer has one object, which is held back, and the others are listed.
#[inline(always)]
pub(crate) fn trace_pairless<B: Bodywords>(
    space: &B,
    types: &TypeTable,
    seat: &mut MutatorSeat,
    marking: &mut Marking,
    groups: &[Pairs],
    traced: &mut u32,
    place: u32,
) -> Option<u32>
    requires heap { seat.old.heap ≡ B.heap space.now }
    requires ground { IsGround types.now (stage seat.old marking.old groups.now traced.old) }
    requires pairless { HaveNoPairs types.now }
    requires place { IsPlace seat.old.bodies place }
    ensures ground { IsGround types.now
        (stage seat.new (with_held result marking.new) groups.now traced.new) }
    ensures works { Works types.now (Some place)
        (stage seat.old marking.old groups.now traced.old)
        (stage seat.new (with_held result marking.new) groups.now traced.new) }
    ensures looked { holds seat.old.marked place ≡ true → LooksOnward types.now
        (stage seat.old marking.old groups.now traced.old)
        (stage seat.new (with_held result marking.new) groups.now traced.new) }
{
    let _ = groups;
    seat.bodies_lie_apart();
    match claim(space, seat, place) {
        Some(ty) => {
            *traced += 1;
            trace_strong(space, types, seat, marking, place, ty)
        }
        None => None,
    }
}

/// Claims an object. Its type where it was marked and not yet traced: one look at the header serves
/// both.
#[inline(always)]
pub fn claim<B: Bodywords>(words: &B, seat: &mut MutatorSeat, place: u32) -> Option<u32>
    requires heap { seat.old.heap ≡ B.heap words.now }
    requires on { seat.old.on ≡ true }
    requires alone { IsAlone seat.old }
    requires place { IsPlace seat.old.bodies place }
    ensures grey { is_some result ≡ is_grey_at seat.old place }
    ensures body { IfSome result (HasType seat.old.bodies place) }
    ensures claimed { IfSome result (Claims seat.old seat.new place) }
    ensures failed { IfNone result (OnlyLooks seat.old seat.new) }
    ensures looked { LooksOnlyAt (λ p. place ≡ p) seat.old seat.new }
{
    seat.bodies_lie_apart();
    let word = words.load::<Reading>(seat, place);
    if !has_mark(word) || word != with_traced(word, false) {
        return None;
    }
    if !words.claim(seat, place, word) {
        return None;
    }
    Some(Header::type_in(word))
}
