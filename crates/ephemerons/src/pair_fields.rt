// The pairs of an object in hand: the value of one is marked where its key is marked, and else the
// pair is noted.

ghost use Rattle.std.specs.Prelude.{◌≡◌, true, false, None, Contains, MatchOption, IfSome, IfNone};
ghost use Rattle.std.specs.Prelude.{[], ◌∷◌, ◌++◌};
ghost use Rattle.type_table.specs.declared.traced.TracedWord.TheVariants.{PairAt};
ghost use Rattle.object_headers.specs.Offsets.{reference_to};
ghost use Rattle.marker_core.specs.Bodies.{holds};
ghost use Rattle.marker_core.specs.declared.states.Body.{Body};
ghost use Rattle.marker_core.specs.declared.states.Part.TheVariants.{Read, Key, Value};
ghost use Rattle.pair_notes.specs.BodyGraph.{pair_offsets, word_at};
ghost use Rattle.pair_notes.specs.Marking.{GrowsWithin, heap_and_marks};
ghost use Rattle.pair_notes.specs.Notes.{NotesGrow, HasPairNoted};
ghost use Rattle.pair_notes.specs.InHand.{IsTracing, IsAt, moved_on};
ghost use Rattle.ephemerons.specs.Traces.{Traces, noted_unless};
ghost use Rattle.ephemerons.specs.LookedAt.{LooksWithin};
ghost use Rattle.ephemerons.specs.Fixpoint.{ListsMarks};

use crate::marks::list_held;
use crate::strong_fields::trace_target;
use mark_worklist::Marking;
use object_headers::place_in;
use page_words::{Bodywords, MutatorSeat, Tracing, has_mark};
use pair_notes::Pairs;

/// Marks and lists the value of the pair in hand where the key is marked, and notes the pair
/// otherwise. A pair without a key asks for nothing.
pub(crate) fn trace_pair<B: Bodywords>(
    words: &B,
    seat: &mut MutatorSeat,
    marking: &mut Marking,
    notes: &mut Pairs,
    holder: u32,
    offset: u32,
)
    requires heap { seat.old.heap ≡ B.heap words.now }
    requires marking { marking.old.on ≡ seat.old.on }
    requires tracing { IsTracing seat.old }
    requires marked { holds seat.old.marked holder ≡ true }
    requires hand { IsAt pair_offsets seat.old holder offset Read }
    ensures marks { ListsMarks seat.old marking.old seat.new marking.new }
    ensures within { GrowsWithin seat.old.types seat.old seat.new }
    ensures notes { NotesGrow seat.old.types seat.old.bodies notes.old notes.new }
    ensures pair { notes.new.overflow ≡ false
        → HasPairNoted seat.old.types seat.new holder offset (Contains notes.new.notes) }
    ensures told { Traces seat.old notes.old seat.new notes.new holder (PairAt offset ∷ []) }
    ensures hand { seat.new.hand ≡ moved_on seat.old }
    ensures looked { LooksWithin seat.old.types seat.old seat.new }
{
    seat.bodies_lie_apart();
    match read_key(words, seat, holder, offset) {
        Some(key) => {
            if key_is_marked(words, seat, holder, offset, key) {
                let fresh = trace_target(words, seat, holder, offset + 1);
                list_held(marking, fresh);
            } else {
                notes.note(holder, offset);
            }
        }
        None => {}
    }
}

/// The key of the pair in hand.
fn read_key<B: Bodywords>(
    words: &B,
    seat: &mut MutatorSeat,
    holder: u32,
    offset: u32,
) -> Option<u32>
    requires heap { seat.old.heap ≡ B.heap words.now }
    requires tracing { IsTracing seat.old }
    requires hand { IsAt pair_offsets seat.old holder offset Read }
    ensures key { (b : Body) → Contains seat.old.bodies b → b.place ≡ holder
        → MatchOption result (word_at b offset ≡ 0) (λ key. word_at b offset ≡ reference_to key) }
    ensures hand { IfSome result (λ key. IsAt pair_offsets seat.new holder offset (Key key)) }
    ensures passed { IfNone result (seat.new.hand ≡ moved_on seat.old) }
    ensures next { IfSome result (λ key. moved_on seat.new ≡ moved_on seat.old) }
    ensures view { heap_and_marks seat.new ≡ heap_and_marks seat.old }
    ensures noted { seat.new.noted ≡ seat.old.noted }
    ensures pending { seat.new.pending ≡ None }
    ensures looked { seat.new.looked ≡ seat.old.looked }
{
    seat.bodies_lie_apart();
    let reference = words.load::<Tracing>(seat, holder + offset);
    seat.bodies_lie_apart();
    place_in(reference)
}

/// Whether the key in hand is marked. If it is, the hand wants the value, and else it moves on.
fn key_is_marked<B: Bodywords>(
    words: &B,
    seat: &mut MutatorSeat,
    holder: u32,
    offset: u32,
    key: u32,
) -> bool
    requires heap { seat.old.heap ≡ B.heap words.now }
    requires tracing { IsTracing seat.old }
    requires hand { IsAt pair_offsets seat.old holder offset (Key key) }
    ensures mark { result ≡ holds seat.old.marked key }
    ensures hand { result ≡ true → IsAt pair_offsets seat.new holder offset Value }
    ensures passed { result ≡ false → seat.new.hand ≡ moved_on seat.old }
    ensures next { result ≡ true → moved_on seat.new ≡ moved_on seat.old }
    ensures view { heap_and_marks seat.new ≡ heap_and_marks seat.old }
    ensures noted { seat.new.noted ≡ seat.old.noted ++ noted_unless result holder offset }
    ensures pending { seat.new.pending ≡ None }
    ensures looked { seat.new.looked ≡ seat.old.looked ++ key ∷ [] }
{
    let _ = (holder, offset);
    seat.bodies_lie_apart();
    has_mark(words.load::<Tracing>(seat, key))
}
