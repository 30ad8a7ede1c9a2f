// The object in hand is traced, word by word in the order of their offsets.

ghost use Rattle.std.specs.Prelude.{◌≡◌, ◌<◌, ◌+◌, true, false, None, Some, length, Contains};
ghost use Rattle.type_table.specs.declared.traced.TracedWord.TheVariants.{PairAt};
ghost use Rattle.marker_core.specs.Layout as layout;
ghost use Rattle.pair_notes.specs.InHand.{hand_over, traced_in};
ghost use Rattle.pair_notes.specs.Notes.{NotesState};
ghost use Rattle.mark_worklist.specs.Shares.{taken_by_share};
ghost use Rattle.marker_crew.specs.Stages.{drain_stage, MarkerWorks};
ghost use Rattle.marker_crew.specs.Hands.{MarkerIsAtTarget, MarkerIsAtWord, marker_moved_on};

use crate::draining::Drained;
use crate::recording::{list, note};
use mark_worklist::Share;
use object_headers::{place_in, with_traced};
use page_words::{MarkerSeat, Words, has_mark};
use pair_notes::Pairs;
use type_table::{TracedWord, TypeTable};

/// Traces the object in hand, of a type, which this seat has claimed.
pub(crate) fn trace_object(
    words: &Words,
    types: &TypeTable,
    seat: &mut MarkerSeat,
    share: &mut Share,
    notes: &mut Pairs,
    drained: &mut Drained,
    place: u32,
    ty: u32,
)
    requires heap { seat.old.heap ≡ words.now }
    requires types { types.now ≡ seat.old.types }
    requires ty { ty < length types.now }
    requires traced { Contains seat.old.traced place }
    requires hand { seat.old.hand ≡ hand_over place ty (traced_in seat.old.types ty) }
    ensures works { MarkerWorks (drain_stage seat.old share.old notes.old drained.old)
        (drain_stage seat.new share.new notes.new drained.new) }
    ensures taken { taken_by_share share.new ≡ taken_by_share share.old }
    ensures hand { seat.new.hand ≡ None }
    ensures count { drained.new.traced ≡ drained.old.traced }
{
    for word in types.traced_words(ty) {
        trace_word(words, seat, share, notes, drained, place, *word);
    }
}

/// Traces the word at which the hand is.
fn trace_word(
    words: &Words,
    seat: &mut MarkerSeat,
    share: &mut Share,
    notes: &mut Pairs,
    drained: &mut Drained,
    place: u32,
    word: TracedWord,
)
    requires heap { seat.old.heap ≡ words.now }
    requires traced { Contains seat.old.traced place }
    requires hand { MarkerIsAtWord seat.old place word }
    ensures works { MarkerWorks (drain_stage seat.old share.old notes.old drained.old)
        (drain_stage seat.new share.new notes.new drained.new) }
    ensures taken { taken_by_share share.new ≡ taken_by_share share.old }
    ensures hand { seat.new.hand ≡ marker_moved_on seat.old }
    ensures count { drained.new.traced ≡ drained.old.traced }
{
    seat.places_are_within();
    match word {
        TracedWord::StrongAt(offset) => trace_target(words, seat, share, drained, place + offset),
        TracedWord::PairAt(offset) => {
            trace_pair(words, seat, share, notes, drained, place, offset);
        }
    }
}

/// Marks and lists what the word names that the hand wants, if it names anything.
fn trace_target(
    words: &Words,
    seat: &mut MarkerSeat,
    share: &mut Share,
    drained: &mut Drained,
    a: u32,
)
    requires heap { seat.old.heap ≡ words.now }
    requires target { MarkerIsAtTarget seat.old a }
    ensures works { (n : NotesState) → MarkerWorks (drain_stage seat.old share.old n drained.old)
        (drain_stage seat.new share.new n drained.new) }
    ensures taken { taken_by_share share.new ≡ taken_by_share share.old }
    ensures hand { seat.new.hand ≡ marker_moved_on seat.old }
    ensures count { drained.new.traced ≡ drained.old.traced }
{
    seat.places_are_within();
    if let Some(target) = place_in(words.read(seat, a)) {
        if words.mark_as(seat, target) {
            list(share, drained, target);
        }
    }
}

/// Marks and lists the value of the pair in hand where its key is marked, and else notes the pair. One
/// without a key asks for nothing.
fn trace_pair(
    words: &Words,
    seat: &mut MarkerSeat,
    share: &mut Share,
    notes: &mut Pairs,
    drained: &mut Drained,
    place: u32,
    offset: u32,
)
    requires heap { seat.old.heap ≡ words.now }
    requires traced { Contains seat.old.traced place }
    requires hand { MarkerIsAtWord seat.old place (PairAt offset) }
    ensures works { MarkerWorks (drain_stage seat.old share.old notes.old drained.old)
        (drain_stage seat.new share.new notes.new drained.new) }
    ensures taken { taken_by_share share.new ≡ taken_by_share share.old }
    ensures hand { seat.new.hand ≡ marker_moved_on seat.old }
    ensures count { drained.new.traced ≡ drained.old.traced }
{
    seat.places_are_within();
    if let Some(key) = place_in(words.read(seat, place + offset)) {
        if has_mark(words.header(seat, key)) {
            trace_target(words, seat, share, drained, place + offset + 1);
        } else {
            note(notes, drained, place, offset);
        }
    }
}

/// Whether the traced bit is set in the word of a header.
pub(crate) fn has_traced(header: u64) -> bool
    ensures { result ≡ layout.has_traced header }
{
    header == with_traced(header, true)
}
