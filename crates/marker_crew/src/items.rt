// An item of the lists is claimed and traced, or is traced already, or is noted.

ghost use Rattle.std.specs.Prelude.{◌≡◌, ◌⊎◌, ◌<◌, ◌≤◌, ◌+◌, ◌^◌, true, None, Contains};
ghost use Rattle.marker_core.specs.Bodies.{holds};
ghost use Rattle.mark_worklist.specs.Shares.{ShareState, taken_by_share};
ghost use Rattle.marker_crew.specs.Stages.{drain_stage, MarkerWorks, IsDealtWithIn};

use crate::draining::Drained;
use crate::gate::{AFTER_OBJECT, BEFORE_CLAIM, Manner};
use crate::objects::{has_traced, trace_object};
use crate::recording::note;
use mark_worklist::Share;
use object_headers::Header;
use page_words::{MarkerSeat, Words, has_mark};
use pair_notes::Pairs;
use thread_gate::Gate;
use type_table::TypeTable;

/// Claims and traces the object at a place that was taken from a list. Where none is found there, or
/// one with neither mark nor traced bit, or one that changes before it is claimed and isn't traced
/// then, the place is noted with word 0.
pub(crate) fn deal_with<G: Gate>(
    words: &Words,
    types: &TypeTable,
    seat: &mut MarkerSeat,
    share: &mut Share,
    notes: &mut Pairs,
    drained: &mut Drained,
    manner: &Manner<'_, G>,
    place: u32,
)
    requires heap { seat.old.heap ≡ words.now }
    requires types { types.now ≡ seat.old.types }
    requires hand { seat.old.hand ≡ None }
    requires few { drained.old.traced + 1 < 2 ^ 32 }
    requires item { Contains (taken_by_share share.old) place }
    ensures works { MarkerWorks (drain_stage seat.old share.old notes.old drained.old)
        (drain_stage seat.new share.new notes.new drained.new) }
    ensures dealt { IsDealtWithIn (drain_stage seat.new share.new notes.new drained.new) place }
    ensures taken { taken_by_share share.new ≡ taken_by_share share.old }
    ensures hand { seat.new.hand ≡ None }
    ensures most { drained.new.traced ≤ drained.old.traced + 1 }
{
    if place < words.count() && words.is_start(seat, place) {
        trace_known(words, types, seat, share, notes, drained, manner, place);
    } else {
        note(notes, drained, place, 0);
    }
}

/// The same of a place that the seat knows.
fn trace_known<G: Gate>(
    words: &Words,
    types: &TypeTable,
    seat: &mut MarkerSeat,
    share: &mut Share,
    notes: &mut Pairs,
    drained: &mut Drained,
    manner: &Manner<'_, G>,
    place: u32,
)
    requires heap { seat.old.heap ≡ words.now }
    requires types { types.now ≡ seat.old.types }
    requires hand { seat.old.hand ≡ None }
    requires known { holds seat.old.known place ≡ true }
    requires few { drained.old.traced + 1 < 2 ^ 32 }
    requires item { Contains (taken_by_share share.old) place }
    ensures works { MarkerWorks (drain_stage seat.old share.old notes.old drained.old)
        (drain_stage seat.new share.new notes.new drained.new) }
    ensures dealt { IsDealtWithIn (drain_stage seat.new share.new notes.new drained.new) place }
    ensures taken { taken_by_share share.new ≡ taken_by_share share.old }
    ensures hand { seat.new.hand ≡ None }
    ensures most { drained.new.traced ≤ drained.old.traced + 1 }
{
    let header = words.header(seat, place);
    if has_traced(header) {
        return;
    }
    if !has_mark(header) {
        note(notes, drained, place, 0);
        return;
    }
    manner.pass(BEFORE_CLAIM);
    if words.claim_as(seat, place, header) {
        drained.traced += 1;
        let ty = Header::type_in(header);
        trace_object(words, types, seat, share, notes, drained, place, ty);
        manner.pass(AFTER_OBJECT);
    } else {
        look_again(words, seat, notes, drained, place);
    }
}

/// Notes with word 0 the place of an object that could not be claimed, unless it is traced.
fn look_again(
    words: &Words,
    seat: &mut MarkerSeat,
    notes: &mut Pairs,
    drained: &mut Drained,
    place: u32,
)
    requires heap { seat.old.heap ≡ words.now }
    requires hand { seat.old.hand ≡ None }
    requires known { holds seat.old.known place ≡ true }
    requires failed { Contains seat.old.done place ⊎ Contains seat.old.missed place }
    ensures works { (h : ShareState) → Contains (taken_by_share h) place
        → MarkerWorks (drain_stage seat.old h notes.old drained.old)
        (drain_stage seat.new h notes.new drained.new) }
    ensures dealt { (h : ShareState)
        → IsDealtWithIn (drain_stage seat.new h notes.new drained.new) place }
    ensures hand { seat.new.hand ≡ None }
    ensures count { drained.new.traced ≡ drained.old.traced }
{
    if !has_traced(words.header(seat, place)) {
        note(notes, drained, place, 0);
    }
}
