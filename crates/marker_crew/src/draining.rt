// A marker takes items from the lists and deals with each.

ghost use Rattle.std.specs.Prelude.{◌≡◌, ◌⊎◌, ◌≤◌, ◌+◌, true, false, None, length};
ghost use Rattle.mark_worklist.specs.Shares.{taken_by_share};
ghost use Rattle.marker_crew.specs.Stages.{drain_stage, MarkerWorks};
ghost use Rattle.marker_crew.specs.Drains.{nothing_yet, AreDealtWith, IsIdle};

use crate::gate::Manner;
use crate::items::deal_with;
use crate::taking::await_item;
use mark_worklist::Share;
use page_words::{MarkerSeat, Words};
use pair_notes::Pairs;
use thread_gate::Gate;
use type_table::TypeTable;

/// What a drain tells: how many objects it claimed and traced, whether more may be left to do, and
/// whether a push or a note was refused.
#[derive(Clone, Copy, Debug, Drop, PartialEq)]
pub struct Drained {
    pub traced: u32,
    pub more: bool,
    pub overflow: bool,
}

/// Takes items from the lists and traces them, so many at most, until there are none or the stop word
/// says to stop. More may be left to do where all the items were taken that were asked for, or the
/// marker was told to stop; there is nothing more where the share is idle at the end. A marker's
/// thread calls it, with a seat, a share and notes of its own.
pub fn drain<G: Gate>(
    words: &Words,
    types: &TypeTable,
    seat: &mut MarkerSeat,
    share: &mut Share,
    notes: &mut Pairs,
    budget: u32,
    worker: u32,
    gate: &G,
) -> Drained
    requires heap { seat.old.heap ≡ words.now }
    requires types { types.now ≡ seat.old.types }
    requires hand { seat.old.hand ≡ None }
    ensures works { MarkerWorks (drain_stage seat.old share.old notes.old nothing_yet)
        (drain_stage seat.new share.new notes.new result) }
    ensures taken { AreDealtWith share.old (drain_stage seat.new share.new notes.new result) }
    ensures hand { seat.new.hand ≡ None }
    ensures most { result.traced ≤ budget }
    ensures done { result.more ≡ false → IsIdle share.new }
    ensures more { result.more ≡ true → (seat.new.halted ≡ true)
        ⊎ (length (taken_by_share share.new) ≡ length (taken_by_share share.old) + budget) }
{
    let manner = Manner { gate, worker };
    let mut drained = Drained {
        traced: 0,
        more: true,
        overflow: false,
    };
    for _item in 0..budget {
        if words.stopped(seat) {
            drained.more = true;
            return drained;
        }
        let Some(place) = await_item(words, seat, share) else {
            drained.more = false;
            return drained;
        };
        deal_with(
            words,
            types,
            seat,
            share,
            notes,
            &mut drained,
            &manner,
            place,
        );
    }
    drained.more = true;
    drained
}
