// The owner's step of marking beside a running crew.

ghost use Rattle.std.specs.Prelude.{◌≡◌, ◌⊎◌, ◌+◌, ◌-◌, ◌^◌, ◌≤◌, true, false, None, length};
ghost use Rattle.mark_worklist.specs.Shares.{taken_by_share};
ghost use Rattle.marker_crew.specs.Stages.{drain_stage, MarkerWorks};
ghost use Rattle.marker_crew.specs.Drains.{nothing_yet, AreDealtWith, IsIdle};
ghost use Rattle.marker_crew.specs.Steps.{HasStepped};

use crate::draining::Drained;
use crate::gate::Manner;
use crate::items::deal_with;
use crate::taking::next_item;
use mark_worklist::Share;
use page_words::{MarkerSeat, MutatorSeat, Words};
use pair_notes::Pairs;
use thread_gate::FreeGate;
use type_table::TypeTable;

/// So many items one step takes at most.
const MOST_ITEMS: u32 = u32::MAX;

/// Traces so many objects at most, of the items that it takes or steals, beside the markers of a crew
/// or without any. It waits for no item, passes no gate and doesn't look at the stop word.
pub fn step_beside(
    words: &Words,
    types: &TypeTable,
    seat: &mut MutatorSeat,
    share: &mut Share,
    notes: &mut Pairs,
    most: u32,
) -> Drained
    requires heap { seat.old.heap ≡ words.now }
    requires types { types.now ≡ seat.old.types }
    requires on { seat.old.on ≡ true }
    ensures step { HasStepped seat.old share.old notes.old seat.new share.new notes.new result }
    ensures lent { seat.new.lent ≡ seat.old.lent }
    ensures most { result.traced ≤ most }
    ensures done { result.more ≡ false → IsIdle share.new }
    ensures more { result.more ≡ true → (result.traced ≡ most)
        ⊎ (length (taken_by_share share.new) ≡ length (taken_by_share share.old) + (2 ^ 32 - 1)) }
{
    let mut marker = words.split(seat);
    let drained = step(words, types, &mut marker, share, notes, most);
    words.join(seat, marker);
    drained
}

/// The same with a marker's seat.
fn step(
    words: &Words,
    types: &TypeTable,
    seat: &mut MarkerSeat,
    share: &mut Share,
    notes: &mut Pairs,
    most: u32,
) -> Drained
    requires heap { seat.old.heap ≡ words.now }
    requires types { types.now ≡ seat.old.types }
    requires hand { seat.old.hand ≡ None }
    ensures works { MarkerWorks (drain_stage seat.old share.old notes.old nothing_yet)
        (drain_stage seat.new share.new notes.new result) }
    ensures taken { AreDealtWith share.old (drain_stage seat.new share.new notes.new result) }
    ensures hand { seat.new.hand ≡ None }
    ensures most { result.traced ≤ most }
    ensures done { result.more ≡ false → IsIdle share.new }
    ensures more { result.more ≡ true → (result.traced ≡ most)
        ⊎ (length (taken_by_share share.new) ≡ length (taken_by_share share.old) + (2 ^ 32 - 1)) }
{
    let manner = Manner {
        gate: &FreeGate,
        worker: 0,
    };
    let mut drained = Drained {
        traced: 0,
        more: true,
        overflow: false,
    };
    for _item in 0..MOST_ITEMS {
        if drained.traced == most {
            drained.more = true;
            return drained;
        }
        let Some(place) = next_item(share) else {
            drained.more = false;
            return drained;
        };
        deal_with(
            words,
            types,
            seat,
            share,
            notes,
            &mut drained,
            &manner,
            place,
        );
    }
    drained.more = true;
    drained
}
