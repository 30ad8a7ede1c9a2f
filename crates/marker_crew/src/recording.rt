// What a marker writes down: places on its share of the lists, and notes.

ghost use Rattle.std.specs.Prelude.{◌≤◌};
ghost use Rattle.mark_worklist.specs.Shares.{last_count};
ghost use Rattle.marker_crew.specs.Stages.{Lists, Notes};

use crate::draining::Drained;
use mark_worklist::Share;
use pair_notes::Pairs;

/// Puts a marked place on the share's list, or tells that memory was wanting.
pub(crate) fn list(share: &mut Share, drained: &mut Drained, place: u32)
    ensures listed { Lists share.old drained.old place share.new drained.new }
    ensures fits { share.old.refused ≤ last_count }
{
    if share.push(place).is_err() {
        drained.overflow = true;
    }
}

/// Notes a pair, or with word 0 an object, or tells that memory was wanting.
pub(crate) fn note(notes: &mut Pairs, drained: &mut Drained, holder: u32, word: u32)
    ensures noted { Notes notes.old drained.old holder word notes.new drained.new }
    ensures fits { notes.old.refused ≤ last_count }
{
    if !notes.note(holder, word) {
        drained.overflow = true;
    }
}
