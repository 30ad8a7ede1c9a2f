// The next item, from the share's own list or from another's.

ghost use Rattle.std.specs.Prelude.{◌≡◌, MatchOption};
ghost use Rattle.mark_worklist.specs.Shares.{IsSameShare, put_of, taken_by_share};
ghost use Rattle.marker_crew.specs.Drains.{IsIdle, IsOneTaken};
ghost use Rattle.marker_crew.specs.Stages.{MarkerOnlyLooks};

use crossbeam_utils::Backoff;
use mark_worklist::Share;
use page_words::{MarkerSeat, Words};

/// So often a marker that finds nothing looks again at most, and waits longer each time: the others may still
/// put more. The backoff is completed before.
const LOOKS: u32 = 12;

/// The next item, once there is one. None where the share is idle, and stayed so for as long as a backoff
/// lasts, or the stop word says to stop.
pub(crate) fn await_item(words: &Words, seat: &mut MarkerSeat, share: &mut Share) -> Option<u32>
    requires heap { seat.old.heap ≡ words.now }
    ensures taken { MatchOption result
        ((taken_by_share share.new ≡ taken_by_share share.old) × IsIdle share.new)
        (λ a. IsOneTaken share.old a share.new) }
    ensures lists { IsSameShare share.old share.new }
    ensures same { (put_of share.new ≡ put_of share.old) × (share.new.refused ≡ share.old.refused) }
    ensures looks { MarkerOnlyLooks seat.old seat.new }
    ensures hand { seat.new.hand ≡ seat.old.hand }
{
    let backoff = Backoff::new();
    let mut found = next_item(share);
    for _look in 0..LOOKS {
        if found.is_some() || backoff.is_completed() {
            return found;
        }
        if words.stopped(seat) {
            return None;
        }
        backoff.snooze();
        found = next_item(share);
    }
    found
}

/// An item of the share's own list, or else one of another's. None where the share is idle then.
pub(crate) fn next_item(share: &mut Share) -> Option<u32>
    ensures taken { MatchOption result
        ((taken_by_share share.new ≡ taken_by_share share.old) × IsIdle share.new)
        (λ a. IsOneTaken share.old a share.new) }
    ensures lists { IsSameShare share.old share.new }
    ensures same { (put_of share.new ≡ put_of share.old) × (share.new.refused ≡ share.old.refused) }
{
    match share.pop() {
        Some(a) => Some(a),
        None => share.steal(),
    }
}
