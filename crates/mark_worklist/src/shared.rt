// What a list does with the shares that it has: the owner's while the others are out, and all of them once
// they were taken in.

ghost use Rattle.std.specs.Prelude.{◌≡◌, ◌≤◌, ◌<◌, ◌++◌, Some, [], length, min, slice_set};
ghost use Rattle.std.specs.Prelude.{IfErr, OnOk, MatchOption};
ghost use Rattle.mark_worklist.specs.Shares.{share_pushed, refused_once, last_count};
ghost use Rattle.mark_worklist.specs.Families.{at};
ghost use Rattle.mark_worklist.specs.Joining.{put_by, taken_by, refused_by, IsTakenOrLeft};
ghost use Rattle.mark_worklist.specs.Joining.{AreAllShares, EndsAreJoined, HaveSameItems};
ghost use Rattle.mark_worklist.specs.Lists.{IsOneMore};
ghost use Rattle.mark_worklist.specs.Left.{shares_in, IsLeftIn};

use crate::left::{Addresses, left_on, without};
use crate::lists::{SharedList, Tally};
use crate::share::{Refused, Share};
use ghost_values::GhostValue;

/// Puts an address on the owner's share, while others are out.
#[inline(never)]
pub(crate) fn push_out(shared: &mut Option<SharedList>, a: u32) -> Result<(), Refused>
    requires some { shared.old ≡ Some (shares_in shared.old) }
    ensures done { OnOk result (shared.new
        ≡ Some (slice_set (shares_in shared.old) 0
        (share_pushed (at (shares_in shared.old) 0) a))) }
    ensures refused { IfErr result (λ back. (back.0 ≡ a) × (shared.new
        ≡ Some (slice_set (shares_in shared.old) 0
        (refused_once (at (shares_in shared.old) 0))))) }
    ensures fits { (at (shares_in shared.old) 0).refused ≤ last_count }
    ensures own { 0 < length (shares_in shared.old) }
{
    match shared {
        Some(list) => list.push(a),
        None => unreachable!(),
    }
}

/// Takes an address that was left on lists that were taken in.
#[inline(never)]
pub(crate) fn pop_left(
    shared: &mut Option<SharedList>,
    left: &mut GhostValue<Addresses>,
) -> Option<u32>
    requires left { IsLeftIn shared.old left.old.value }
    ensures left { IsLeftIn shared.new left.new.value }
    ensures items { MatchOption result ((left.old.value ≡ []) × (left.new.value ≡ []))
        (λ a. IsOneMore left.new.value a left.old.value) }
    ensures as_many { length (shares_in shared.new) ≡ length (shares_in shared.old) }
{
    match shared {
        Some(list) => {
            let a = list.pop()?;
            *left = without(a, left);
            Some(a)
        }
        None => None,
    }
}

/// Takes all shares in. The lists tell how many pushes were refused.
pub(crate) fn take_in(
    shared: &mut Option<SharedList>,
    left: &mut GhostValue<Addresses>,
    shares: Vec<Share>,
) -> (Tally, u64)
    requires all { AreAllShares (shares_in shared.old) shares.items }
    ensures pushed { result.0.pushed ≡ length (put_by (shares_in shared.old ++ shares.items)) }
    ensures taken { result.0.taken ≡ length (taken_by (shares_in shared.old ++ shares.items)) }
    ensures count { result.0.left ≡ length left.new.value }
    ensures left { IsLeftIn shared.new left.new.value }
    ensures items { IsTakenOrLeft (shares_in shared.old ++ shares.items) left.new.value }
    ensures same { HaveSameItems (shares_in shared.old ++ shares.items) (shares_in shared.new)
        × EndsAreJoined (shares_in shared.new) }
    ensures refused { result.1
        ≡ min (refused_by (shares_in shared.old ++ shares.items)) last_count }
{
    match shared {
        Some(list) => {
            let tally = list.finish(shares);
            *left = left_on(list);
            (tally, list.refused())
        }
        None => unreachable!(),
    }
}
