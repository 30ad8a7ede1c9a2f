// What the shares of a family have together.

ghost use Rattle.std.specs.Prelude.{◌≡◌, ◌≤◌, ℕ, List, length, min};
ghost use Rattle.std.specs.Prelude.{vec_len, vec_capacity};
ghost use Rattle.mark_worklist.specs.Hands.{all_parts};
ghost use Rattle.mark_worklist.specs.Shares.{last_count};
ghost use Rattle.mark_worklist.specs.Joining.{put_by, refused_by, EndsAreJoined, IsAllCounted};
ghost use Rattle.mark_worklist.specs.Joining.{AreEven, KnowLeft};

use crate::share::Share;

/// How many items are left on all lists.
pub(crate) fn count_left(family: &mut Vec<Share>) -> u64
    requires joined { EndsAreJoined family.old.items }
    requires even { AreEven family.old.items }
    requires few { vec_len family.old ≤ all_parts }
    ensures same { family.new.items ≡ family.old.items }
    ensures room { vec_capacity family.new ≡ vec_capacity family.old }
    ensures left { (items : List ℕ) × (length items ≡ result)
        × IsAllCounted family.old.items items }
    ensures each { KnowLeft family.old.items }
{
    let mut left = 0;
    for i in 0..family.len() {
        left += family[i].count_left();
    }
    left
}

/// How many items were put on all lists.
pub(crate) fn count_pushed(family: &Vec<Share>) -> u64
    requires few { vec_len family.now ≤ all_parts }
    ensures { result ≡ length (put_by family.now.items) }
{
    let mut pushed = 0;
    for i in 0..family.len() {
        pushed += family[i].pushed();
    }
    pushed
}

/// How many pushes were refused in all, or the last value of such a count.
pub(crate) fn count_refused(family: &Vec<Share>) -> u64
    ensures { result ≡ min (refused_by family.now.items) last_count }
{
    let mut refused: u64 = 0;
    for i in 0..family.len() {
        refused = refused.saturating_add(family[i].refused());
    }
    refused
}
