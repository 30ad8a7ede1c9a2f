// How the shares of a family are joined.

ghost use Rattle.std.specs.Prelude.{◌≡◌, ◌<◌, ◌≤◌, ◌≢◌, ◌+◌, ℕ, List, [], ◌∷◌, ◌++◌, length, Contains};
ghost use Rattle.std.specs.Prelude.{vec_len, vec_capacity};
ghost use Rattle.std.specs.Prelude.{IsPermutation};
ghost use Rattle.std.specs.List.{remove};
ghost use Rattle.mark_worklist.specs.Hands.{all_parts};
ghost use Rattle.mark_worklist.specs.Ends.{ListName, OtherState};
ghost use Rattle.mark_worklist.specs.Shares.{ShareState};
ghost use Rattle.mark_worklist.specs.Families.{at, names_of, GaveBack};
ghost use Rattle.mark_worklist.specs.Joining.{AreAllShares, EndsAreJoined, AreOpen, ArePartJoined};
ghost use Rattle.mark_worklist.specs.Joining.{AreEven, LoseNothing};

use crate::share::Share;

/// Takes in all other shares of the first one's family, and joins all ends of their lists.
pub(crate) fn join_all(family: &mut Vec<Share>, shares: Vec<Share>)
    requires all { AreAllShares family.old.items shares.items }
    requires room { length shares.items < vec_capacity family.old }
    ensures joined { EndsAreJoined family.new.items }
    ensures same { LoseNothing (family.old.items ++ shares.items) family.new.items }
    ensures even { AreEven family.new.items }
    ensures some { 0 < vec_len family.new }
    ensures few { vec_len family.new ≤ all_parts }
    ensures room { vec_capacity family.new ≡ vec_capacity family.old }
{
    take_in(family, shares);
    join_lists(family);
}

/// Takes in all other shares of the first one's family, in the order of their numbers.
fn take_in(family: &mut Vec<Share>, mut shares: Vec<Share>)
    requires all { AreAllShares family.old.items shares.items }
    requires room { length shares.items < vec_capacity family.old }
    ensures same { IsPermutation (family.old.items ++ shares.items) family.new.items }
    ensures as_many { vec_len family.new ≡ length shares.items + 1 }
    ensures room { vec_capacity family.new ≡ vec_capacity family.old }
    ensures numbered { (k : ℕ) → k < vec_len family.new → (at family.new.items k).number ≡ k }
{
    let count = shares.len();
    for number in 0..count {
        let share = take_numbered(&mut shares, number as u32 + 1);
        family.push_reserved(share);
    }
}

/// Takes the share with this number out.
fn take_numbered(shares: &mut Vec<Share>, number: u32) -> Share
    requires { (s : ShareState) × Contains shares.old.items s × (s.number ≡ number) }
    ensures number { result.number ≡ number }
    ensures place { (i : ℕ) × (i < vec_len shares.old) × (result ≡ at shares.old.items i)
        × (shares.new.items ≡ remove shares.old.items i) }
    ensures fewer { vec_len shares.new + 1 ≡ vec_len shares.old }
{
    let i = position_of(shares, number);
    shares.remove(i)
}

/// Where the share with this number is.
fn position_of(shares: &Vec<Share>, number: u32) -> usize
    requires { (s : ShareState) × Contains shares.now.items s × (s.number ≡ number) }
    ensures within { result < vec_len shares.now }
    ensures number { (at shares.now.items result).number ≡ number }
{
    for i in 0..shares.len() {
        if shares[i].number() == number {
            return i;
        }
    }
    unreachable!()
}

/// All ends that the shares have of each other's lists go back to the owners of the lists.
fn join_lists(family: &mut Vec<Share>)
    requires some { 0 < vec_len family.old }
    requires before { (names : List ListName) × (length names ≤ all_parts)
        × AreOpen names (length names) family.old.items }
    ensures joined { EndsAreJoined family.new.items }
    ensures same { LoseNothing family.old.items family.new.items }
    ensures as_many { vec_len family.new ≡ vec_len family.old }
    ensures room { vec_capacity family.new ≡ vec_capacity family.old }
{
    let count = family.len();
    for past in 0..count {
        join_list(family, count - 1 - past);
    }
}

/// The ends of one list go back to its owner.
fn join_list(family: &mut Vec<Share>, owner: usize)
    requires within { owner < vec_len family.old }
    requires before { (names : List ListName) × (length names ≤ all_parts)
        × AreOpen names (owner + 1) family.old.items }
    ensures after { (names : List ListName) × (length names ≤ all_parts)
        × AreOpen names owner family.new.items }
    ensures same { LoseNothing family.old.items family.new.items }
    ensures as_many { vec_len family.new ≡ vec_len family.old }
    ensures room { vec_capacity family.new ≡ vec_capacity family.old }
{
    for giver in 0..family.len() {
        if giver != owner {
            give_back(family, giver, owner);
        }
    }
}

/// The last end that a share has goes back to the owner of its list.
fn give_back(family: &mut Vec<Share>, giver: usize, owner: usize)
    requires giver { giver < vec_len family.old }
    requires owner { owner < vec_len family.old }
    requires apart { giver ≢ owner }
    requires some { 0 < length (at family.old.items giver).others }
    requires list { (rest : List OtherState) (end : OtherState)
        → (at family.old.items giver).others ≡ rest ++ end ∷ []
        → end.list ≡ (at family.old.items owner).own.list }
    ensures gave { GaveBack family.old.items giver owner family.new.items }
    ensures as_many { vec_len family.new ≡ vec_len family.old }
    ensures room { vec_capacity family.new ≡ vec_capacity family.old }
{
    let end = family[giver].pop_end();
    family[owner].join_end(end);
}
