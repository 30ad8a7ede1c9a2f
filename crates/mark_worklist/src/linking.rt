// How shares are made, and come to have an end of each other's list.

ghost use Rattle.std.specs.Prelude.{◌≡◌, ◌<◌, ◌≤◌, ◌≢◌, ◌+◌, ℕ, length, map, IfOk, OnOk};
ghost use Rattle.std.specs.Prelude.{vec_len};
ghost use Rattle.mark_worklist.specs.Hands.{all_parts};
ghost use Rattle.mark_worklist.specs.Families.{alone, at, names_of, GaveEnd, IsFresh, IsShareOf};
ghost use Rattle.mark_worklist.specs.Linking.{lists_of, IsLinked};

use crate::share::Share;
use gc_graph::NoMemory;
use std::alloc::Global;

/// So many shares, each with an end of each other one's list.
pub(crate) fn linked(alloc: Global, count: u32) -> Result<Vec<Share>, NoMemory>
    requires first { 0 < count }
    requires few { count ≤ all_parts }
    ensures made { IfOk result (λ shares. (length shares.items ≡ count)
        × ((k : ℕ) → k < count → (((at shares.items k).number ≡ k)
        × IsShareOf (names_of (at shares.items 0)) (at shares.items k)
        × IsFresh (at shares.items k)))) }
    ensures ends { IfOk result (λ shares. length (at shares.items 0).others + 1 ≡ count) }
{
    let mut shares = unlinked(alloc, count)?;
    for giver in 0..count as usize {
        link_list(&mut shares, giver)?;
    }
    Ok(shares)
}

/// So many shares that know no other.
fn unlinked(alloc: Global, count: u32) -> Result<Vec<Share>, NoMemory>
    ensures { IfOk result (λ shares. (length shares.items ≡ count)
        × ((k : ℕ) → k < count
        → at shares.items k ≡ alone k (at shares.items k).own.list)) }
{
    let mut shares = Vec::with_capacity(alloc, count as usize)?;
    for number in 0..count {
        shares.push_reserved(Share::alone(alloc, number)?);
    }
    Ok(shares)
}

/// Each other share gets an end of this one's list.
fn link_list(shares: &mut Vec<Share>, giver: usize) -> Result<(), NoMemory>
    requires within { giver < vec_len shares.old }
    requires few { vec_len shares.old ≤ all_parts }
    requires before { IsLinked (lists_of shares.old.items) giver 0 shares.old.items }
    ensures after { OnOk result (IsLinked (lists_of shares.new.items)
        (giver + 1) 0 shares.new.items) }
    ensures same { OnOk result (lists_of shares.new.items ≡ lists_of shares.old.items) }
    ensures as_many { OnOk result (vec_len shares.new ≡ vec_len shares.old) }
{
    for taker in 0..shares.len() {
        if taker != giver {
            give_end(shares, giver, taker)?;
        }
    }
    Ok(())
}

/// One share gets an end of another's list.
fn give_end(shares: &mut Vec<Share>, giver: usize, taker: usize) -> Result<(), NoMemory>
    requires giver { giver < vec_len shares.old }
    requires taker { taker < vec_len shares.old }
    requires apart { taker ≢ giver }
    requires parts { 1 < (at shares.old.items giver).own.hand.parts }
    ensures as_many { OnOk result (vec_len shares.new ≡ vec_len shares.old) }
    ensures gave { OnOk result (GaveEnd shares.old.items giver taker shares.new.items) }
{
    let end = shares[giver].other_end()?;
    shares[taker].add_end(end)?;
    Ok(())
}
