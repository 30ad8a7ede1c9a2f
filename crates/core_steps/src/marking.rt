// The steps of the mutator that mark, claim and unmark.

ghost use Rattle.std.specs.Prelude.{◌≡◌, ◌++◌, [], ◌∷◌, OnOk, if◌then◌else◌, slice_set};
ghost use Rattle.marker_core.specs.MutatorSteps.{can_mark, marked, can_claim};
ghost use Rattle.marker_core.specs.SeatSteps.{settled, is_grey};
ghost use Rattle.marker_core.specs.MutatorSteps.{claimed, can_unmark, unmarked};
ghost use Rattle.marker_core.specs.Hands.{hand_after_mark, each_hand};
ghost use Rattle.marker_core.specs.Matching.{AreTypes};

use crate::bodies::{holds, is_place, remove};
use crate::hands::{hand_after_mark, hand_claimed};
use crate::reading::{has_mark, has_traced, word_at};
use gc_graph::{Kind, NoMemory};
use marker_core::{CoreState, Hand, List};
use object_headers::{with_mark, with_traced};

pub fn can_mark(s: &CoreState, a: u32) -> bool
    ensures { result ≡ can_mark s.now a }
{
    s.mutator.on
        && is_place(s.mutator.bodies.as_slice(), u64::from(a))
        && holds(s.mutator.may.as_slice(), u64::from(a))
}

fn settled(pending: Option<u32>, a: u32) -> Option<u32>
    ensures { result ≡ settled pending a }
{
    match pending {
        Some(t) if t == a => None,
        other => other,
    }
}

fn hand_marked(types: &[List<Kind>], a: u32, hand: Option<Hand>) -> Option<Hand>
    requires { AreTypes types.now }
    ensures { result ≡ each_hand (hand_after_mark types.now a) hand }
{
    match hand {
        Some(h) => hand_after_mark(types, a, h),
        None => None,
    }
}

pub fn mark(s: &mut CoreState, a: u32) -> Result<(), NoMemory>
    requires { AreTypes s.old.types }
    ensures { OnOk result (s.new ≡ marked s.old a) }
{
    let header = word_at(s.words.as_slice(), u64::from(a));
    let fresh = !has_mark(header);
    s.words.set(a as usize, with_mark(header, true));
    s.mutator.marked.push_if(fresh, a)?;
    s.mutator.seen.push(a)?;
    s.mutator.pending = settled(s.mutator.pending, a);
    s.mutator.hand = hand_marked(s.types.as_slice(), a, s.mutator.hand);
    Ok(())
}

pub fn can_claim(s: &CoreState, a: u32) -> bool
    ensures { result ≡ can_claim s.now a }
{
    s.mutator.on && s.mutator.hand.is_none() && is_place(s.mutator.bodies.as_slice(), u64::from(a))
}

/// The header is marked and not yet traced.
pub fn is_grey(header: u64) -> bool
    ensures { result ≡ is_grey header }
{
    has_mark(header) && !has_traced(header)
}

fn write_if(words: &mut List<u64>, writes: bool, a: u32, w: u64)
    ensures { words.new ≡ (if writes then slice_set words.old a w else words.old) }
{
    if writes {
        words.set(a as usize, w);
    }
}

fn hand_if(claims: bool, claimed: Option<Hand>, hand: Option<Hand>) -> Option<Hand>
    ensures { result ≡ (if claims then claimed else hand) }
{
    if claims { claimed } else { hand }
}

pub fn claim(s: &mut CoreState, a: u32) -> Result<(), NoMemory>
    requires { AreTypes s.old.types }
    ensures { OnOk result (s.new ≡ claimed s.old a) }
{
    let header = word_at(s.words.as_slice(), u64::from(a));
    let grey = is_grey(header);
    let hand = hand_claimed(s.types.as_slice(), a, header);
    write_if(&mut s.words, grey, a, with_traced(header, true));
    s.mutator.looked.push(a)?;
    s.mutator.traced.push_if(grey, a)?;
    s.mutator.hand = hand_if(grey, hand, s.mutator.hand);
    s.mutator.done.push_if(has_traced(header), a)?;
    s.mutator.missed.push_if(!has_mark(header), a)?;
    Ok(())
}

pub fn can_unmark(s: &CoreState, a: u32) -> bool
    ensures { result ≡ can_unmark s.now a }
{
    !s.mutator.on && is_place(s.mutator.bodies.as_slice(), u64::from(a))
}

pub fn unmark(s: &mut CoreState, a: u32)
    ensures { s.new ≡ unmarked s.old a }
{
    let header = word_at(s.words.as_slice(), u64::from(a));
    s.words
        .set(a as usize, with_traced(with_mark(header, false), false));
    remove(&mut s.mutator.marked, a);
    remove(&mut s.mutator.traced, a);
}
