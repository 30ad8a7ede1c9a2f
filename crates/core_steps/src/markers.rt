// The steps of the markers that trace: a claim, a field, a mark, and a look at the stop word.

ghost use Rattle.std.specs.Prelude.{◌≡◌, ◌+◌, ◌++◌, ◌≤◌, ◌<◌, ◌^◌, ◌&&◌, true, OnOk};
ghost use Rattle.marker_core.specs.MarkerSteps.{is_last, can_claim_as, core_claimed_as, known_by};
ghost use Rattle.marker_core.specs.MarkerSteps.{can_read_field, core_field_read, can_mark_as, core_marked_as};
ghost use Rattle.marker_core.specs.MarkerSteps.{can_poll, polled};
ghost use Rattle.marker_core.specs.Hands.{hand_read, hand_moved, each_hand};
ghost use Rattle.marker_core.specs.Hands.{wants, wants_word, wants_mark};
ghost use Rattle.marker_core.specs.Bodies.{holds};
ghost use Rattle.marker_core.specs.SeatSteps.{is_grey};
ghost use Rattle.std.specs.Option.{is_none};
ghost use Rattle.marker_core.specs.Matching.{AreTypes};
ghost use Rattle.marker_core.specs.Core.{IsCoreOk};

use crate::bodies::holds;
use crate::hands::{hand_claimed, hand_moved, hand_read, wants_mark, wants_word};
use crate::lending::take_view;
use crate::marking::is_grey;
use crate::reading::{has_mark, has_traced, word_at};
use gc_graph::{Kind, NoMemory};
use marker_core::{CoreState, Hand, List, MarkerView, every_step_keeps};
use object_headers::{with_mark, with_traced};
use std::alloc::Global;

// ---- an object is claimed by the header that was read last

fn is_last(last: Option<(u32, u64)>, a: u32, header: u64) -> bool
    ensures { result ≡ is_last last a header }
{
    match last {
        Some((at, word)) => at == a && word == header,
        None => false,
    }
}

pub fn can_claim_as(s: &CoreState, marker: u32, a: u32, header: u64) -> bool
    ensures { result ≡ can_claim_as s.now marker a header }
{
    match s.markers.as_slice().get(marker as usize) {
        Some(v) => may_claim(v, a, header),
        None => false,
    }
}

fn may_claim(v: &MarkerView, a: u32, header: u64) -> bool
    ensures { result ≡ (holds v.now.known a && is_none v.now.hand && is_last v.now.last a header
        && is_grey header) }
{
    holds(v.known.as_slice(), u64::from(a))
        && v.hand.is_none()
        && is_last(v.last, a, header)
        && is_grey(header)
}

#[tactic(auto, using(crate::proofs::ViewSets::view_sets))]
pub fn claim_as(
    alloc: Global,
    s: &mut CoreState,
    marker: u32,
    a: u32,
    header: u64,
) -> Result<(), NoMemory>
    requires { AreTypes s.old.types }
    ensures { OnOk result (s.new ≡ core_claimed_as s.old marker a header) }
{
    let found = word_at(s.words.as_slice(), u64::from(a));
    let hand = hand_claimed(s.types.as_slice(), a, found);
    let mut v = take_view(alloc, &mut s.markers, marker);
    if found == header {
        v.traced.push(a)?;
        v.hand = hand;
        s.words.set(a as usize, with_traced(found, true));
    } else {
        v.done.push_if(has_traced(found), a)?;
        v.missed.push_if(!has_traced(found), a)?;
    }
    s.markers.set(marker as usize, v);
    Ok(())
}

// ---- a field word of the object in hand is read

fn reads(hand: Option<Hand>, a: u32) -> bool
    ensures { result ≡ wants (λ h. wants_word h h.part a) hand }
{
    match hand {
        Some(h) => wants_word(h, a),
        None => false,
    }
}

pub fn can_read_field(s: &CoreState, marker: u32, a: u32) -> bool
    ensures { result ≡ can_read_field s.now marker a }
{
    match s.markers.as_slice().get(marker as usize) {
        Some(v) => reads(v.hand, a),
        None => false,
    }
}

fn hand_after_read(types: &[List<Kind>], w: u64, hand: Option<Hand>) -> Option<Hand>
    requires types { AreTypes types.now }
    requires fits { w ≤ 2 ^ 32 }
    ensures { result ≡ each_hand (hand_read types.now w) hand }
{
    match hand {
        Some(h) => hand_read(types, w, h),
        None => None,
    }
}

/// What was read is the place of an object.
#[tactic(auto, using(crate::proofs::ViewSets::view_sets))]
fn know(known: &mut List<u32>, w: u64) -> Result<(), NoMemory>
    requires { w ≤ 2 ^ 32 }
    ensures { OnOk result (known.new ≡ known.old ++ known_by w) }
{
    if w != 0 {
        known.push((w - 1) as u32)?;
    }
    Ok(())
}

#[tactic(auto, using(crate::proofs::ViewSets::view_sets, crate::proofs::Fitting::field_fits))]
pub fn read_field(alloc: Global, s: &mut CoreState, marker: u32, a: u32) -> Result<(), NoMemory>
    requires ok { IsCoreOk s.old }
    requires can { can_read_field s.old marker a ≡ true }
    ensures { OnOk result (s.new ≡ core_field_read s.old marker a) }
{
    every_step_keeps();
    let w = word_at(s.words.as_slice(), u64::from(a));
    let mut v = take_view(alloc, &mut s.markers, marker);
    v.hand = hand_after_read(s.types.as_slice(), w, v.hand);
    know(&mut v.known, w)?;
    s.markers.set(marker as usize, v);
    Ok(())
}

// ---- the target in hand is marked

fn marks(hand: Option<Hand>, a: u32) -> bool
    ensures { result ≡ wants (λ h. wants_mark h.part a) hand }
{
    match hand {
        Some(h) => wants_mark(h.part, a),
        None => false,
    }
}

pub fn can_mark_as(s: &CoreState, marker: u32, a: u32) -> bool
    ensures { result ≡ can_mark_as s.now marker a }
{
    match s.markers.as_slice().get(marker as usize) {
        Some(v) => marks(v.hand, a),
        None => false,
    }
}

fn hand_moves(types: &[List<Kind>], hand: Option<Hand>) -> Option<Hand>
    requires { AreTypes types.now }
    ensures { result ≡ each_hand (hand_moved types.now) hand }
{
    match hand {
        Some(h) => hand_moved(types, h),
        None => None,
    }
}

#[tactic(auto, using(crate::proofs::ViewSets::view_sets))]
pub fn mark_as(alloc: Global, s: &mut CoreState, marker: u32, a: u32) -> Result<(), NoMemory>
    requires { AreTypes s.old.types }
    ensures { OnOk result (s.new ≡ core_marked_as s.old marker a) }
{
    let header = word_at(s.words.as_slice(), u64::from(a));
    let mut v = take_view(alloc, &mut s.markers, marker);
    v.marked.push_if(!has_mark(header), a)?;
    v.hand = hand_moves(s.types.as_slice(), v.hand);
    s.words.set(a as usize, with_mark(header, true));
    s.markers.set(marker as usize, v);
    Ok(())
}

// ---- the stop word is read

pub fn can_poll(s: &CoreState, marker: u32) -> bool
    ensures { result ≡ can_poll s.now marker }
{
    match s.markers.as_slice().get(marker as usize) {
        Some(v) => !v.spent,
        None => false,
    }
}

#[tactic(auto, using(crate::proofs::ViewSets::view_sets))]
pub fn poll(alloc: Global, s: &mut CoreState, marker: u32)
    ensures { s.new ≡ polled s.old marker }
{
    let stop = word_at(
        s.words.as_slice(),
        u64::from(s.count) + u64::from(s.count / 64),
    );
    let mut v = take_view(alloc, &mut s.markers, marker);
    v.halted = v.halted || stop == 1;
    s.markers.set(marker as usize, v);
}
