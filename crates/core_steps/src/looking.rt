// What a marker reads of a place: its start bit, and its header.

ghost use Rattle.std.specs.Prelude.{◌≡◌, ◌+◌, ◌++◌, ◌<◌, ◌&&◌, OnOk, if◌then◌else◌};
ghost use Rattle.marker_core.specs.MarkerSteps.{can_read_bit, bit_read, can_look, looked};
ghost use Rattle.marker_core.specs.Hands.{hand_looked, each_hand};
ghost use Rattle.marker_core.specs.Hands.{wants, wants_key, noted_pair};
ghost use Rattle.marker_core.specs.Bodies.{holds};
ghost use Rattle.std.specs.Option.{is_none};
ghost use Rattle.marker_core.specs.Matching.{AreTypes};

use crate::bodies::holds;
use crate::hands::{hand_looked, wants_key};
use crate::lending::take_view;
use crate::reading::{has_mark, has_traced, is_start, word_at};
use gc_graph::{Kind, NoMemory};
use marker_core::{CoreState, Hand, List};
use std::alloc::Global;

// ---- a start bit is read

pub fn can_read_bit(s: &CoreState, marker: u32, a: u32) -> bool
    ensures { result ≡ can_read_bit s.now marker a }
{
    match s.markers.as_slice().get(marker as usize) {
        Some(v) => !v.spent && a < s.count,
        None => false,
    }
}

#[tactic(auto, using(crate::proofs::ViewSets::view_sets))]
pub fn read_bit(alloc: Global, s: &mut CoreState, marker: u32, a: u32) -> Result<(), NoMemory>
    ensures { OnOk result (s.new ≡ bit_read s.old marker a) }
{
    let set = is_start(s.count, s.words.as_slice(), a);
    let mut v = take_view(alloc, &mut s.markers, marker);
    v.known.push_if(set, a)?;
    v.missed.push_if(!set, a)?;
    s.markers.set(marker as usize, v);
    Ok(())
}

// ---- a header is read

pub fn can_look(s: &CoreState, marker: u32, a: u32) -> bool
    ensures { result ≡ can_look s.now marker a }
{
    match s.markers.as_slice().get(marker as usize) {
        Some(v) => holds(v.known.as_slice(), u64::from(a)),
        None => false,
    }
}

fn looks_at_key(hand: Option<Hand>, a: u32) -> bool
    ensures { result ≡ wants (λ h. wants_key h.part a) hand }
{
    match hand {
        Some(h) => wants_key(h.part, a),
        None => false,
    }
}

fn hand_after_look(types: &[List<Kind>], key: bool, header: u64, hand: Option<Hand>) -> Option<Hand>
    requires { AreTypes types.now }
    ensures { result ≡ (if key then each_hand (hand_looked types.now header) hand else hand) }
{
    match hand {
        Some(h) if key => hand_looked(types, header, h),
        other => other,
    }
}

#[tactic(auto, using(crate::proofs::ViewSets::view_sets))]
fn note(
    noted: &mut List<(u32, u32)>,
    key: bool,
    header: u64,
    hand: Option<Hand>,
) -> Result<(), NoMemory>
    ensures { OnOk result (noted.new
        ≡ (if key then noted.old ++ noted_pair header hand else noted.old)) }
{
    if let Some(h) = hand {
        let joins = key && !has_mark(header);
        noted.push_if(joins, (h.place, h.next))?;
    }
    Ok(())
}

#[tactic(auto, using(crate::proofs::ViewSets::view_sets))]
pub fn look(alloc: Global, s: &mut CoreState, marker: u32, a: u32) -> Result<(), NoMemory>
    requires { AreTypes s.old.types }
    ensures { OnOk result (s.new ≡ looked s.old marker a) }
{
    let header = word_at(s.words.as_slice(), u64::from(a));
    let mut v = take_view(alloc, &mut s.markers, marker);
    let key = looks_at_key(v.hand, a);
    let traced = has_traced(header);
    let lost = v.hand.is_none() && !has_mark(header) && !traced;
    note(&mut v.noted, key, header, v.hand)?;
    v.hand = hand_after_look(s.types.as_slice(), key, header, v.hand);
    v.done.push_if(traced, a)?;
    v.missed.push_if(lost, a)?;
    v.last = Some((a, header));
    s.markers.set(marker as usize, v);
    Ok(())
}
