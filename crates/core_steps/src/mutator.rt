// The steps of the mutator that read and write words.

ghost use Rattle.std.specs.Prelude.{◌≡◌, ◌+◌, ◌<◌, ◌≤◌, ◌^◌, ◌-◌, ◌==◌, ◌∷◌, slice_index, not, true, false, filter, Some, OnOk, IfOk, MatchOption, if◌then◌else◌};
ghost use Rattle.marker_core.specs.MutatorSteps.{can_load, core_loaded};
ghost use Rattle.marker_core.specs.Seats.{seat_of};
ghost use Rattle.marker_core.specs.SeatSteps.{seat_looked, may_after_read};
ghost use Rattle.marker_core.specs.MutatorSteps.{can_fill, core_filled, can_store, core_stored};
ghost use Rattle.std.specs.List.{list_any};
ghost use Rattle.marker_core.specs.SeatSteps.{key_fits, may_store, store_fits, keeps_in};
ghost use Rattle.marker_core.specs.Core.{IsCoreOk};

use crate::bodies::{
    has_field, holds, in_body, is_place, keeps, names_body, refers, role_in, word_in, write_field,
};
use crate::hands::{hand_looked, hand_read, wants_key, wants_word};
use crate::reaching::reach_over;
use crate::reading::{has_mark, is_traced, word_at};
use gc_graph::{Kind, NoMemory};
use marker_core::{Body, CoreState, List, Role, Why, every_step_keeps};
use object_headers::FIRST_FIELD;
use std::alloc::Global;

// ---- load

pub fn can_load(s: &CoreState, a: u32, why: Why) -> bool
    ensures { result ≡ can_load s.now a why }
{
    match why {
        Why::Read => a as usize <= s.count as usize + s.count as usize / 64,
        Why::Weak => is_place(s.mutator.bodies.as_slice(), u64::from(a)),
        Why::Trace => wants_load(s, a),
    }
}

fn wants_load(s: &CoreState, a: u32) -> bool
    ensures { result ≡ can_load s.now a Why.Trace }
{
    match s.mutator.hand {
        Some(h) => wants_word(h, a) || wants_key(h.part, a),
        None => false,
    }
}

/// A header that is loaded is looked at.
pub fn look_at(s: &mut CoreState, a: u32) -> Result<(), NoMemory>
    ensures { OnOk result (s.new ≡ record s.old {
      mutator = seat_looked (seat_of s.old) a (slice_index s.old.words a);
    }) }
{
    let place = is_place(s.mutator.bodies.as_slice(), u64::from(a));
    let done = s.mutator.on && place && is_traced(s.words.as_slice(), a);
    s.mutator.looked.push_if(place, a)?;
    s.mutator.done.push_if(done, a)?;
    Ok(())
}

/// The mutator's hand takes its turn by the word that it wanted.
#[tactic(auto, using(crate::proofs::Fitting::read_fits))]
fn trace(s: &mut CoreState, a: u32) -> Result<(), NoMemory>
    requires ok { IsCoreOk s.old }
    requires can { can_load s.old a Why.Trace ≡ true }
    ensures { OnOk result (s.new ≡ core_loaded s.old a Why.Trace) }
{
    every_step_keeps();
    let Some(h) = s.mutator.hand else {
        return Ok(());
    };
    let word = word_at(s.words.as_slice(), u64::from(a));
    let key = wants_key(h.part, a);
    let hand = if key {
        hand_looked(s.types.as_slice(), word, h)
    } else {
        hand_read(s.types.as_slice(), word, h)
    };
    look_at(s, a)?;
    let unmarked = key && !has_mark(word);
    s.mutator.noted.push_if(unmarked, (h.place, h.next))?;
    s.mutator.hand = hand;
    Ok(())
}

/// A weak read while marking goes on may keep what it gave, with all that it reaches.
fn read_weakly(alloc: Global, s: &mut CoreState, a: u32) -> Result<(), NoMemory>
    requires { IsCoreOk s.old }
    ensures { OnOk result (s.new ≡ core_loaded s.old a Why.Weak) }
{
    if s.mutator.on {
        s.mutator.may.push(a)?;
        let roots = s.mutator.may.as_slice();
        let types = s.types.as_slice();
        let bodies = s.mutator.bodies.as_slice();
        s.mutator.may = reach_over(alloc, s.count, types, bodies, roots)?;
    }
    look_at(s, a)
}

pub fn load(alloc: Global, s: &mut CoreState, a: u32, why: Why) -> Result<(), NoMemory>
    requires ok { IsCoreOk s.old }
    requires can { can_load s.old a why ≡ true }
    ensures { OnOk result (s.new ≡ core_loaded s.old a why) }
{
    match why {
        Why::Read => look_at(s, a),
        Why::Weak => read_weakly(alloc, s, a),
        Why::Trace => trace(s, a),
    }
}

// ---- fill

pub fn can_fill(s: &CoreState, a: u32) -> bool
    ensures { result ≡ can_fill s.now a }
{
    a < s.count && !in_body(s.mutator.bodies.as_slice(), u64::from(a))
}

pub fn fill(s: &mut CoreState, a: u32, w: u64) -> Result<(), NoMemory>
    ensures { OnOk result (s.new ≡ core_filled s.old a w) }
{
    s.words.set(a as usize, w);
    refill(&mut s.mutator.filled, a, w)
}

/// The word is the newest that was filled, in place of an older one at its address.
fn refill(filled: &mut List<(u32, u64)>, a: u32, w: u64) -> Result<(), NoMemory>
    ensures { OnOk result (filled.new ≡ (a, w) ∷ filter (λ f. not (f.0 == a)) filled.old) }
{
    filled.items.retain(|f| f.0 != a);
    filled.items.insert(0, (a, w))?;
    Ok(())
}

// ---- store

/// A null key stands over a null value, and another over one that is null or was seen marked.
fn key_fits(on: bool, seen: &[u32], role: Role, w: u64, value: u64) -> bool
    ensures { result ≡ key_fits on seen.now role w value }
{
    match role {
        Role::KeyWord if w == 0 => value == 0,
        Role::KeyWord => !on || value == 0 || holds(seen, value - 1),
        _ => true,
    }
}

fn may_store(on: bool, may: &[u32], holder: u32, role: Role, w: u64) -> bool
    ensures { result ≡ may_store on may.now holder role w }
{
    !on || (holds(may, u64::from(holder)) && (!refers(role) || w == 0 || holds(may, w - 1)))
}

fn store_fits(s: &CoreState, a: u32, w: u64, b: &Body) -> bool
    ensures { result ≡ store_fits (seat_of s.now) a w b.now }
{
    let m = &s.mutator;
    let i = u64::from(a).saturating_sub(u64::from(b.place) + u64::from(FIRST_FIELD));
    let role = role_in(s.types.as_slice(), b, i);
    has_field(u64::from(a), b)
        && (!refers(role) || names_body(m.bodies.as_slice(), w))
        && may_store(m.on, m.may.as_slice(), b.place, role, w)
        && key_fits(m.on, m.seen.as_slice(), role, w, word_in(b, i + 1))
}

pub fn can_store(s: &CoreState, a: u32, w: u64) -> bool
    ensures { result ≡ can_store s.now a w }
{
    s.mutator.pending.is_none() && s.mutator.hand.is_none() && some_body_fits(s, a, w)
}

fn some_body_fits(s: &CoreState, a: u32, w: u64) -> bool
    ensures { result ≡ list_any (store_fits (seat_of s.now) a w) s.now.mutator.bodies }
{
    let bodies = s.mutator.bodies.as_slice();
    bodies.iter().any(|b| store_fits(s, a, w, b))
}

fn keeps_in(types: &[List<Kind>], a: u32, b: &Body) -> bool
    ensures { result ≡ keeps_in types.now a b.now }
{
    let i = u64::from(a).saturating_sub(u64::from(b.place) + u64::from(FIRST_FIELD));
    has_field(u64::from(a), b) && keeps(role_in(types, b, i))
}

fn keeps_target(s: &CoreState, a: u32) -> bool
    ensures { result ≡ list_any (keeps_in s.now.types a) s.now.mutator.bodies }
{
    let types = s.types.as_slice();
    let bodies = s.mutator.bodies.as_slice();
    bodies.iter().any(|b| keeps_in(types, a, b))
}

/// The target waits for its mark, where it joins what waits.
fn pending_after(joins: bool, w: u64, pending: Option<u32>) -> Option<u32>
    requires { joins ≡ true → (0 < w) × (w ≤ 2 ^ 32) }
    ensures { result ≡ (if joins then Some (w - 1) else pending) }
{
    if joins { Some((w - 1) as u32) } else { pending }
}

#[tactic(auto, using(crate::proofs::Fitting::stored_fits))]
pub fn store(s: &mut CoreState, a: u32, w: u64)
    requires ok { IsCoreOk s.old }
    requires can { can_store s.old a w ≡ true }
    ensures { s.new ≡ core_stored s.old a w }
{
    every_step_keeps();
    let joins = s.mutator.on && w != 0 && keeps_target(s, a);
    s.mutator.pending = pending_after(joins, w, s.mutator.pending);
    s.words.set(a as usize, w);
    write_field(&mut s.mutator.bodies, a, w);
}
