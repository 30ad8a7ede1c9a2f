// Objects that are published and retracted.

ghost use Rattle.std.specs.Prelude.{◌≡◌, ◌+◌, ◌<◌, ◌^◌, ◌==◌, ◌&&◌, ◌||◌, ◌++◌, [], ◌∷◌, length};
ghost use Rattle.std.specs.Prelude.{not, true, false, filter, IfOk, OnOk, MatchOption, slice_index};
ghost use Rattle.std.specs.List.{list_any, list_all, range_with_len};
ghost use Rattle.marker_core.specs.Bodies.{field_word_count, role_in, refers, word_in, body_has_word, holds};
ghost use Rattle.marker_core.specs.Bodies.{refers_to};
ghost use Rattle.marker_core.specs.MutatorSteps.{body_at};
ghost use Rattle.marker_core.specs.SeatSteps.{overlaps, is_whole_object};
ghost use Rattle.marker_core.specs.MutatorSteps.{is_in_free_words, can_publish};
ghost use Rattle.marker_core.specs.SeatSteps.{is_new_serial};
ghost use Rattle.marker_core.specs.MutatorSteps.{core_published, can_retract, core_retracted};
ghost use Rattle.marker_core.specs.Matching.{AreTypes};
ghost use Rattle.marker_core.specs.Core.{IsCoreOk};

use crate::bodies::{
    has_word, holds, kinds_of, refers, refers_to, remove, remove_body, role_in, word_in, words_of,
};
use crate::reading::{clear_start, set_start, word_at};
use gc_graph::{Kind, NoMemory};
use marker_core::{Body, CoreState, List};
use object_headers::{FIRST_FIELD, Header, SERIAL};
use std::alloc::Global;

// ---- publish

/// How many words the fields of a type take.
fn word_count(kinds: &[Kind]) -> u64
    ensures { result ≡ field_word_count kinds.now }
{
    let mut total: u64 = 0;
    for kind in kinds {
        total += words_of(*kind);
    }
    total
}

fn is_null_reference(types: &[List<Kind>], b: &Body, i: u64) -> bool
    ensures { result ≡ (not (refers (role_in types.now b.now i)) || (word_in b.now i == 0)) }
{
    !refers(role_in(types, b, i)) || word_in(b, i) == 0
}

fn has_null_references(types: &[List<Kind>], b: &Body) -> bool
    ensures { result ≡ list_all (λ i. not (refers (role_in types.now b.now i))
        || (word_in b.now i == 0)) (range_with_len 0 (length b.now.fields)) }
{
    let len = b.fields.as_slice().len();
    (0..len).all(|i| is_null_reference(types, b, i as u64))
}

fn is_whole_object(types: &[List<Kind>], header: u64, b: &Body) -> bool
    requires ty { b.now.ty < 16384 }
    requires size { b.now.size < 2 ^ 26 }
    ensures { result ≡ is_whole_object types.now header b.now }
{
    header == Header::pack(true, false, false, b.ty, b.size)
        && (b.ty as usize) < types.len()
        && 2 + u128::from(word_count(kinds_of(types, b.ty))) <= u128::from(b.size)
        && b.size < 1 << 26
        && has_null_references(types, b)
}

fn overlaps(b: &Body, c: &Body) -> bool
    ensures { result ≡ overlaps b.now c.now }
{
    u64::from(b.place) < u64::from(c.place) + u64::from(c.size)
        && u64::from(c.place) < u64::from(b.place) + u64::from(b.size)
}

fn overlaps_some(bodies: &[Body], b: &Body) -> bool
    ensures { result ≡ list_any (overlaps b.now) bodies.now }
{
    bodies.iter().any(|c| overlaps(b, c))
}

fn is_filled(filled: &[(u32, u64)], a: u64, w: u64) -> bool
    ensures { result ≡ list_any (λ f. (f.0 == a) && (f.1 == w)) filled.now }
{
    filled.iter().any(|f| u64::from(f.0) == a && f.1 == w)
}

fn word_is_filled(s: &CoreState, b: &Body, i: u32) -> bool
    ensures { result ≡ list_any (λ f. (f.0 == b.now.place + i)
        && (f.1 == slice_index s.now.words (b.now.place + i))) s.now.mutator.filled }
{
    let a = u64::from(b.place) + u64::from(i);
    is_filled(
        s.mutator.filled.as_slice(),
        a,
        word_at(s.words.as_slice(), a),
    )
}

fn are_filled(s: &CoreState, b: &Body) -> bool
    ensures { result ≡ list_all (λ i. list_any (λ f. (f.0 == b.now.place + i)
        && (f.1 == slice_index s.now.words (b.now.place + i))) s.now.mutator.filled)
        (range_with_len 0 b.now.size) }
{
    (0..b.size).all(|i| word_is_filled(s, b, i))
}

fn is_in_free_words(s: &CoreState, b: &Body) -> bool
    ensures { result ≡ is_in_free_words s.now b.now }
{
    u64::from(b.place) + u64::from(b.size) <= u64::from(s.count)
        && !overlaps_some(s.mutator.bodies.as_slice(), b)
        && are_filled(s, b)
}

fn has_serial(bodies: &[Body], serial: u32) -> bool
    ensures { result ≡ list_any (λ b. b.serial == serial) bodies.now }
{
    bodies.iter().any(|b| b.serial == serial)
}

/// The object that the words from an address on tell of, where it lies in the heap and its numbers
/// are in range.
#[tactic(auto, using(crate::proofs::Readable::readable))]
fn read_object(alloc: Global, s: &CoreState, a: u32) -> Result<Option<Body>, NoMemory>
    requires { IsCoreOk s.now }
    ensures { IfOk result (λ o. MatchOption o (can_publish s.now a ≡ false)
        (λ b. (b ≡ body_at s.now.words a) × (b.ty < 16384) × (b.size < 2 ^ 26))) }
{
    let words = s.words.as_slice();
    let header = word_at(words, u64::from(a));
    let serial = word_at(words, u64::from(a) + u64::from(SERIAL));
    let size = header / 131072;
    if size < u64::from(FIRST_FIELD)
        || size >= 1 << 26
        || serial >= 1 << 32
        || u64::from(a) + size > u64::from(s.count)
    {
        return Ok(None);
    }
    let from = a as usize + FIRST_FIELD as usize;
    let to = a as usize + size as usize;
    let fields = Vec::from_slice(alloc, &words[from..to])?;
    Ok(Some(Body {
        place: a,
        ty: (header / 8 % 16384) as u32,
        size: size as u32,
        serial: serial as u32,
        fields: List::from(fields),
    }))
}

fn fits(s: &CoreState, a: u32, b: &Body) -> bool
    requires ty { b.now.ty < 16384 }
    requires size { b.now.size < 2 ^ 26 }
    ensures { result ≡ (is_whole_object s.now.types (slice_index s.now.words a) b.now
        && is_in_free_words s.now b.now) }
{
    let header = word_at(s.words.as_slice(), u64::from(a));
    is_whole_object(s.types.as_slice(), header, b) && is_in_free_words(s, b)
}

/// The object that can be published at an address.
#[tactic(auto, using(crate::proofs::Readable::publishable))]
pub fn object_at(alloc: Global, s: &CoreState, a: u32) -> Result<Option<Body>, NoMemory>
    requires { IsCoreOk s.now }
    ensures { IfOk result (λ o. MatchOption o (can_publish s.now a ≡ false)
        (λ b. (can_publish s.now a ≡ true) × (b ≡ body_at s.now.words a))) }
{
    let Some(b) = read_object(alloc, s, a)? else {
        return Ok(None);
    };
    if fits(s, a, &b) && !has_serial(s.mutator.bodies.as_slice(), b.serial) {
        return Ok(Some(b));
    }
    Ok(None)
}

/// What was filled, without the words of the body.
fn remove_words(filled: &mut List<(u32, u64)>, b: &Body)
    ensures { filled.new ≡ filter (λ f. not (body_has_word f.0 b.now)) filled.old }
{
    filled.items.retain(|f| !has_word(u64::from(f.0), b));
}

pub fn publish(s: &mut CoreState, a: u32, b: Body) -> Result<(), NoMemory>
    requires { b ≡ body_at s.old.words a }
    ensures { OnOk result (s.new ≡ core_published s.old a) }
{
    remove_words(&mut s.mutator.filled, &b);
    set_start(s.count, &mut s.words, a);
    s.mutator.bodies.push(b)?;
    s.mutator.may.push_if(s.mutator.on, a)?;
    Ok(())
}

// ---- retract

fn is_named(s: &CoreState, a: u32) -> bool
    ensures { result ≡ list_any (λ b. not (holds s.now.mutator.dead b.place)
        && refers_to s.now.types a b) s.now.mutator.bodies }
{
    let bodies = s.mutator.bodies.as_slice();
    bodies.iter().any(|b| names_while_alive(s, a, b))
}

fn names_while_alive(s: &CoreState, a: u32, b: &Body) -> bool
    ensures { result
        ≡ (not (holds s.now.mutator.dead b.now.place) && refers_to s.now.types a b.now) }
{
    !holds(s.mutator.dead.as_slice(), u64::from(b.place)) && refers_to(s.types.as_slice(), a, b)
}

pub fn can_retract(s: &CoreState, a: u32) -> bool
    ensures { result ≡ can_retract s.now a }
{
    !s.mutator.on && holds(s.mutator.dead.as_slice(), u64::from(a)) && !is_named(s, a)
}

pub fn retract(s: &mut CoreState, a: u32)
    ensures { s.new ≡ core_retracted s.old a }
{
    clear_start(s.count, &mut s.words, a);
    remove_body(&mut s.mutator.bodies, a);
    remove(&mut s.mutator.dead, a);
}
