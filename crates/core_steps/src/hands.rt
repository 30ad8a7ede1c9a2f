// How an object in a hand is traced, word by word.

ghost use Rattle.std.specs.Prelude.{◌≡◌, ◌+◌, ◌≤◌, ◌^◌, ◌&&◌, [], ◌∷◌, length, nat_lt};
ghost use Rattle.std.specs.List.{find};
ghost use Rattle.marker_core.specs.Hands.{traced_offsets, hand_past, hand_claimed, hand_moved};
ghost use Rattle.marker_core.specs.Hands.{role_at_hand, part_found, wants_word, wants_key, wants_mark};
ghost use Rattle.marker_core.specs.Hands.{hand_read, hand_looked, hand_after_mark};
ghost use Rattle.marker_core.specs.Bodies.{role_at, is_traced_role};
ghost use Rattle.marker_core.specs.Matching.{AreTypes};
ghost use Rattle.object_headers.specs.Offsets.{first_field};

use crate::bodies::{kinds_of, role_at, words_of};
use crate::reading::has_mark;
use gc_graph::Kind;
use marker_core::{Hand, List, Part, Role};
use object_headers::FIRST_FIELD;

/// The first strong word or pair past an offset.
#[tactic(auto, using(crate::proofs::NextOffsets::next_offset))]
fn next_past(kinds: &[Kind], offset: u32) -> Option<u32>
    requires { length kinds.now ≤ 64 }
    ensures { result ≡ find (λ next. nat_lt offset next) (traced_offsets first_field kinds.now) }
{
    let mut at = FIRST_FIELD;
    for kind in kinds {
        if is_next(*kind, offset, at) {
            return Some(at);
        }
        at += words_of(*kind) as u32;
    }
    None
}

/// The field is a strong one or a pair, and past the offset.
fn is_next(kind: Kind, offset: u32, at: u32) -> bool
    ensures { result ≡ (is_traced_role (role_at (kind ∷ []) 0) && nat_lt offset at) }
{
    matches!(kind, Kind::Strong | Kind::Pair) && offset < at
}

pub fn hand_past(types: &[List<Kind>], place: u32, ty: u32, offset: u32) -> Option<Hand>
    requires { AreTypes types.now }
    ensures { result ≡ hand_past types.now place ty offset }
{
    match next_past(kinds_of(types, ty), offset) {
        Some(next) => Some(Hand {
            place,
            ty,
            next,
            part: Part::Read,
        }),
        None => None,
    }
}

pub fn hand_claimed(types: &[List<Kind>], place: u32, header: u64) -> Option<Hand>
    requires { AreTypes types.now }
    ensures { result ≡ hand_claimed types.now place header }
{
    hand_past(types, place, (header / 8 % 16384) as u32, 1)
}

pub fn hand_moved(types: &[List<Kind>], h: Hand) -> Option<Hand>
    requires { AreTypes types.now }
    ensures { result ≡ hand_moved types.now h }
{
    hand_past(types, h.place, h.ty, h.next)
}

fn role_at_hand(types: &[List<Kind>], h: Hand) -> Role
    ensures { result ≡ role_at_hand types.now h }
{
    role_at(
        kinds_of(types, h.ty),
        u64::from(h.next).saturating_sub(u64::from(FIRST_FIELD)),
    )
}

fn part_found(role: Role, part: Part, t: u32) -> Part
    ensures { result ≡ part_found role part t }
{
    match (role, part) {
        (Role::KeyWord, Part::Read) => Part::Key(t),
        _ => Part::Mark(t),
    }
}

pub fn wants_word(h: Hand, a: u32) -> bool
    ensures { result ≡ wants_word h h.part a }
{
    let at = u64::from(h.place) + u64::from(h.next);
    match h.part {
        Part::Read => u64::from(a) == at,
        Part::Value => u64::from(a) == at + 1,
        Part::Mark(_) | Part::Key(_) => false,
    }
}

pub fn wants_key(part: Part, a: u32) -> bool
    ensures { result ≡ wants_key part a }
{
    match part {
        Part::Key(k) => a == k,
        Part::Read | Part::Mark(_) | Part::Value => false,
    }
}

pub fn wants_mark(part: Part, a: u32) -> bool
    ensures { result ≡ wants_mark part a }
{
    match part {
        Part::Mark(t) => a == t,
        Part::Read | Part::Key(_) | Part::Value => false,
    }
}

/// The hand after it read a word. A reference is at most 2^32.
pub fn hand_read(types: &[List<Kind>], w: u64, h: Hand) -> Option<Hand>
    requires types { AreTypes types.now }
    requires fits { w ≤ 2 ^ 32 }
    ensures { result ≡ hand_read types.now w h }
{
    if w == 0 {
        return hand_moved(types, h);
    }
    let part = part_found(role_at_hand(types, h), h.part, (w - 1) as u32);
    Some(Hand { part, ..h })
}

pub fn hand_looked(types: &[List<Kind>], header: u64, h: Hand) -> Option<Hand>
    requires { AreTypes types.now }
    ensures { result ≡ hand_looked types.now header h }
{
    if has_mark(header) {
        return Some(Hand {
            part: Part::Value,
            ..h
        });
    }
    hand_moved(types, h)
}

pub fn hand_after_mark(types: &[List<Kind>], a: u32, h: Hand) -> Option<Hand>
    requires { AreTypes types.now }
    ensures { result ≡ hand_after_mark types.now a h }
{
    if wants_mark(h.part, a) {
        return hand_moved(types, h);
    }
    Some(h)
}
