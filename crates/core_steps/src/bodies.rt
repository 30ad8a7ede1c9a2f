// Objects, and what each of their words is.

ghost use Rattle.std.specs.Prelude.{◌≡◌, ◌<◌, ◌+◌, ◌==◌, ◌&&◌, not, [], ◌∷◌, map, filter, IfOk};
ghost use Rattle.marker_core.specs.Bodies.{field_word_count, role_at, refers, keeps, is_traced_role, kinds_of_type};
ghost use Rattle.marker_core.specs.Bodies.{word_in, role_in, body_has_word, has_field, field_number};
ghost use Rattle.marker_core.specs.Bodies.{is_place, in_body, names_body, refers_to, holds};
ghost use Rattle.marker_core.specs.Bodies.{with_word, places, without};
ghost use Rattle.object_headers.specs.Offsets.{reference_to};

use gc_graph::{Kind, NoMemory};
use marker_core::{Body, List, Role};
use object_headers::{FIRST_FIELD, reference_to};
use std::alloc::Global;

/// What the field word with a number is. What comes after the declared fields is plain.
pub fn role_at(kinds: &[Kind], i: u64) -> Role
    ensures { result ≡ role_at kinds.now i }
{
    let mut left = i;
    for kind in kinds {
        let words = words_of(*kind);
        if left < words {
            return role_of(*kind, left);
        }
        left -= words;
    }
    Role::PlainWord
}

/// How many words a field takes.
pub fn words_of(kind: Kind) -> u64
    ensures { result ≡ field_word_count (kind ∷ []) }
{
    if kind == Kind::Pair { 2 } else { 1 }
}

/// What a word of a field is.
fn role_of(kind: Kind, i: u64) -> Role
    requires { i < field_word_count (kind ∷ []) }
    ensures { result ≡ role_at (kind ∷ []) i }
{
    match kind {
        Kind::Strong => Role::StrongWord,
        Kind::Weak => Role::WeakWord,
        Kind::Pair if i == 0 => Role::KeyWord,
        Kind::Pair => Role::ValueWord,
        Kind::Plain => Role::PlainWord,
    }
}

pub fn refers(role: Role) -> bool
    ensures { result ≡ refers role }
{
    role != Role::PlainWord
}

pub fn keeps(role: Role) -> bool
    ensures { result ≡ keeps role }
{
    matches!(role, Role::StrongWord | Role::ValueWord)
}

/// The kinds of a type's fields; none where there is no such type.
pub fn kinds_of(types: &[List<Kind>], ty: u32) -> &[Kind]
    ensures { result.now ≡ kinds_of_type types.now ty }
{
    match types.get(ty as usize) {
        Some(kinds) => kinds.as_slice(),
        None => &[],
    }
}

pub fn word_in(b: &Body, i: u64) -> u64
    ensures { result ≡ word_in b.now i }
{
    b.fields.as_slice().get(i as usize).copied().unwrap_or(0)
}

/// The field word after the one with a number.
#[tactic(auto, using(std::proofs::lemmas::List::get_or_past))]
pub fn word_after(b: &Body, i: u64) -> u64
    ensures { result ≡ word_in b.now (i + 1) }
{
    let len = b.fields.as_slice().len();
    if (i as usize) < len {
        word_in(b, i + 1)
    } else {
        0
    }
}

pub fn role_in(types: &[List<Kind>], b: &Body, i: u64) -> Role
    ensures { result ≡ role_in types.now b.now i }
{
    role_at(kinds_of(types, b.ty), i)
}

pub fn has_word(a: u64, b: &Body) -> bool
    ensures { result ≡ body_has_word a b.now }
{
    u64::from(b.place) <= a && a < u64::from(b.place) + u64::from(b.size)
}

pub fn has_field(a: u64, b: &Body) -> bool
    ensures { result ≡ has_field a b.now }
{
    u64::from(b.place) + u64::from(FIRST_FIELD) <= a && a < u64::from(b.place) + u64::from(b.size)
}

pub fn is_place(bodies: &[Body], a: u64) -> bool
    ensures { result ≡ is_place bodies.now a }
{
    bodies.iter().any(|b| u64::from(b.place) == a)
}

pub fn in_body(bodies: &[Body], a: u64) -> bool
    ensures { result ≡ in_body bodies.now a }
{
    bodies.iter().any(|b| has_word(a, b))
}

pub fn names_body(bodies: &[Body], w: u64) -> bool
    ensures { result ≡ names_body bodies.now w }
{
    w == 0 || is_place(bodies, w - 1)
}

pub fn holds(set: &[u32], a: u64) -> bool
    ensures { result ≡ holds set.now a }
{
    set.iter().any(|p| u64::from(*p) == a)
}

/// The bodies with a word in the field at an address, where one of them has that field.
pub fn write_field(bodies: &mut List<Body>, a: u32, w: u64)
    ensures { bodies.new ≡ map (with_word a w) bodies.old }
{
    for b in bodies.items.iter_mut() {
        write_word(b, a, w);
    }
}

fn write_word(b: &mut Body, a: u32, w: u64)
    ensures { b.new ≡ with_word a w b.old }
{
    if has_field(u64::from(a), b) {
        let i = u64::from(a).saturating_sub(u64::from(b.place) + u64::from(FIRST_FIELD));
        b.fields.set(i as usize, w);
    }
}

/// One of the references of the body names the object at an address.
pub fn refers_to(types: &[List<Kind>], a: u32, b: &Body) -> bool
    ensures { result ≡ refers_to types.now a b.now }
{
    let n = b.fields.as_slice().len();
    (0..n).any(|i| is_reference_to(types, a, b, i as u64))
}

fn is_reference_to(types: &[List<Kind>], a: u32, b: &Body, i: u64) -> bool
    ensures { result ≡ (refers (role_in types.now b.now i) && (word_in b.now i == reference_to a)) }
{
    refers(role_in(types, b, i)) && word_in(b, i) == reference_to(a)
}

/// The places of the bodies, in their order.
pub fn places(alloc: Global, bodies: &[Body]) -> Result<Vec<u32>, NoMemory>
    ensures { IfOk result (λ v. v.items ≡ places bodies.now) }
{
    let list = bodies.iter().map(|b| b.place).collect(alloc)?;
    Ok(list)
}

/// The set without a place.
pub fn remove(set: &mut List<u32>, a: u32)
    ensures { set.new ≡ without set.old a }
{
    set.items.retain(|p| *p != a);
}

pub fn remove_body(bodies: &mut List<Body>, a: u32)
    ensures { bodies.new ≡ filter (λ b. not (b.place == a)) bodies.old }
{
    bodies.items.retain(|b| b.place != a);
}
