// What roots reach over bodies: a set of flags is closed as many times as there are words.

ghost use Rattle.std.specs.Prelude.{◌≡◌, ◌+◌, IfOk};
ghost use Rattle.gc_graph.specs.Graph.{has};
ghost use Rattle.gc_graph.specs.Reach.{closing, closed_times};
ghost use Rattle.std.specs.Prelude.{map, filter};
ghost use Rattle.std.specs.List.{list_any, range_with_len};
ghost use Rattle.marker_core.specs.Bodies.{places, is_place, holds, role_in, word_in};
ghost use Rattle.marker_core.specs.Closed.{address_graph, reach_over};
ghost use Rattle.marker_core.specs.Looking.{word_leads, some_word_leads, by_body, is_pulled};
ghost use Rattle.marker_core.specs.Matching.{AreWhole, LieApart};

use crate::bodies::{holds, is_place, role_in, word_after, word_in};
use gc_graph::{Kind, NoMemory};
use marker_core::{Body, List, Role, closes_by_words};
use std::alloc::Global;

fn has_flag(set: &[bool], a: u64) -> bool
    ensures { result ≡ has set.now a }
{
    set.get(a as usize).copied().unwrap_or(false)
}

fn word_leads(set: &[bool], role: Role, w: u64, next: u64, n: u32) -> bool
    ensures { result ≡ word_leads (has set.now) role w next n }
{
    match role {
        Role::StrongWord => w == u64::from(n) + 1,
        Role::KeyWord => w != 0 && has_flag(set, w - 1) && next == u64::from(n) + 1,
        _ => false,
    }
}

fn word_of_body_leads(types: &[List<Kind>], set: &[bool], b: &Body, i: u64, n: u32) -> bool
    ensures { result ≡ word_leads (has set.now) (role_in types.now b.now i) (word_in b.now i)
        (word_in b.now (i + 1)) n }
{
    word_leads(
        set,
        role_in(types, b, i),
        word_in(b, i),
        word_after(b, i),
        n,
    )
}

fn some_word_leads(types: &[List<Kind>], set: &[bool], b: &Body, n: u32) -> bool
    ensures { result ≡ some_word_leads types.now (has set.now) b.now n }
{
    let len = b.fields.as_slice().len();
    (0..len).any(|i| word_of_body_leads(types, set, b, i as u64, n))
}

fn by_body(types: &[List<Kind>], set: &[bool], n: u32, b: &Body) -> bool
    ensures { result ≡ by_body types.now set.now n b.now }
{
    has_flag(set, u64::from(b.place)) && some_word_leads(types, set, b, n)
}

fn some_body_leads(types: &[List<Kind>], bodies: &[Body], set: &[bool], n: u32) -> bool
    ensures { result ≡ list_any (by_body types.now set.now n) bodies.now }
{
    bodies.iter().any(|b| by_body(types, set, n, b))
}

fn is_pulled(types: &[List<Kind>], bodies: &[Body], set: &[bool], n: u32) -> bool
    ensures { result ≡ is_pulled types.now bodies.now set.now n }
{
    has_flag(set, u64::from(n)) || some_body_leads(types, bodies, set, n)
}

/// The set together with what its bodies lead to.
fn closing(
    alloc: Global,
    count: u32,
    types: &[List<Kind>],
    bodies: &[Body],
    set: &[bool],
) -> Result<Vec<bool>, NoMemory>
    requires whole { AreWhole count types.now bodies.now }
    requires apart { LieApart bodies.now }
    ensures { IfOk result (λ v. v.items
        ≡ closing (address_graph count types.now bodies.now) set.now) }
{
    closes_by_words();
    let mut next = Vec::new(alloc);
    for n in 0..count {
        next.push(is_pulled(types, bodies, set, n))?;
    }
    Ok(next)
}

/// The roots that are places, as flags.
fn rooted(alloc: Global, count: u32, bodies: &[Body], roots: &[u32]) -> Result<Vec<bool>, NoMemory>
    ensures { IfOk result (λ v. v.items
        ≡ map (holds (filter (is_place bodies.now) roots.now)) (range_with_len 0 count)) }
{
    let mut set = Vec::new(alloc);
    for n in 0..count {
        set.push(is_root(bodies, roots, n))?;
    }
    Ok(set)
}

#[tactic(auto, using(crate::proofs::Flags::root_is))]
fn is_root(bodies: &[Body], roots: &[u32], n: u32) -> bool
    ensures { result ≡ holds (filter (is_place bodies.now) roots.now) n }
{
    is_place(bodies, u64::from(n)) && holds(roots, u64::from(n))
}

/// The places of the bodies that have a flag, in their order.
fn flagged(alloc: Global, bodies: &[Body], set: &[bool]) -> Result<List<u32>, NoMemory>
    ensures { IfOk result (λ l. l ≡ filter (has set.now) (places bodies.now)) }
{
    let mut kept = List::new(alloc);
    for b in bodies {
        kept.push_if(has_flag(set, u64::from(b.place)), b.place)?;
    }
    Ok(kept)
}

/// The places that the roots reach, in the order of the bodies.
pub fn reach_over(
    alloc: Global,
    count: u32,
    types: &[List<Kind>],
    bodies: &[Body],
    roots: &[u32],
) -> Result<List<u32>, NoMemory>
    requires whole { AreWhole count types.now bodies.now }
    requires apart { LieApart bodies.now }
    ensures { IfOk result (λ l. l ≡ reach_over count types.now bodies.now roots.now) }
{
    let mut set = rooted(alloc, count, bodies, roots)?;
    for _turn in 0..count {
        set = closing(alloc, count, types, bodies, &set)?;
    }
    let kept = flagged(alloc, bodies, &set)?;
    Ok(kept)
}
