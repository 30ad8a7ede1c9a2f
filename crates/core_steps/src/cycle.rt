// The steps of the mutator that begin and end marking, and lend and take back a marker's view.

ghost use Rattle.std.specs.Prelude.{◌≡◌, ◌+◌, ◌&&◌, ◌||◌, not, filter, length};
ghost use Rattle.std.specs.Prelude.{IfOk, OnOk, slice_set};
ghost use Rattle.std.specs.Option.{is_none};
ghost use Rattle.std.specs.List.{list_all, range_with_len};
ghost use Rattle.marker_core.specs.Layout.{stop_at, is_marked, is_traced};
ghost use Rattle.marker_core.specs.Bodies.{places, role_in, word_in};
ghost use Rattle.marker_core.specs.Closed.{word_closes, body_closes, closes_over};
ghost use Rattle.marker_core.specs.CycleSteps.{can_begin, core_begun};
ghost use Rattle.marker_core.specs.SeatSteps.{pair_is_whole, pairs_are_whole};
ghost use Rattle.marker_core.specs.CycleSteps.{core_stopped, ends, can_end, core_unmarked_places, core_ended};
ghost use Rattle.marker_core.specs.Core.{IsCoreOk};

use crate::bodies::{role_in, word_after, word_in};
use crate::reaching::reach_over;
use crate::reading::{has_mark, is_marked, is_traced, word_at};
use gc_graph::{Kind, NoMemory};
use marker_core::{Body, CoreState, List, Role};
use std::alloc::Global;

// ---- marking begins

fn pair_is_whole(role: Role, key: u64, value: u64) -> bool
    ensures { result ≡ pair_is_whole role key value }
{
    match role {
        Role::KeyWord if key == 0 => value == 0,
        Role::KeyWord => value != 0,
        _ => true,
    }
}

fn word_is_whole(types: &[List<Kind>], b: &Body, i: u64) -> bool
    ensures { result ≡ pair_is_whole (role_in types.now b.now i) (word_in b.now i)
        (word_in b.now (i + 1)) }
{
    pair_is_whole(role_in(types, b, i), word_in(b, i), word_after(b, i))
}

fn pairs_are_whole(types: &[List<Kind>], b: &Body) -> bool
    ensures { result ≡ pairs_are_whole types.now b.now }
{
    let len = b.fields.as_slice().len();
    (0..len).all(|i| word_is_whole(types, b, i as u64))
}

fn all_pairs_are_whole(types: &[List<Kind>], bodies: &[Body]) -> bool
    ensures { result ≡ list_all (pairs_are_whole types.now) bodies.now }
{
    bodies.iter().all(|b| pairs_are_whole(types, b))
}

pub fn can_begin(s: &CoreState) -> bool
    ensures { result ≡ can_begin s.now }
{
    let m = &s.mutator;
    !m.on
        && m.marked.as_slice().is_empty()
        && m.traced.as_slice().is_empty()
        && m.noted.as_slice().is_empty()
        && m.dead.as_slice().is_empty()
        && m.lent == 0
        && all_pairs_are_whole(s.types.as_slice(), m.bodies.as_slice())
}

pub fn begin(alloc: Global, s: &mut CoreState, roots: &[u32]) -> Result<(), NoMemory>
    requires { IsCoreOk s.old }
    ensures { OnOk result (s.new ≡ core_begun s.old roots.now) }
{
    let types = s.types.as_slice();
    let bodies = s.mutator.bodies.as_slice();
    let may = reach_over(alloc, s.count, types, bodies, roots)?;
    set_stop(s, 0);
    s.mutator.on = true;
    s.mutator.may = may;
    s.mutator.seen.clear();
    s.mutator.done.clear();
    s.mutator.missed.clear();
    s.mutator.looked.clear();
    Ok(())
}

fn set_stop(s: &mut CoreState, w: u64)
    ensures { s.new ≡ record s.old { words = slice_set s.old.words (stop_at s.old.count) w } }
{
    let at = s.count as usize + s.count as usize / 64;
    s.words.set(at, w);
}

// ---- the markers are told to stop, and marking ends where none is out

pub fn stop(s: &mut CoreState)
    ensures { s.new ≡ core_stopped s.old }
{
    set_stop(s, 1);
}

pub fn ends(s: &CoreState) -> bool
    ensures { result ≡ ends s.now }
{
    s.mutator.on && s.mutator.lent == 0
}

fn is_not_grey(words: &[u64], a: u32) -> bool
    ensures { result ≡ (not (is_marked words.now a) || is_traced words.now a) }
{
    !is_marked(words, a) || is_traced(words, a)
}

fn none_is_grey(words: &[u64], bodies: &[Body]) -> bool
    ensures { result ≡ list_all (λ a. not (is_marked words.now a) || is_traced words.now a)
        (places bodies.now) }
{
    bodies
        .iter()
        .map(|b| b.place)
        .all(|a| is_not_grey(words, a))
}

fn marked_at(words: &[u64], a: u64) -> bool
    ensures { result ≡ is_marked words.now a }
{
    has_mark(word_at(words, a))
}

fn word_closes(words: &[u64], role: Role, w: u64, next: u64) -> bool
    ensures { result ≡ word_closes (is_marked words.now) role w next }
{
    match role {
        Role::StrongWord => w == 0 || marked_at(words, w - 1),
        Role::KeyWord => {
            w == 0 || !marked_at(words, w - 1) || next == 0 || marked_at(words, next - 1)
        }
        _ => true,
    }
}

fn word_of_body_closes(types: &[List<Kind>], words: &[u64], b: &Body, i: u64) -> bool
    ensures { result ≡ word_closes (is_marked words.now) (role_in types.now b.now i)
        (word_in b.now i) (word_in b.now (i + 1)) }
{
    word_closes(words, role_in(types, b, i), word_in(b, i), word_after(b, i))
}

fn all_words_close(types: &[List<Kind>], words: &[u64], b: &Body) -> bool
    ensures { result ≡ list_all (λ i. word_closes (is_marked words.now) (role_in types.now b.now i)
        (word_in b.now i) (word_in b.now (i + 1))) (range_with_len 0 (length b.now.fields)) }
{
    let len = b.fields.as_slice().len();
    (0..len).all(|i| word_of_body_closes(types, words, b, i as u64))
}

fn body_closes(types: &[List<Kind>], words: &[u64], b: &Body) -> bool
    ensures { result ≡ body_closes types.now (is_marked words.now) b.now }
{
    !is_marked(words, b.place) || all_words_close(types, words, b)
}

fn marks_are_closed(types: &[List<Kind>], words: &[u64], bodies: &[Body]) -> bool
    ensures { result ≡ closes_over types.now (is_marked words.now) bodies.now }
{
    bodies.iter().all(|b| body_closes(types, words, b))
}

/// Nothing is in the mutator's hand, and nothing waits for its mark.
fn is_idle(s: &CoreState) -> bool
    ensures { result ≡ (is_none s.now.mutator.hand && is_none s.now.mutator.pending) }
{
    s.mutator.hand.is_none() && s.mutator.pending.is_none()
}

fn nothing_is_grey(s: &CoreState) -> bool
    ensures { result ≡ list_all (λ a. not (is_marked s.now.words a) || is_traced s.now.words a)
        (places s.now.mutator.bodies) }
{
    none_is_grey(s.words.as_slice(), s.mutator.bodies.as_slice())
}

fn marked_is_closed(s: &CoreState) -> bool
    ensures { result ≡ closes_over s.now.types (is_marked s.now.words) s.now.mutator.bodies }
{
    let bodies = s.mutator.bodies.as_slice();
    marks_are_closed(s.types.as_slice(), s.words.as_slice(), bodies)
}

pub fn can_end(s: &CoreState) -> bool
    ensures { result ≡ can_end s.now }
{
    is_idle(s) && nothing_is_grey(s) && marked_is_closed(s)
}

fn unmarked_places(alloc: Global, words: &[u64], bodies: &[Body]) -> Result<List<u32>, NoMemory>
    ensures { IfOk result (λ l. l ≡ filter (λ a. not (is_marked words.now a)) (places bodies.now)) }
{
    let mut dead = List::new(alloc);
    for b in bodies {
        dead.push_if(!is_marked(words, b.place), b.place)?;
    }
    Ok(dead)
}

pub fn end(alloc: Global, s: &mut CoreState) -> Result<(), NoMemory>
    ensures { OnOk result (s.new ≡ core_ended s.old) }
{
    let dead = unmarked_places(alloc, s.words.as_slice(), s.mutator.bodies.as_slice())?;
    set_stop(s, 1);
    s.mutator.on = false;
    s.mutator.dead = dead;
    s.mutator.early = s.mutator.looked.as_slice().len() as u64;
    s.mutator.noted.clear();
    s.mutator.seen.clear();
    s.mutator.done.clear();
    s.mutator.may.clear();
    Ok(())
}
