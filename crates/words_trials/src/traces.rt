// A heap with two objects of which the first names the second. A marker traces the first, is told to
// stop, and gives its seat back.

ghost use Rattle.std.specs.Prelude.{◌≡◌, true, None, [], ◌∷◌, IfOk, IfSome};
ghost use Rattle.marker_core.specs.Views.{fresh_view};
ghost use Rattle.words_trials.specs.Objects.{strong_type, two_objects};
ghost use Rattle.page_words.specs.Seat.{empty_view};

use crate::claims::is_grey;
use gc_graph::{Kind, NoMemory};
use object_headers::Header;
use page_words::{MarkerSeat, MutatorSeat, Reading, Words, has_mark};
use std::alloc::Global;
use type_table::{TypeDecl, TypeTable};

/// The words of a heap with objects at 0 and 3, of which the first names the second and is marked,
/// while marking goes on.
fn marked(alloc: Global) -> Result<(Words, MutatorSeat), NoMemory>
    ensures heap { IfOk result (λ made. made.1.heap ≡ made.0) }
    ensures on { IfOk result (λ made. made.1.on ≡ true) }
    ensures types { IfOk result (λ made. made.1.types ≡ strong_type ∷ []) }
{
    let types = one_type(alloc)?;
    let (words, mut seat) = Words::new(alloc, 256, &types)?;
    lay(&words, &mut seat);
    words.store(&mut seat, 2, 4);
    words.set_stop(&mut seat, false);
    words.mark(&mut seat, 0);
    Ok((words, seat))
}

/// Fills and publishes the two objects, whose fields are null.
fn lay(words: &Words, seat: &mut MutatorSeat)
    requires count { words.now.count ≡ 256 }
    requires new { seat.old ≡ empty_view words.now (strong_type ∷ []) }
    ensures { seat.new ≡ two_objects words.now }
{
    let header = Header::pack(true, false, false, 0, 3);
    words.fill(seat, 0, header);
    words.fill(seat, 1, 7);
    words.fill(seat, 2, 0);
    words.publish(seat, 0);
    words.fill(seat, 3, header);
    words.fill(seat, 4, 10);
    words.fill(seat, 5, 0);
    words.publish(seat, 3);
}

/// A table of one type with one strong field.
fn one_type(alloc: Global) -> Result<TypeTable, NoMemory>
    ensures { IfOk result (λ types. types ≡ strong_type ∷ []) }
{
    let mut fields = Vec::new(alloc);
    fields.push(Kind::Strong)?;
    let mut types = Vec::new(alloc);
    types.push(TypeDecl::new(fields, Vec::new(alloc), Vec::new(alloc)))?;
    let Ok(types) = TypeTable::new(alloc, types, 0) else {
        return Err(NoMemory);
    };
    Ok(types)
}

/// A marker traces the object at 0, where that names the one at 3, and tells whether it set the mark
/// of that one.
fn traced(words: &Words, seat: &mut MarkerSeat) -> Option<bool>
    requires heap { seat.old.heap ≡ words.now }
    requires fresh { seat.old.marker ≡ fresh_view }
    requires types { seat.old.types ≡ strong_type ∷ [] }
    ensures heap { IfSome result (λ fresh. seat.new.heap ≡ words.now) }
    ensures hand { IfSome result (λ fresh. seat.new.hand ≡ None) }
{
    seat.places_are_within();
    if !words.is_start(seat, 0) {
        return None;
    }
    let header = words.header(seat, 0);
    if !is_grey(header) || Header::type_in(header) != 0 {
        return None;
    }
    if !words.claim_as(seat, 0, header) || words.read(seat, 2) != 4 {
        return None;
    }
    Some(words.mark_as(seat, 3))
}

/// What is seen when a marker has traced: whether it was told to stop before it was to, whether it set
/// the mark, whether the mark is there, and whether it was then told to stop.
fn seen(words: &Words, seat: &mut MutatorSeat) -> Option<(bool, bool, bool, bool)>
    requires heap { seat.old.heap ≡ words.now }
    requires on { seat.old.on ≡ true }
    requires types { seat.old.types ≡ strong_type ∷ [] }
{
    let mut idle = words.split(seat);
    let mut marker = words.split(seat);
    let early = words.stopped(&mut idle);
    let fresh = traced(words, &mut marker)?;
    words.set_stop(seat, true);
    let late = words.stopped(&mut idle);
    words.join(seat, marker);
    words.join(seat, idle);
    let there = has_mark(words.load::<Reading>(seat, 3));
    Some((early, fresh, there, late))
}

/// The same of a new heap.
fn seen_in_a_new_heap(alloc: Global) -> Option<(bool, bool, bool, bool)> {
    match marked(alloc) {
        Ok((words, mut seat)) => seen(&words, &mut seat),
        Err(_) => None,
    }
}

#[test]
fn marker_traces_an_object_and_is_told_to_stop(rt: HostRuntime) {
    assert!(rt; seen_in_a_new_heap(rt.alloc()) == Some((false, true, true, true)));
}
