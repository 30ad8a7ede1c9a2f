// One object, traced on a heap of two.

ghost use Rattle.std.specs.Prelude.{◌≡◌, ◌↔◌, ℕ, true, Contains, IfSome};
ghost use Rattle.std.specs.Arc.{arc_value};
ghost use Rattle.mark_worklist.specs.Lists.{no_items};
ghost use Rattle.marker_core.specs.Bodies.{IsPlace};
ghost use Rattle.page_words.specs.Seat.{IsAlone};
ghost use Rattle.page_space.specs.Space.{IsSeatOf};
ghost use Rattle.pair_notes.specs.BodyGraph.{BodyHasPair};
ghost use Rattle.pair_notes.specs.Notes.{no_notes};
ghost use Rattle.pair_notes.specs.declared.notes.Note.{Note};
ghost use Rattle.marking_trials.specs.SmallHeap.{pair_then_strong, IsEither, IsSmallHeap};
ghost use Rattle.marking_trials.specs.SmallHeap.{IsSmallHeapTraced, AreOfTheTwo};

use crate::small_heap::{HOLDER, OTHER, SmallHeap, is_other_marked, made, write};
use ephemerons::{claim, fixpoint, trace};
use mark_worklist::{Marking, Worklist};
use page_words::Bodywords;
use pair_notes::Pairs;
use std::alloc::Global;

/// How many places are listed and how many pairs noted, and whether the other object is marked.
#[derive(Clone, Copy, Debug, PartialEq)]
struct Counts {
    listed: usize,
    noted: usize,
    marked: bool,
}

/// A heap with what its owner lists and notes.
#[derive(Drop)]
struct Trial {
    heap: SmallHeap,
    marking: Marking,
    notes: Pairs,
}

/// The heap before marking.
fn begun(alloc: Global) -> Option<Trial>
    ensures heap { IfSome result (λ t. IsSeatOf t.heap.space t.heap.seat) }
    ensures types { IfSome result (λ t. arc_value t.heap.types ≡ pair_then_strong) }
    ensures small { IfSome result (λ t. IsSmallHeap t.heap.seat 0 0 0) }
    ensures told { IfSome result (λ t. t.marking.on ≡ true) }
    ensures list { IfSome result (λ t. t.marking.list ≡ no_items) }
    ensures notes { IfSome result (λ t. t.notes ≡ no_notes) }
{
    let heap = made(alloc)?;
    let Ok((list, _)) = Worklist::new(alloc, 0) else {
        return None;
    };
    let marking = Marking {
        on: true,
        overflow: false,
        list,
    };
    Some(Trial {
        heap,
        marking,
        notes: Pairs::new(alloc),
    })
}

/// Marks, claims and traces the first object, which gets these words.
fn trace_first(
    heap: &mut SmallHeap,
    marking: &mut Marking,
    notes: &mut Pairs,
    key: u64,
    value: u64,
    strong: u64,
) -> Option<()>
    requires heap { IsSeatOf heap.old.space heap.old.seat }
    requires types { arc_value heap.old.types ≡ pair_then_strong }
    requires small { IsSmallHeap heap.old.seat 0 0 0 }
    requires told { marking.old.on ≡ true }
    requires list { marking.old.list ≡ no_items }
    requires notes { notes.old ≡ no_notes }
    requires key { IsEither key }
    requires value { IsEither value }
    requires strong { IsEither strong }
    requires pair { (key ≡ 0) ↔ (value ≡ 0) }
    ensures heap { IfSome result (λ done. IsSeatOf heap.new.space heap.new.seat) }
    ensures types { arc_value heap.new.types ≡ pair_then_strong }
    ensures traced { IfSome result (λ done. IsSmallHeapTraced heap.new.seat key value strong) }
    ensures lists { IfSome result (λ done. AreOfTheTwo marking.new notes.new) }
{
    write(&heap.space, &mut heap.seat, key, value, strong);
    heap.seat.bodies_lie_apart();
    heap.space.set_stop(&mut heap.seat, false);
    heap.space.mark(&mut heap.seat, HOLDER);
    claim(&heap.space, &mut heap.seat, HOLDER)?;
    trace(
        &heap.space,
        &heap.types,
        &mut heap.seat,
        marking,
        notes,
        HOLDER,
    );
    Some(())
}

/// A heap whose first object has these words and was traced.
fn traced(alloc: Global, key: u64, value: u64, strong: u64) -> Option<Trial>
    requires key { IsEither key }
    requires value { IsEither value }
    requires strong { IsEither strong }
    requires pair { (key ≡ 0) ↔ (value ≡ 0) }
    ensures heap { IfSome result (λ t. IsSeatOf t.heap.space t.heap.seat) }
    ensures types { IfSome result (λ t. arc_value t.heap.types ≡ pair_then_strong) }
    ensures traced { IfSome result (λ t. IsSmallHeapTraced t.heap.seat key value strong) }
    ensures lists { IfSome result (λ t. AreOfTheTwo t.marking t.notes) }
{
    let mut t = begun(alloc)?;
    trace_first(
        &mut t.heap,
        &mut t.marking,
        &mut t.notes,
        key,
        value,
        strong,
    )?;
    Some(t)
}

/// What is left of it.
fn left(alloc: Global, key: u64, value: u64, strong: u64) -> Option<Counts>
    requires key { IsEither key }
    requires value { IsEither value }
    requires strong { IsEither strong }
    requires pair { (key ≡ 0) ↔ (value ≡ 0) }
{
    let mut t = traced(alloc, key, value, strong)?;
    Some(Counts {
        listed: t.marking.list.len(),
        noted: t.notes.count(),
        marked: is_other_marked(&mut t.heap),
    })
}

/// How many objects the fixpoint traces, and whether the other one is marked then.
fn closed(t: Trial) -> (u32, bool)
    requires heap { IsSeatOf t.heap.space t.heap.seat }
    requires types { arc_value t.heap.types ≡ pair_then_strong }
    requires known { t.heap.seat.types ≡ pair_then_strong }
    requires on { t.heap.seat.on ≡ true }
    requires told { t.marking.on ≡ true }
    requires alone { IsAlone t.heap.seat }
    requires whole { t.marking.list.whole ≡ true }
    requires listed { (p : ℕ) → Contains t.marking.list.items p → IsPlace t.heap.seat.bodies p }
    requires noted { (note : Note) → Contains t.notes.notes note
        → BodyHasPair pair_then_strong t.heap.seat.bodies note.holder note.word }
    requires other { IsPlace t.heap.seat.bodies 256 }
{
    let Trial {
        mut heap,
        mut marking,
        notes,
    } = t;
    let mut groups = [notes];
    let count = fixpoint(
        &heap.space,
        &heap.types,
        &mut heap.seat,
        &mut marking,
        &mut groups,
        false,
    );
    (count, is_other_marked(&mut heap))
}

/// The same where null is written over a pair that was noted.
fn null_over_a_noted_pair(alloc: Global) -> Option<(u32, bool)> {
    let mut t = traced(alloc, 257, 1, 0)?;
    t.heap.space.store(&mut t.heap.seat, HOLDER + 3, 0);
    t.heap.space.store(&mut t.heap.seat, HOLDER + 2, 0);
    Some(closed(t))
}

/// The same where its value was overwritten by the key itself: the write marks and lists that.
fn another_over_a_noted_pair(alloc: Global) -> Option<(u32, bool)> {
    let mut t = traced(alloc, 257, 1, 0)?;
    t.heap.space.store(&mut t.heap.seat, HOLDER + 3, 257);
    t.heap.space.mark(&mut t.heap.seat, OTHER);
    t.marking.push(OTHER);
    Some(closed(t))
}

/// Whether tracing leaves so many places listed and pairs noted, and the other object marked.
fn leaves(found: Option<Counts>, listed: usize, noted: usize, marked: bool) -> bool {
    found
        == Some(Counts {
            listed,
            noted,
            marked,
        })
}

#[test]
fn null_fields_ask_for_nothing(rt: HostRuntime) {
    assert!(rt; leaves(left(rt.alloc(), 0, 0, 0), 0, 0, false));
}

#[test]
fn strong_target_is_marked_and_listed(rt: HostRuntime) {
    assert!(rt; leaves(left(rt.alloc(), 0, 0, 257), 1, 0, true));
}

#[test]
fn value_is_marked_where_the_key_is(rt: HostRuntime) {
    assert!(rt; leaves(left(rt.alloc(), 1, 257, 0), 1, 0, true));
}

#[test]
fn pair_is_noted_where_the_key_is_not_marked(rt: HostRuntime) {
    assert!(rt; leaves(left(rt.alloc(), 257, 1, 0), 0, 1, false));
}

#[test]
fn pair_is_looked_at_before_the_strong_field_that_names_its_key(rt: HostRuntime) {
    assert!(rt; leaves(left(rt.alloc(), 257, 257, 257), 1, 1, true));
}

#[test]
fn noted_pair_may_be_overwritten_by_null(rt: HostRuntime) {
    assert!(rt; null_over_a_noted_pair(rt.alloc()) == Some((0, false)));
}

#[test]
fn value_of_a_noted_pair_may_be_overwritten(rt: HostRuntime) {
    assert!(rt; another_over_a_noted_pair(rt.alloc()) == Some((1, true)));
}
