// Markers drain the lists, on a heap of two objects of which the first is marked and listed.

ghost use Rattle.std.specs.Prelude.{◌≡◌, ◌↔◌, None, IfSome};
ghost use Rattle.std.specs.Arc.{arc_value};
ghost use Rattle.marking_trials.specs.SmallHeap.{IsEither, IsMarkingSmallHeap};
ghost use Rattle.marking_trials.specs.Seats.{IsNewSeat};

use crate::small_heap::{HOLDER, SmallHeap, is_other_marked, made, write};
use mark_worklist::{Share, SharedList};
use marker_crew::{Drained, FreeGate, drain};
use page_words::{Bodywords, MarkerSeat, Words};
use pair_notes::Pairs;
use std::alloc::Global;
use std::thread;
use std::thread::Threads;
use type_table::TypeTable;

/// So often two markers drain the lists of a new heap.
const TRIES: u32 = 200;

/// A heap whose first object has these words and is marked.
pub fn marked(alloc: Global, key: u64, value: u64, strong: u64) -> Option<SmallHeap>
    requires key { IsEither key }
    requires value { IsEither value }
    requires strong { IsEither strong }
    requires pair { (key ≡ 0) ↔ (value ≡ 0) }
    ensures { IfSome result (λ heap. IsMarkingSmallHeap heap.space
        (arc_value heap.types) heap.seat) }
{
    let mut heap = made(alloc)?;
    write(&heap.space, &mut heap.seat, key, value, strong);
    heap.space.set_stop(&mut heap.seat, false);
    heap.space.mark(&mut heap.seat, HOLDER);
    Some(heap)
}

/// The owner's list, and a share of it.
#[derive(Drop)]
pub struct Lists {
    pub list: SharedList,
    pub share: Share,
}

/// Two lists without items.
pub fn two_lists(alloc: Global) -> Option<Lists> {
    let Ok((list, mut shares)) = SharedList::new(alloc, 1) else {
        return None;
    };
    let share = shares.pop()?;
    Some(Lists { list, share })
}

/// What a drain with a new seat tells.
fn drained_once(heap: &mut SmallHeap, share: &mut Share, notes: &mut Pairs) -> Drained
    requires { IsMarkingSmallHeap heap.old.space (arc_value heap.old.types) heap.old.seat }
    ensures { IsMarkingSmallHeap heap.new.space (arc_value heap.new.types) heap.new.seat }
{
    let mut marker = heap.space.words().split(&mut heap.seat);
    let told = drain(
        heap.space.words(),
        &heap.types,
        &mut marker,
        share,
        notes,
        10,
        1,
        &FreeGate,
    );
    heap.space.words().join(&mut heap.seat, marker);
    told
}

/// What a drain tells, how many pairs it noted, and whether the other object is marked after it.
fn drained(alloc: Global, key: u64, value: u64, strong: u64) -> Option<(Drained, usize, bool)>
    requires key { IsEither key }
    requires value { IsEither value }
    requires strong { IsEither strong }
    requires pair { (key ≡ 0) ↔ (value ≡ 0) }
{
    let mut heap = marked(alloc, key, value, strong)?;
    let mut lists = two_lists(alloc)?;
    if lists.list.push(HOLDER).is_err() {
        return None;
    }
    let mut notes = Pairs::new(alloc);
    let told = drained_once(&mut heap, &mut lists.share, &mut notes);
    Some((told, notes.count(), is_other_marked(&mut heap)))
}

/// Whether a drain traces so many objects to the end, notes so many pairs, and marks the other object
/// or not.
fn drains(found: Option<(Drained, usize, bool)>, traced: u32, noted: usize, marked: bool) -> bool {
    let told = Drained {
        traced,
        more: false,
        overflow: false,
    };
    found == Some((told, noted, marked))
}

#[test]
fn null_fields_lead_nowhere(rt: HostRuntime) {
    assert!(rt; drains(drained(rt.alloc(), 0, 0, 0), 1, 0, false));
}

#[test]
fn strong_target_is_marked_and_traced(rt: HostRuntime) {
    assert!(rt; drains(drained(rt.alloc(), 0, 0, 257), 2, 0, true));
}

#[test]
fn value_of_a_marked_key_is_marked_and_traced(rt: HostRuntime) {
    assert!(rt; drains(drained(rt.alloc(), 1, 257, 0), 2, 0, true));
}

#[test]
fn pair_of_an_unmarked_key_is_noted(rt: HostRuntime) {
    assert!(rt; drains(drained(rt.alloc(), 257, 1, 0), 1, 1, false));
}

/// A marker's seat and its share of the lists.
#[derive(Drop)]
struct Marker {
    seat: MarkerSeat,
    share: Share,
}

/// The owner's list with the first object, and two shares of it.
#[derive(Drop)]
struct ThreeLists {
    list: SharedList,
    first: Share,
    second: Share,
}

fn three_lists(alloc: Global) -> Option<ThreeLists> {
    let Ok((mut list, mut shares)) = SharedList::new(alloc, 2) else {
        return None;
    };
    if list.push(HOLDER).is_err() {
        return None;
    }
    let second = shares.pop()?;
    let first = shares.pop()?;
    Some(ThreeLists {
        list,
        first,
        second,
    })
}

/// Two markers, a seat that nobody uses, and the owner's list.
#[derive(Drop)]
struct TwoMarkers {
    list: SharedList,
    one: Marker,
    other: Marker,
    idle: MarkerSeat,
}

/// Lends three seats, two of them with the shares.
fn two_markers(heap: &mut SmallHeap, lists: ThreeLists) -> TwoMarkers
    requires { IsMarkingSmallHeap heap.old.space (arc_value heap.old.types) heap.old.seat }
    ensures marking { IsMarkingSmallHeap heap.new.space (arc_value heap.new.types) heap.new.seat }
    ensures one { IsNewSeat heap.new.seat result.one.seat }
    ensures other { IsNewSeat heap.new.seat result.other.seat }
    ensures idle { IsNewSeat heap.new.seat result.idle }
{
    let ThreeLists {
        list,
        first,
        second,
    } = lists;
    let one = heap.space.words().split(&mut heap.seat);
    let other = heap.space.words().split(&mut heap.seat);
    let idle = heap.space.words().split(&mut heap.seat);
    TwoMarkers {
        list,
        one: Marker {
            seat: one,
            share: first,
        },
        other: Marker {
            seat: other,
            share: second,
        },
        idle,
    }
}

/// How many objects a marker claims and traces.
fn traced_by(
    alloc: Global,
    words: &Words,
    types: &TypeTable,
    mut marker: Marker,
    worker: u32,
) -> u32
    requires heap { marker.seat.heap ≡ words.now }
    requires types { types.now ≡ marker.seat.types }
    requires hand { marker.seat.hand ≡ None }
{
    let mut notes = Pairs::new(alloc);
    let told = drain(
        words,
        types,
        &mut marker.seat,
        &mut marker.share,
        &mut notes,
        10,
        worker,
        &FreeGate,
    );
    told.traced
}

/// The same of two markers, each on a thread of its own.
fn traced_by_two<R: Threads + Sync>(
    rt: &R,
    alloc: Global,
    words: &Words,
    types: &TypeTable,
    one: Marker,
    other: Marker,
) -> (u32, u32)
    requires one_heap { one.seat.heap ≡ words.now }
    requires one_types { types.now ≡ one.seat.types }
    requires one_hand { one.seat.hand ≡ None }
    requires other_heap { other.seat.heap ≡ words.now }
    requires other_types { types.now ≡ other.seat.types }
    requires other_hand { other.seat.hand ≡ None }
{
    thread::join(
        rt,
        || traced_by(alloc, words, types, one, 1),
        || traced_by(alloc, words, types, other, 2),
    )
}

/// What two markers drain on two threads: how many objects each traces, and whether the other object
/// is marked then.
fn drained_by_two<R: Threads + Sync>(rt: &R, alloc: Global) -> Option<(u32, u32, bool)> {
    let mut heap = marked(alloc, 0, 0, 257)?;
    let lists = three_lists(alloc)?;
    let TwoMarkers {
        list: _list,
        one,
        other,
        idle,
    } = two_markers(&mut heap, lists);
    let (a, b) = traced_by_two(rt, alloc, heap.space.words(), &heap.types, one, other);
    heap.space.words().join(&mut heap.seat, idle);
    Some((a, b, is_other_marked(&mut heap)))
}

/// Whether the two trace two objects together, and the other one is marked then.
fn traces_both(found: Option<(u32, u32, bool)>) -> bool {
    match found {
        Some((one, other, true)) => one.saturating_add(other) == 2,
        _ => false,
    }
}

/// Whether they do so each time.
fn trace_each_once<R: Threads + Sync>(rt: &R, alloc: Global) -> bool {
    for _try in 0..TRIES {
        if !traces_both(drained_by_two(rt, alloc)) {
            return false;
        }
    }
    true
}

#[test]
fn two_markers_trace_each_object_once(rt: HostRuntime) {
    assert!(rt; trace_each_once(&rt, rt.alloc()));
}
