// Crews of markers, and the owner's step, on a heap of two objects of which the first is marked.

ghost use Rattle.std.specs.Prelude.{◌≡◌, ◌≤◌, true, length, replicate, All, IfSome};
ghost use Rattle.std.specs.Arc.{arc_value};
ghost use Rattle.marker_core.specs.Bodies.{IsPlace};
ghost use Rattle.page_words.specs.Markers.{new_marker};
ghost use Rattle.page_space.specs.Space.{IsSeatOf, heap_of};
ghost use Rattle.marking_trials.specs.SmallHeap.{IsMarkingSmallHeap};
ghost use Rattle.marking_trials.specs.Seats.{AreSharesOf, AreSameShares, new_crew};

use crate::draining::{Lists, marked, two_lists};
use crate::small_heap::{HOLDER, SmallHeap, is_other_marked};
use mark_worklist::{Share, SharedList, Tally};
use marker_crew::{Crew, CrewResult, Drained, FreeGate, Gate, step_beside};
use page_words::{MarkerSeat, MutatorSeat, Words};
use pair_notes::Pairs;
use std::alloc::Global;
use std::sync::Arc;
use std::sync::atomic::{AtomicU64, Ordering};
use std::thread;
use std::thread::Threads;

/// So often a thread looks whether another one came.
const TURNS: u32 = 1 << 24;

/// Seats for so many markers.
fn lent(alloc: Global, words: &Words, seat: &mut MutatorSeat, count: u32) -> Option<Vec<MarkerSeat>>
    requires heap { seat.old.heap ≡ words.now }
    requires on { seat.old.on ≡ true }
    ensures heap { seat.new.heap ≡ seat.old.heap }
    ensures types { seat.new.types ≡ seat.old.types }
    ensures on { seat.new.on ≡ true }
    ensures bodies { seat.new.bodies ≡ seat.old.bodies }
    ensures made { IfSome result (λ made. made.items ≡ replicate count (new_marker seat.old)) }
{
    let Ok(mut made) = Vec::with_capacity(alloc, count as usize) else {
        return None;
    };
    for _marker in 0..count {
        made.push_reserved(words.split(seat));
    }
    Some(made)
}

/// A crew, and the owner's list of which its markers have shares.
#[derive(Drop)]
struct Team {
    list: SharedList,
    crew: Crew,
}

/// A crew of so many markers, with the first object on the owner's list, and the markers' shares.
fn team_of(alloc: Global, markers: u32) -> Option<(Team, Vec<Share>)>
    requires { markers ≤ 8 }
    ensures shares { IfSome result (λ made. AreSharesOf markers made.0.list made.1.items) }
    ensures crew { IfSome result (λ made. made.0.crew ≡ new_crew markers) }
{
    let Ok((mut list, shares)) = SharedList::new(alloc, markers) else {
        return None;
    };
    if list.push(HOLDER).is_err() {
        return None;
    }
    let Ok(crew) = Crew::new(alloc, markers) else {
        return None;
    };
    Some((Team { list, crew }, shares))
}

/// What the markers of a crew tell after they drained the lists.
fn run<R: Threads>(
    rt: &R,
    alloc: Global,
    heap: &mut SmallHeap,
    crew: &mut Crew,
    shares: Vec<Share>,
    markers: u32,
) -> Option<CrewResult>
    requires marking { IsMarkingSmallHeap heap.old.space (arc_value heap.old.types) heap.old.seat }
    requires crew { crew.old ≡ new_crew markers }
    requires shares { length shares.items ≡ markers }
    ensures heap { IfSome result (λ told. IsSeatOf heap.new.space heap.new.seat) }
    ensures other { IfSome result (λ told. IsPlace heap.new.seat.bodies 256) }
    ensures shares { IfSome result (λ told. AreSameShares shares.items crew.new.shares) }
{
    let Ok(gate) = Arc::new(alloc, FreeGate) else {
        return None;
    };
    let seats = lent(alloc, heap.space.words(), &mut heap.seat, markers)?;
    crew.start(rt, heap.space.words(), &heap.types, seats, shares, &gate);
    let told = crew.join(rt, heap.space.words(), &mut heap.seat);
    Some(told)
}

/// What a crew of so many markers tells after it drained the lists, what is told of these then, and
/// whether the other object is marked.
fn crewed<R: Threads>(rt: &R, alloc: Global, markers: u32) -> Option<(CrewResult, Tally, bool)>
    requires { markers ≤ 8 }
{
    let mut heap = marked(alloc, 0, 0, 257)?;
    let (mut team, shares) = team_of(alloc, markers)?;
    let told = run(rt, alloc, &mut heap, &mut team.crew, shares, markers)?;
    let tally = team.list.finish(team.crew.shares());
    Some((told, tally, is_other_marked(&mut heap)))
}

/// Whether a crew of so many markers traces each object once, and leaves no item.
fn traces_each<R: Threads>(rt: &R, alloc: Global, markers: u32) -> bool
    requires { markers ≤ 8 }
{
    let told = CrewResult {
        traced: 2,
        overflow: false,
    };
    let tally = Tally {
        pushed: 2,
        taken: 2,
        left: 0,
    };
    crewed(rt, alloc, markers) == Some((told, tally, true))
}

#[test]
fn crews_trace_each_object_once(rt: HostRuntime) {
    assert!(rt; traces_each(&rt, rt.alloc(), 1));
    assert!(rt; traces_each(&rt, rt.alloc(), 3));
    assert!(rt; traces_each(&rt, rt.alloc(), 8));
}

#[test]
fn crew_without_markers_leaves_all(rt: HostRuntime) {
    let told = CrewResult {
        traced: 0,
        overflow: false,
    };
    let tally = Tally {
        pushed: 1,
        taken: 0,
        left: 1,
    };
    assert!(rt; crewed(&rt, rt.alloc(), 0) == Some((told, tally, false)));
}

/// What a step of so many objects tells.
fn step_once(heap: &mut SmallHeap, share: &mut Share, notes: &mut Pairs, most: u32) -> Drained
    requires { IsMarkingSmallHeap heap.old.space (arc_value heap.old.types) heap.old.seat }
    ensures { IsMarkingSmallHeap heap.new.space (arc_value heap.new.types) heap.new.seat }
{
    step_beside(
        heap.space.words(),
        &heap.types,
        &mut heap.seat,
        share,
        notes,
        most,
    )
}

/// What a step of one object and a second one tell, where the first object is listed twice, and how
/// many notes they make.
fn stepped(alloc: Global) -> Option<(Drained, Drained, usize)> {
    let mut heap = marked(alloc, 0, 0, 257)?;
    let mut lists = two_lists(alloc)?;
    if lists.share.push(HOLDER).is_err() || lists.share.push(HOLDER).is_err() {
        return None;
    }
    let mut notes = Pairs::new(alloc);
    let one = step_once(&mut heap, &mut lists.share, &mut notes, 1);
    let two = step_once(&mut heap, &mut lists.share, &mut notes, 5);
    Some((one, two, notes.count()))
}

#[test]
fn steps_end_with_their_objects_or_the_list(rt: HostRuntime) {
    let one = Drained {
        traced: 1,
        more: true,
        overflow: false,
    };
    let two = Drained {
        traced: 1,
        more: false,
        overflow: false,
    };
    assert!(rt; stepped(rt.alloc()) == Some((one, two, 0)));
}

/// Holds the first marker before a claim until it may go.
#[derive(Drop)]
struct HeldOnce {
    came: AtomicU64,
    may_go: AtomicU64,
}

impl Gate for HeldOnce {
    fn pass(&self, worker: u32, point: u32) {
        if worker == 1 && point == 1 {
            self.came.store(1, Ordering::SeqCst);
            await_one(&self.may_go);
        }
    }
}

/// Looks again and again until the word is 1, and so often at most.
fn await_one(word: &AtomicU64) {
    for _turn in 0..TURNS {
        if word.load(Ordering::SeqCst) == 1 {
            return;
        }
        thread::yield_now();
    }
}

/// A crew of one marker, and the gate that holds it.
#[derive(Drop)]
struct HeldCrew {
    crew: Crew,
    gate: Arc<HeldOnce>,
}

fn held_crew(alloc: Global) -> Option<HeldCrew>
    ensures { IfSome result (λ made. made.crew ≡ new_crew 1) }
{
    let gate = HeldOnce {
        came: AtomicU64::new(0),
        may_go: AtomicU64::new(0),
    };
    let Ok(gate) = Arc::new(alloc, gate) else {
        return None;
    };
    let Ok(crew) = Crew::new(alloc, 1) else {
        return None;
    };
    Some(HeldCrew { crew, gate })
}

/// A list with the first object twice, the owner's share of it, and the marker's.
fn listed_twice(alloc: Global) -> Option<(Lists, Vec<Share>)>
    ensures { IfSome result (λ made. length made.1.items ≡ 1) }
{
    let Ok((mut list, mut shares)) = SharedList::new(alloc, 2) else {
        return None;
    };
    let share = shares.pop()?;
    if list.push(HOLDER).is_err() || list.push(HOLDER).is_err() {
        return None;
    }
    Some((Lists { list, share }, shares))
}

/// Starts the marker.
fn start<R: Threads>(
    rt: &R,
    alloc: Global,
    heap: &mut SmallHeap,
    held: &mut HeldCrew,
    shares: Vec<Share>,
) -> Option<()>
    requires marking { IsMarkingSmallHeap heap.old.space (arc_value heap.old.types) heap.old.seat }
    requires crew { held.old.crew ≡ new_crew 1 }
    requires shares { length shares.items ≡ 1 }
    ensures marking { IfSome result (λ done.
        IsMarkingSmallHeap heap.new.space (arc_value heap.new.types) heap.new.seat) }
    ensures seats { IfSome result (λ done.
        All (λ m. m.seat.heap ≡ heap_of heap.new.space) held.new.crew.running) }
{
    let seats = lent(alloc, heap.space.words(), &mut heap.seat, 1)?;
    held.crew.start(
        rt,
        heap.space.words(),
        &heap.types,
        seats,
        shares,
        &held.gate,
    );
    Some(())
}

/// How many objects the owner traces while the marker is held, and how many the marker after it.
fn step_and_join<R: Threads>(
    rt: &R,
    heap: &mut SmallHeap,
    held: &mut HeldCrew,
    own: &mut Share,
) -> (u32, u32)
    requires marking { IsMarkingSmallHeap heap.old.space (arc_value heap.old.types) heap.old.seat }
    requires seats { All (λ m. m.seat.heap ≡ heap_of heap.old.space) held.old.crew.running }
{
    await_one(&held.gate.came);
    let found = step_beside(
        heap.space.words(),
        &heap.types,
        &mut heap.seat,
        own,
        held.crew.own_notes(),
        5,
    );
    held.gate.may_go.store(1, Ordering::SeqCst);
    let told = held.crew.join(rt, heap.space.words(), &mut heap.seat);
    (found.traced, told.traced)
}

/// How many objects the owner traced while a marker was held that had the first one in hand to claim
/// it, and how many the marker traced after it.
fn held<R: Threads>(rt: &R, alloc: Global) -> Option<(u32, u32)> {
    let mut heap = marked(alloc, 0, 0, 257)?;
    let mut held = held_crew(alloc)?;
    let (mut lists, shares) = listed_twice(alloc)?;
    start(rt, alloc, &mut heap, &mut held, shares)?;
    Some(step_and_join(rt, &mut heap, &mut held, &mut lists.share))
}

#[test]
fn owner_traces_what_a_held_marker_was_to_claim(rt: HostRuntime) {
    assert!(rt; held(&rt, rt.alloc()) == Some((2, 0)));
}
