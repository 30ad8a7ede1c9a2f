// A heap with one marked object, which two markers on two threads claim at once.

ghost use Rattle.std.specs.Prelude.{◌≡◌, true, [], ◌∷◌, IfOk};
ghost use Rattle.gc_graph.specs.State.{no_type};
ghost use Rattle.marker_core.specs.SeatSteps as steps;
ghost use Rattle.marker_core.specs.Views.{fresh_view};

use gc_graph::NoMemory;
use object_headers::Header;
use page_words::{MarkerSeat, MutatorSeat, Words};
use std::alloc::Global;
use std::thread;
use std::thread::Threads;
use type_table::{TypeDecl, TypeTable};

/// So often two markers claim the object of a new heap.
const TRIES: u32 = 300;

/// The words of a heap with one object, at 0, which is marked, while marking goes on.
fn marked(alloc: Global) -> Result<(Words, MutatorSeat), NoMemory>
    ensures heap { IfOk result (λ made. made.1.heap ≡ made.0) }
    ensures on { IfOk result (λ made. made.1.on ≡ true) }
{
    let types = plain_type(alloc)?;
    let (words, mut seat) = Words::new(alloc, 256, &types)?;
    words.fill(&mut seat, 0, Header::pack(true, false, false, 0, 2));
    words.fill(&mut seat, 1, 7);
    words.publish(&mut seat, 0);
    words.set_stop(&mut seat, false);
    words.mark(&mut seat, 0);
    Ok((words, seat))
}

/// A table of one type without fields.
fn plain_type(alloc: Global) -> Result<TypeTable, NoMemory>
    ensures { IfOk result (λ types. types ≡ no_type ∷ []) }
{
    let mut types = Vec::new(alloc);
    types.push(TypeDecl::new(Vec::new(alloc), Vec::new(alloc), Vec::new(alloc)))?;
    let Ok(types) = TypeTable::new(alloc, types, 0) else {
        return Err(NoMemory);
    };
    Ok(types)
}

/// Whether a marker that knows nothing yet claims the object at 0.
fn claims(words: &Words, mut seat: MarkerSeat) -> bool
    requires heap { seat.heap ≡ words.now }
    requires fresh { seat.marker ≡ fresh_view }
{
    seat.places_are_within();
    if !words.is_start(&mut seat, 0) {
        return false;
    }
    let header = words.header(&mut seat, 0);
    is_grey(header) && words.claim_as(&mut seat, 0, header)
}

/// Whether a header has the mark and not the traced bit.
pub(crate) fn is_grey(header: u64) -> bool
    ensures { result ≡ steps.is_grey header }
{
    header / 2 % 2 == 1 && header / 4 % 2 != 1
}

/// Whether each of two markers that claim the same object at once gets it.
fn both_claim<R: Threads + Sync>(
    rt: &R,
    words: &Words,
    first: MarkerSeat,
    second: MarkerSeat,
) -> (bool, bool)
    requires heaps { (first.heap ≡ words.now) × (second.heap ≡ words.now) }
    requires fresh { (first.marker ≡ fresh_view) × (second.marker ≡ fresh_view) }
{
    thread::join(
        rt,
        move || claims(words, first),
        move || claims(words, second),
    )
}

/// Whether just one of two markers gets the object of the heap.
fn one_gets_it<R: Threads + Sync>(rt: &R, words: &Words, seat: &mut MutatorSeat) -> bool
    requires heap { seat.old.heap ≡ words.now }
    requires on { seat.old.on ≡ true }
{
    let idle = words.split(seat);
    let first = words.split(seat);
    let second = words.split(seat);
    let (one, other) = both_claim(rt, words, first, second);
    words.join(seat, idle);
    one != other
}

/// Whether this is so of a new heap.
fn one_gets_a_new_one<R: Threads + Sync>(rt: &R, alloc: Global) -> bool {
    match marked(alloc) {
        Ok((words, mut seat)) => one_gets_it(rt, &words, &mut seat),
        Err(_) => false,
    }
}

/// Whether it is so each time.
fn one_gets_each<R: Threads + Sync>(rt: &R, alloc: Global) -> bool {
    for _try in 0..TRIES {
        if !one_gets_a_new_one(rt, alloc) {
            return false;
        }
    }
    true
}

#[test]
fn one_of_two_markers_gets_an_object(rt: HostRuntime) {
    assert!(rt; one_gets_each(&rt, rt.alloc()));
}
