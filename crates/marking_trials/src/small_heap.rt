// A heap of two objects that were made by hand.

ghost use Rattle.std.specs.Prelude.{◌≡◌, ◌↔◌, true, IfOk, IfSome};
ghost use Rattle.std.specs.Arc.{arc_value};
ghost use Rattle.marker_core.specs.Bodies.{IsPlace};
ghost use Rattle.page_words.specs.Seat.{empty_view};
ghost use Rattle.page_space.specs.Space.{IsSeatOf, IsSpaceOf, heap_of};
ghost use Rattle.page_space.specs.Occupying.{IsNewNumber, Occupies, new_body};
ghost use Rattle.marking_trials.specs.SmallHeap.{pair_then_strong, two_fields, IsEither, IsSmallHeap};

use gc_graph::{Kind, NoMemory};
use page_space::Space;
use page_words::{Bodywords, MutatorSeat};
use std::alloc::Global;
use std::sync::Arc;
use type_table::{TypeDecl, TypeTable};

/// Where the object that is traced stands, and the other one.
pub const HOLDER: u32 = 0;

pub const OTHER: u32 = 256;

/// The heap with what its owner has of it.
#[derive(Drop)]
pub struct SmallHeap {
    pub space: Space,
    pub types: Arc<TypeTable>,
    pub seat: MutatorSeat,
}

/// One type with two fields.
pub fn one_type(alloc: Global, first: Kind, second: Kind) -> Result<TypeTable, NoMemory>
    ensures { IfOk result (λ types. types ≡ two_fields first second) }
{
    let mut fields = Vec::new(alloc);
    fields.push(first)?;
    fields.push(second)?;
    let mut types = Vec::new(alloc);
    types.push(TypeDecl::new(fields, Vec::new(alloc), Vec::new(alloc)))?;
    let Ok(types) = TypeTable::new(alloc, types, 0) else {
        return Err(NoMemory);
    };
    Ok(types)
}

/// One type with a pair and after it a strong field, for all who trace.
fn shared_type(alloc: Global) -> Option<Arc<TypeTable>>
    ensures { IfSome result (λ types. arc_value types ≡ pair_then_strong) }
{
    let Ok(types) = one_type(alloc, Kind::Pair, Kind::Strong) else {
        return None;
    };
    let Ok(shared) = Arc::new(alloc, types) else {
        return None;
    };
    Some(shared)
}

/// The heap without objects.
fn empty(alloc: Global) -> Option<SmallHeap>
    ensures space { IfSome result (λ heap. IsSpaceOf heap.space heap.seat) }
    ensures types { IfSome result (λ heap. arc_value heap.types ≡ pair_then_strong) }
    ensures view { IfSome result (λ heap.
        heap.seat ≡ empty_view (heap_of heap.space) pair_then_strong) }
{
    let types = shared_type(alloc)?;
    let Ok((space, seat)) = Space::new(alloc, 2, 256, &types) else {
        return None;
    };
    Some(SmallHeap { space, types, seat })
}

/// Makes an object with null fields, if the place is the next one.
fn put(space: &mut Space, seat: &mut MutatorSeat, place: u32, serial: u32) -> bool
    requires space { IsSpaceOf space.old seat.old }
    requires types { seat.old.types ≡ pair_then_strong }
    requires number { IsNewNumber seat.old serial }
    ensures put { result ≡ true → Occupies seat.old seat.new (new_body place 0 5 serial) }
    ensures space { result ≡ true → IsSpaceOf space.new seat.new }
{
    match space.find_empty(seat, 5) {
        Some(a) => {
            if a != place {
                return false;
            }
            space.occupy(seat, a, 0, 5, serial);
            true
        }
        None => false,
    }
}

/// The heap before marking.
pub fn made(alloc: Global) -> Option<SmallHeap>
    ensures space { IfSome result (λ heap. IsSeatOf heap.space heap.seat) }
    ensures types { IfSome result (λ heap. arc_value heap.types ≡ pair_then_strong) }
    ensures small { IfSome result (λ heap. IsSmallHeap heap.seat 0 0 0) }
{
    let mut heap = empty(alloc)?;
    if !put(&mut heap.space, &mut heap.seat, HOLDER, 1) {
        return None;
    }
    if !put(&mut heap.space, &mut heap.seat, OTHER, 2) {
        return None;
    }
    Some(heap)
}

/// Writes the fields of the first object: the value goes in before its key.
pub fn write(space: &Space, seat: &mut MutatorSeat, key: u64, value: u64, strong: u64)
    requires heap { IsSeatOf space.now seat.old }
    requires small { IsSmallHeap seat.old 0 0 0 }
    requires key { IsEither key }
    requires value { IsEither value }
    requires strong { IsEither strong }
    requires pair { (key ≡ 0) ↔ (value ≡ 0) }
    ensures heap { seat.new.heap ≡ seat.old.heap }
    ensures small { IsSmallHeap seat.new key value strong }
{
    seat.bodies_lie_apart();
    space.store(seat, HOLDER + 3, value);
    seat.bodies_lie_apart();
    space.store(seat, HOLDER + 2, key);
    seat.bodies_lie_apart();
    space.store(seat, HOLDER + 4, strong);
}

/// Whether the other object is marked.
pub fn is_other_marked(heap: &mut SmallHeap) -> bool
    requires heap { IsSeatOf heap.old.space heap.old.seat }
    requires other { IsPlace heap.old.seat.bodies 256 }
{
    heap.space.header_at(&mut heap.seat, OTHER).mark
}
