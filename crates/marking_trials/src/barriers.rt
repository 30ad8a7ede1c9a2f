// Three objects, each with a strong field and a pair, while marking goes on.

ghost use Rattle.std.specs.Prelude.{ℕ, ◌+◌, IfSome};
ghost use Rattle.marker_core.specs.Bodies.{IsPlace, IsReference};
ghost use Rattle.marking_trials.specs.ThreeObjects.{AreThree, AreYoung, IsYoung};

use crate::small_heap::one_type;
use gc_graph::Kind;
use mark_worklist::{Marking, Worklist};
use member_fields::{set, set_pair};
use object_headers::reference_to;
use page_space::Space;
use page_words::MutatorSeat;
use std::alloc::Global;

/// The words of an object: a header, a serial number, the strong field, and the pair's two.
const SIZE: u32 = 5;

const STRONG: u32 = 2;

const PAIR: u32 = 3;

/// The heap, what its owner lists, and where the objects stand.
#[derive(Drop)]
struct Three {
    space: Space,
    seat: MutatorSeat,
    marking: Marking,
    first: u32,
    second: u32,
    third: u32,
}

/// The heap without objects.
fn empty(alloc: Global) -> Option<Three>
    ensures { IfSome result (λ three. IsYoung three.space three.seat 1) }
{
    let Ok(types) = one_type(alloc, Kind::Strong, Kind::Pair) else {
        return None;
    };
    let Ok((list, _)) = Worklist::new(alloc, 0) else {
        return None;
    };
    let Ok((space, seat)) = Space::new(alloc, 4, 256, &types) else {
        return None;
    };
    let marking = Marking {
        on: false,
        overflow: false,
        list,
    };
    Some(Three {
        space,
        seat,
        marking,
        first: 0,
        second: 0,
        third: 0,
    })
}

/// Makes an object in a page of its own.
fn make(space: &mut Space, seat: &mut MutatorSeat, number: u32) -> Option<u32>
    requires young { IsYoung space.old seat.old number }
    ensures young { IfSome result (λ place. IsYoung space.new seat.new (number + 1)) }
    ensures made { IfSome result (IsPlace seat.new.bodies) }
    ensures kept { (p : ℕ) → IsPlace seat.old.bodies p → IsPlace seat.new.bodies p }
{
    let place = space.find_empty(seat, SIZE)?;
    space.occupy(seat, place, 0, SIZE, number);
    Some(place)
}

/// Makes the three.
fn make_three(three: &mut Three) -> Option<()>
    requires { IsYoung three.old.space three.old.seat 1 }
    ensures { IfSome result (λ done. AreYoung three.new.space three.new.seat
        three.new.first three.new.second three.new.third) }
{
    let first = make(&mut three.space, &mut three.seat, 1)?;
    let second = make(&mut three.space, &mut three.seat, 2)?;
    let third = make(&mut three.space, &mut three.seat, 3)?;
    three.first = first;
    three.second = second;
    three.third = third;
    Some(())
}

/// Begins marking. All objects may be kept.
fn begin(three: &mut Three)
    requires { AreYoung three.old.space three.old.seat
        three.old.first three.old.second three.old.third }
    ensures { AreThree three.new.space three.new.seat three.new.marking.on
        three.new.first three.new.second three.new.third }
{
    three.seat.bodies_lie_apart();
    three.space.words().set_stop(&mut three.seat, false);
    three.marking.on = true;
}

/// Writes the strong field of the first object. How many places are listed then.
fn write(three: &mut Three, target: u64) -> usize
    requires three { AreThree three.old.space three.old.seat three.old.marking.on
        three.old.first three.old.second three.old.third }
    requires target { IsReference three.old.seat.bodies target }
    ensures { AreThree three.new.space three.new.seat three.new.marking.on
        three.new.first three.new.second three.new.third }
{
    set(
        &three.space,
        &mut three.seat,
        &mut three.marking,
        three.first,
        STRONG,
        target,
    );
    three.marking.list.len()
}

/// The same with the second object.
fn write_second(three: &mut Three) -> usize
    requires { AreThree three.old.space three.old.seat three.old.marking.on
        three.old.first three.old.second three.old.third }
    ensures { AreThree three.new.space three.new.seat three.new.marking.on
        three.new.first three.new.second three.new.third }
{
    let target = reference_to(three.second);
    write(three, target)
}

/// Writes the pair of the first object, with the second as key and the third as value. How many places
/// are listed then.
fn write_pair(three: &mut Three) -> usize
    requires { AreThree three.old.space three.old.seat three.old.marking.on
        three.old.first three.old.second three.old.third }
    ensures { AreThree three.new.space three.new.seat three.new.marking.on
        three.new.first three.new.second three.new.third }
{
    type_table::fields_stand_apart();
    let key = reference_to(three.second);
    let value = reference_to(three.third);
    set_pair(
        &three.space,
        &mut three.seat,
        &mut three.marking,
        three.first,
        PAIR,
        key,
        value,
    );
    three.marking.list.len()
}

/// Which of the three are marked.
fn marks(three: &mut Three) -> [bool; 3]
    requires { AreThree three.old.space three.old.seat three.old.marking.on
        three.old.first three.old.second three.old.third }
{
    [
        three.space.header_at(&mut three.seat, three.first).mark,
        three.space.header_at(&mut three.seat, three.second).mark,
        three.space.header_at(&mut three.seat, three.third).mark,
    ]
}

/// Of three objects: how many places are listed after a strong field of the first was written with
/// the second, again with it, and with null, and after its pair was written with the second as key and
/// the third as value; and which of the three are marked then.
fn told(alloc: Global) -> Option<([usize; 4], [bool; 3])> {
    let mut three = empty(alloc)?;
    make_three(&mut three)?;
    begin(&mut three);
    let first = write_second(&mut three);
    let again = write_second(&mut three);
    let null = write(&mut three, 0);
    let paired = write_pair(&mut three);
    Some(([first, again, null, paired], marks(&mut three)))
}

#[test]
fn target_is_marked_and_listed_once(rt: HostRuntime) {
    let expected = Some(([1, 1, 1, 2], [false, true, true]));
    assert!(rt; told(rt.alloc()) == expected);
}
