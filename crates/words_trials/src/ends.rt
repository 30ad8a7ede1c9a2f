// Calls on the first and on the last words of a heap, on one page of 256 words.

ghost use Rattle.std.specs.Prelude.{◌≡◌, ◌≤◌, true, false, IfSome};
ghost use Rattle.page_words.specs.Seat.{IsQuiet, OnlyLooked};
ghost use Rattle.page_space.specs.Space.{IsSeatOf};
ghost use Rattle.words_trials.specs.Ends.{AreEnds, IsEnd};

use crate::aged::two_types;
use page_space::Space;
use page_words::{Bodywords, MutatorSeat, Reading};
use std::alloc::Global;

/// The places of an object at the first word, and of one that ends with the last: three words each.
const FIRST: u32 = 0;

const LAST: u32 = 253;

/// The header of either while it is marked and not yet traced: live, marked, type 1, three words.
const GREY: u64 = 393227;

/// Both objects, before marking.
fn made(alloc: Global) -> Option<(Space, MutatorSeat)>
    ensures ends { IfSome result (λ made. AreEnds made.0 made.1 false 0 0) }
    ensures quiet { IfSome result (λ made. IsQuiet made.1) }
{
    let Ok(types) = two_types(alloc) else {
        return None;
    };
    let Ok((mut space, mut seat)) = Space::new(alloc, 1, 256, &types) else {
        return None;
    };
    let place = space.find_empty(&mut seat, 3)?;
    if place != FIRST {
        return None;
    }
    space.occupy(&mut seat, place, 1, 3, 7);
    space.occupy(&mut seat, LAST, 1, 3, 8);
    Some((space, seat))
}

/// Stores a number in the second word of the heap's first object, and one in the heap's last word.
fn store(space: &Space, seat: &mut MutatorSeat)
    requires ends { AreEnds space.now seat.old false 0 0 }
    requires quiet { IsQuiet seat.old }
    ensures ends { AreEnds space.now seat.new false 5 9 }
    ensures quiet { IsQuiet seat.new }
{
    space.store(seat, FIRST + 2, 5);
    space.store(seat, LAST + 2, 9);
}

/// Begins marking. Both objects may be kept.
fn begin(space: &Space, seat: &mut MutatorSeat)
    requires ends { AreEnds space.now seat.old false 5 9 }
    requires quiet { IsQuiet seat.old }
    ensures ends { AreEnds space.now seat.new true 5 9 }
{
    space.set_stop(seat, false);
}

/// What two marks and two claims tell.
fn mark_and_claim(space: &Space, seat: &mut MutatorSeat, place: u32) -> [bool; 4]
    requires ends { AreEnds space.now seat.old true 5 9 }
    requires place { IsEnd place }
    ensures ends { AreEnds space.now seat.new true 5 9 }
{
    let fresh = space.mark(seat, place);
    let again = space.mark(seat, place);
    let grey = space.claim(seat, place, GREY);
    let claimed = space.claim(seat, place, GREY);
    [fresh, again, grey, claimed]
}

/// Ends marking.
fn end(space: &Space, seat: &mut MutatorSeat)
    requires ends { AreEnds space.now seat.old true 5 9 }
    ensures ends { AreEnds space.now seat.new false 5 9 }
{
    space.set_stop(seat, true);
}

/// Clears the mark of an object.
fn unmark(space: &Space, seat: &mut MutatorSeat, place: u32)
    requires ends { AreEnds space.now seat.old false 5 9 }
    requires place { IsEnd place }
    ensures ends { AreEnds space.now seat.new false 5 9 }
{
    space.unmark(seat, place);
}

/// Two words, of the heap, of the start bits, or the stop word.
fn words(space: &Space, seat: &mut MutatorSeat, a: u32, b: u32) -> [u64; 2]
    requires heap { IsSeatOf space.now seat.old }
    requires count { seat.old.count ≡ 256 }
    requires first { a ≤ 260 }
    requires second { b ≤ 260 }
    ensures view { OnlyLooked seat.old seat.new }
    ensures going { AreEnds space.now seat.old true 5 9 → AreEnds space.now seat.new true 5 9 }
    ensures over { AreEnds space.now seat.old false 5 9 → AreEnds space.now seat.new false 5 9 }
{
    let first = space.load::<Reading>(seat, a);
    let second = space.load::<Reading>(seat, b);
    [first, second]
}

/// What the calls told, the headers after each, and then fields, serial numbers and start bits.
#[derive(Clone, Copy)]
struct Told {
    first: [bool; 4],
    last: [bool; 4],
    headers: [[u64; 2]; 4],
    fields: [u64; 2],
    serials: [u64; 2],
    starts: [u64; 2],
}

fn tried(space: &Space, seat: &mut MutatorSeat) -> Told
    requires ends { AreEnds space.now seat.old false 0 0 }
    requires quiet { IsQuiet seat.old }
{
    store(space, seat);
    begin(space, seat);
    let first = mark_and_claim(space, seat, FIRST);
    let one_traced = words(space, seat, FIRST, LAST);
    let last = mark_and_claim(space, seat, LAST);
    let both_traced = words(space, seat, FIRST, LAST);
    end(space, seat);
    unmark(space, seat, LAST);
    let one_left = words(space, seat, FIRST, LAST);
    unmark(space, seat, FIRST);
    let none_left = words(space, seat, FIRST, LAST);
    Told {
        first,
        last,
        headers: [one_traced, both_traced, one_left, none_left],
        fields: words(space, seat, FIRST + 2, LAST + 2),
        serials: words(space, seat, FIRST + 1, LAST + 1),
        starts: words(space, seat, 256, 259),
    }
}

fn is_told(told: Told) -> bool {
    told.first == [true, false, true, false]
        && told.last == [true, false, true, false]
        && have_headers(told.headers)
        && told.fields == [5, 9]
        && told.serials == [7, 8]
        && told.starts == [1, 2305843009213693952]
}

fn have_headers(headers: [[u64; 2]; 4]) -> bool {
    headers[0] == [393231, 393225]
        && headers[1] == [393231, 393231]
        && headers[2] == [393231, 393225]
        && headers[3] == [393225, 393225]
}

/// Whether this is told of a new heap.
fn is_told_of_a_new_heap(alloc: Global) -> bool {
    match made(alloc) {
        Some((space, mut seat)) => is_told(tried(&space, &mut seat)),
        None => false,
    }
}

/// A live header of type 1 and size 3 is 393225, and with both bits 393231. Place 253 is bit 61 of
/// the last word of start bits.
#[test]
fn first_and_last_words_are_those_worked_out_by_hand(rt: HostRuntime) {
    assert!(rt; is_told_of_a_new_heap(rt.alloc()));
}
