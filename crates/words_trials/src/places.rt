// Small heaps whose places were worked out by hand.

ghost use Rattle.gc_graph.specs.Shapes.{IsShape};

use crate::aged::Aged;
use std::alloc::Global;

/// Objects of one bucket share a page, on four pages. Each line is a call, and what it tells. The
/// words are a header of type 1 and size 3, a serial number, a null, start bits and the stop word.
const SHARED: &str = "\
put 3|0
put 4|256
put 2|3
put 7|260
put 8|512
put 15|520
put 16|768
put 128|784
put 129|none
put 113|none
put 112|912
put 16|none
bucket 0|0
bucket 1|1
bucket 2|2
bucket 3|3
objects|9
used|295
pages|4
word 0|393225
word 1|7
word 2|0
word 1024|9
word 1028|17
word 1032|257
word 1036|65537
word 1038|65536
word 1040|0
";

/// Large objects take pages, of which there are eight.
const LARGE: &str = "\
put 129|0
put 256|256
put 257|512
put 128|1024
put 512|1280
put 513|none
put 256|1792
put 2|none
put 128|1152
bucket 0|4
bucket 1|4
bucket 2|4
bucket 3|4
bucket 4|3
bucket 5|4
bucket 6|4
bucket 7|4
objects|7
used|1666
pages|8
";

/// A hole is used again by what fits in it, on one page. Bits 0, 5 and 8 are set in 289, and the stop
/// word, the last, is 0 while marking goes on and 1 from its end.
const HOLE: &str = "\
put 3|0
put 2|3
put 3|5
condemn|0
word 260|1
free 1|3
used|6
put 3|8
starts|289
put 2|3
bucket 0|0
put 4|none
";

/// A page without objects has no bucket and holds nothing; two pages.
const EMPTY: &str = "\
holder 0|none
holder 511|none
put 512|0
holder 511|0
holder 512|none
condemn|0
free 0|0
put 400|0
bucket 1|4
holder 300|0
condemn|0
free 0|0
bucket 1|none
pages|0
holder 0|none
holder 300|none
put 200|0
put 4|256
holder 259|256
holder 260|none
";

/// Each word of an object is its own, and none beside it, however large the address; eight pages.
const HELD: &str = "\
put 3|0
put 2|3
put 7|256
put 4|263
put 15|512
put 8|527
put 100|768
put 20|868
put 600|1024
put 130|1792
holder 0|0
holder 2|0
holder 3|3
holder 4|3
holder 5|none
holder 255|none
holder 256|256
holder 262|256
holder 263|263
holder 266|263
holder 267|none
holder 526|512
holder 527|527
holder 534|527
holder 535|none
holder 867|768
holder 868|868
holder 887|868
holder 888|none
holder 1023|none
holder 1024|1024
holder 1279|1024
holder 1280|1024
holder 1623|1024
holder 1624|none
holder 1791|none
holder 1792|1792
holder 1921|1792
holder 1922|none
holder 2047|none
holder 2048|none
holder 4294967296|none
holder 4294967297|none
holder 18446744073709551615|none
";

/// The first and the last word of the heap, of the start bits, and the stop word after them, on one
/// page.
const ENDS: &str = "\
put 128|0
put 64|128
put 64|192
put 16|none
word 0|16777225
word 1|7
word 192|8388617
word 193|9
word 255|0
word 256|1
word 258|1
word 259|1
word 260|0
word 261|none
condemn|0
word 260|1
free 2|192
word 259|0
word 256|1
free 0|0
word 256|0
word 258|1
objects|1
";

/// Two heaps of one size, on one page each. Each line is a call on one of them, and what it tells.
const TWO: &str = "\
one put 3|0
other put 64|0
one put 3|3
one word 0|393225
other word 0|8388617
one word 256|9
other word 256|1
one condemn 0|0
one word 260|1
other word 260|0
";

/// Whether the call of a line tells what stands behind it.
fn is_right(heap: &mut Aged, line: &str) -> bool {
    let (call, told) = line.split_once('|').unwrap_or((line, ""));
    let (name, number) = call.split_once(' ').unwrap_or((call, "0"));
    heap.answer(name, number.parse().unwrap_or(0)) == told.parse().ok()
}

/// The number of the first line that is wrong of a heap.
fn first_wrong_line(heap: &mut Aged, lines: &str) -> Option<u32> {
    for (line, number) in lines.lines().zip(1u32..) {
        if !is_right(heap, line) {
            return Some(number);
        }
    }
    None
}

/// The same of a new heap of such pages.
fn first_wrong(alloc: Global, pages: u32, lines: &str) -> Option<u32>
    requires { IsShape (record { pages = pages; page_words = 256 }) }
{
    match Aged::new(alloc, pages, 256) {
        Ok(mut heap) => first_wrong_line(&mut heap, lines),
        Err(_) => Some(0),
    }
}

#[test]
fn places_and_holders_are_those_worked_out_by_hand(rt: HostRuntime) {
    let wrong = first_wrong(rt.alloc(), 4, SHARED)
        .or(first_wrong(rt.alloc(), 8, LARGE))
        .or(first_wrong(rt.alloc(), 1, HOLE))
        .or(first_wrong(rt.alloc(), 2, EMPTY))
        .or(first_wrong(rt.alloc(), 8, HELD))
        .or(first_wrong(rt.alloc(), 1, ENDS));
    assert_eq!(rt; wrong, None);
}

/// The number of the first line that is wrong of two heaps.
fn first_wrong_of_two(one: &mut Aged, other: &mut Aged) -> Option<u32> {
    for (line, number) in TWO.lines().zip(1u32..) {
        let (name, call) = line.split_once(' ').unwrap_or((line, ""));
        let right = match name {
            "one" => is_right(one, call),
            "other" => is_right(other, call),
            _ => false,
        };
        if !right {
            return Some(number);
        }
    }
    None
}

fn first_wrong_beside(alloc: Global, one: &mut Aged) -> Option<u32> {
    match Aged::new(alloc, 1, 256) {
        Ok(mut other) => first_wrong_of_two(one, &mut other),
        Err(_) => Some(0),
    }
}

fn first_wrong_of_new_ones(alloc: Global) -> Option<u32> {
    match Aged::new(alloc, 1, 256) {
        Ok(mut one) => first_wrong_beside(alloc, &mut one),
        Err(_) => Some(0),
    }
}

#[test]
fn two_heaps_of_one_size_do_not_meet(rt: HostRuntime) {
    assert_eq!(rt; first_wrong_of_new_ones(rt.alloc()), None);
}
