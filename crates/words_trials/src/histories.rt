// Random lives of heaps, in which each answer of the search is also that of the plain search.

ghost use Rattle.std.specs.Prelude.{◌^◌, ◌<◌, ◌≤◌};
ghost use Rattle.gc_graph.specs.Shapes.{IsShape};

use crate::aged::Aged;
use std::alloc::Global;

/// How many objects were made, found no place, and were freed, and how many comparisons failed.
#[derive(Clone, Copy)]
struct Counts {
    made: u32,
    refused: u32,
    freed: u32,
    wrong: u32,
}

/// A number below `end` that looks random: the last one becomes 74 more than 75 times itself, modulo
/// 65537.
fn below(last: &mut u32, end: u32) -> u32
    requires { 0 < end }
    ensures { result < end }
{
    *last = ((u64::from(*last) * 75 + 74) % 65537) as u32;
    *last % end
}

/// A random size, often of one of the small buckets and at times a large one.
fn size(last: &mut u32, page_words: u32) -> u32
    requires least { 256 ≤ page_words }
    requires most { page_words ≤ 1024 }
    ensures least { 2 ≤ result }
    ensures most { result < 2 ^ 26 }
{
    match below(last, 16) {
        0..=3 => 2 + below(last, 2),
        4..=7 => 4 + below(last, 4),
        8..=11 => 8 + below(last, 8),
        12..=14 => 16 + below(last, page_words / 2 - 15),
        _ => page_words / 2 + 1 + below(last, 2 * page_words),
    }
}

/// Frees a dead object or makes a new one. At each fourth that finds no place all are condemned.
fn step(heap: &mut Aged, last: &mut u32, counts: &mut Counts, size: u32)
    requires least { 2 ≤ size }
    requires most { size < 2 ^ 26 }
{
    if heap.has_dead() && below(last, 2) == 0 {
        heap.free(below(last, 65536));
        counts.freed = counts.freed.saturating_add(1);
    } else if !agrees(heap, last, size) {
        counts.wrong = counts.wrong.saturating_add(1);
    } else if heap.put(size).is_some() {
        counts.made = counts.made.saturating_add(1);
    } else {
        counts.refused = counts.refused.saturating_add(1);
        if counts.refused % 4 == 0 {
            heap.condemn();
        }
    }
}

/// Whether the space and the plain search answer the same in all pages, in some, and of one.
fn agrees(heap: &mut Aged, last: &mut u32, size: u32) -> bool
    requires least { 2 ≤ size }
    requires most { size < 2 ^ 26 }
{
    let from = below(last, 9);
    let to = below(last, 9);
    heap.agrees(size, 0, 8)
        && heap.agrees(size, from, to)
        && heap.agrees_on_empty(size)
        && heap.agrees_on_page(from)
}

/// So many steps of a heap.
fn lived(heap: &mut Aged, page_words: u32, seed: u32) -> Counts
    requires least { 256 ≤ page_words }
    requires most { page_words ≤ 1024 }
{
    let mut last = seed;
    let mut counts = Counts {
        made: 0,
        refused: 0,
        freed: 0,
        wrong: 0,
    };
    for _step in 0..300 {
        let size = size(&mut last, page_words);
        step(heap, &mut last, &mut counts, size);
    }
    counts
}

/// Whether the life of a new heap is right, and came to a full heap again and again.
fn is_right(alloc: Global, pages: u32, page_words: u32, seed: u32) -> bool
    requires shape { IsShape (record { pages = pages; page_words = page_words }) }
    requires least { 256 ≤ page_words }
    requires most { page_words ≤ 1024 }
{
    match Aged::new(alloc, pages, page_words) {
        Ok(mut heap) => {
            let counts = lived(&mut heap, page_words, seed);
            let full = counts.made > 99 && counts.refused > 9 && counts.freed > 49;
            full && counts.wrong == 0
        }
        Err(_) => false,
    }
}

/// Whether two lives of such pages are.
fn are_right(alloc: Global, pages: u32, page_words: u32) -> bool
    requires shape { IsShape (record { pages = pages; page_words = page_words }) }
    requires least { 256 ≤ page_words }
    requires most { page_words ≤ 1024 }
{
    is_right(alloc, pages, page_words, 0) && is_right(alloc, pages, page_words, 1)
}

#[test]
fn each_answer_is_that_of_the_plain_search(rt: HostRuntime) {
    assert!(rt; are_right(rt.alloc(), 3, 256) && are_right(rt.alloc(), 8, 256));
    assert!(rt; are_right(rt.alloc(), 4, 512) && are_right(rt.alloc(), 7, 1024));
}
