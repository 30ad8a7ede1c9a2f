// Where a new object goes, as the rule tells it: a walk over all words, by start bits and headers.

ghost use Rattle.std.specs.Prelude.{◌≡◌, ◌^◌, ◌<◌, ◌≤◌};
ghost use Rattle.page_words.specs.Seat.{OnlyLooked};
ghost use Rattle.page_space.specs.Pages.{word_count};
ghost use Rattle.page_space.specs.Space.{IsSeatOf};

use page_space::Space;
use page_words::MutatorSeat;

/// The lowest address at which the size fits in a page of its bucket, from page `from` up to, and
/// without, page `to`.
pub fn find(space: &Space, seat: &mut MutatorSeat, size: u32, from: u32, to: u32) -> Option<u32>
    requires heap { IsSeatOf space.now seat.old }
    requires to { to ≤ space.now.shape.pages }
    ensures { OnlyLooked seat.old seat.new }
{
    for page in from..to {
        if let Some(a) = find_in(space, seat, size, page) {
            return Some(a);
        }
    }
    None
}

/// The first word of the lowest run of pages without objects that is just enough for the size.
pub fn find_empty(space: &Space, seat: &mut MutatorSeat, size: u32) -> Option<u32>
    requires heap { IsSeatOf space.now seat.old }
    requires most { size < 2 ^ 26 }
    ensures { OnlyLooked seat.old seat.new }
{
    seat.bodies_lie_apart();
    space.shape_is_valid();
    let count = (size + space.page_words() - 1) / space.page_words();
    // The pages from `since` up to the one at hand hold no object.
    let mut since = 0;
    for page in 0..space.pages() {
        if page_bucket(space, seat, page).is_some() {
            since = page + 1;
        }
        if since <= page && page + 1 - since == count {
            return Some(since * space.page_words());
        }
    }
    None
}

/// The bucket of the objects with a word in the page.
pub fn page_bucket(space: &Space, seat: &mut MutatorSeat, page: u32) -> Option<u32>
    requires heap { IsSeatOf space.now seat.old }
    requires page { page < space.now.shape.pages }
    ensures { OnlyLooked seat.old seat.new }
{
    seat.bodies_lie_apart();
    space.shape_is_valid();
    let start = page * space.page_words();
    // A large object may have begun in a page before.
    for a in 0..start + space.page_words() {
        let bucket = bucket_past(space, seat, a, start);
        if bucket.is_some() {
            return bucket;
        }
    }
    None
}

/// The bucket of the object that starts at an address, if it has a word at `start` or after it.
fn bucket_past(space: &Space, seat: &mut MutatorSeat, a: u32, start: u32) -> Option<u32>
    requires heap { IsSeatOf space.now seat.old }
    requires address { a < word_count space.now.shape }
    ensures { OnlyLooked seat.old seat.new }
{
    space.shape_is_valid();
    if !space.is_start(seat, a) {
        return None;
    }
    let size = space.header_at(seat, a).size;
    if a + size > start {
        Some(bucket_of(space, size))
    } else {
        None
    }
}

/// The bucket of a size, by the least size of each.
fn bucket_of(space: &Space, size: u32) -> u32 {
    match size {
        large if large > space.page_words() / 2 => 4,
        16.. => 3,
        8..=15 => 2,
        4..=7 => 1,
        _ => 0,
    }
}

/// The lowest address of the page at which the size fits, if the page has its bucket.
fn find_in(space: &Space, seat: &mut MutatorSeat, size: u32, page: u32) -> Option<u32>
    requires heap { IsSeatOf space.now seat.old }
    requires page { page < space.now.shape.pages }
    ensures { OnlyLooked seat.old seat.new }
{
    let bucket = bucket_of(space, size);
    if bucket < 4 && page_bucket(space, seat, page) == Some(bucket) {
        gap_in(space, seat, size, page)
    } else {
        None
    }
}

/// The lowest run of free words of the size in a page whose objects all lie in it.
fn gap_in(space: &Space, seat: &mut MutatorSeat, size: u32, page: u32) -> Option<u32>
    requires heap { IsSeatOf space.now seat.old }
    requires page { page < space.now.shape.pages }
    ensures { OnlyLooked seat.old seat.new }
{
    seat.bodies_lie_apart();
    space.shape_is_valid();
    let start = page * space.page_words();
    // The words from `free` up to the address at hand belong to no object.
    let mut free = start;
    for a in start..start + space.page_words() {
        free = end_at(space, seat, a, free);
        if free <= a && a + 1 - free == size {
            return Some(free);
        }
    }
    None
}

/// The end of the object that starts at an address of the heap, or what was before.
fn end_at(space: &Space, seat: &mut MutatorSeat, a: u32, before: u32) -> u32
    requires heap { IsSeatOf space.now seat.old }
    requires address { a < word_count space.now.shape }
    ensures { OnlyLooked seat.old seat.new }
{
    space.shape_is_valid();
    if space.is_start(seat, a) {
        a + space.header_at(seat, a).size
    } else {
        before
    }
}
