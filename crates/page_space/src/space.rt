// The pages of a heap over its words.

ghost use Rattle.std.specs.Prelude.{◌≡◌, ℕ, ◌*◌, ◌<◌};
ghost use Rattle.std.specs.Prelude.{◌↔◌, IfOk, Some, None, length, sum_by};
ghost use Rattle.gc_graph.specs.Placement.{PageHasBucket, IsEmptyPage, IsUsedPages, bucket_of};
ghost use Rattle.gc_graph.specs.Shapes.{IsShape};
ghost use Rattle.gap_bounds.specs.Seat.{SeatView, empty_view, stored};
ghost use Rattle.page_space.specs.Pages.{word_count};
ghost use Rattle.std.specs.Arc.{arc_value};
ghost use Rattle.page_space.specs.Space.{IsSpaceOf, extents_of_bodies, heap_of};

use crate::table::Table;
use gap_bounds::{GROUP_WORDS, Gaps, MutatorSeat, TypeTable, Words};
use gc_graph::NoMemory;
use std::alloc::Global;
use std::marker::Model;
use std::sync::Arc;

/// The bucket of large objects.
pub(crate) const LARGE: u32 = 4;

/// The pages of a heap over its words, which belong to the mutator's thread. Addresses and sizes
/// are in words. See "Heap partitioning" in `include/cppgc/README.md`.
#[derive(Drop)]
pub struct Space {
    pub(crate) words: Arc<Words>,
    pub(crate) pages: u32,
    pub(crate) page_words: u32,
    pub(crate) objects: u32,
    pub(crate) used: u32,
    pub(crate) table: Table,
    pub(crate) gaps: Gaps,
}

impl Model for Space {
    ghost use Rattle.std.specs.Arc.{arc_value};
    ghost use Rattle.page_space.specs.Space.{SpaceView};

    ghost Value = { SpaceView };

    ghost use Rattle.page_space.specs.SpaceFields.{shape_of, IsSpace};

    ghost view = { λ s. record {
      shape = shape_of s;
      words = (arc_value s.words).table;
      objects = s.objects;
      used = s.used;
      table = s.table;
      gaps = s.gaps;
    } };

    ghost invariant = { IsSpace };
}

impl Space {
    /// Pages without objects, which will be of these types, and the seat of their words. Want of
    /// memory is free.
    pub fn new(
        alloc: Global,
        pages: u32,
        page_words: u32,
        types: &TypeTable,
    ) -> Result<(Space, MutatorSeat), NoMemory>
        requires { IsShape (record { pages = pages; page_words = page_words }) }
        ensures space { IfOk result (λ made. IsSpaceOf made.0 made.1) }
        ensures shape { IfOk result (λ made.
            made.0.shape ≡ record { pages = pages; page_words = page_words }) }
        ensures view { IfOk result (λ made. made.1 ≡ empty_view (heap_of made.0) types.now) }
    {
        let (words, seat) = Words::new(alloc, pages * page_words, types)?;
        let words = Arc::new(alloc, words)?;
        let table = Table::new(alloc, pages)?;
        let gaps = Gaps::new(alloc, pages, pages * page_words / GROUP_WORDS)?;
        let space = Space {
            words,
            pages,
            page_words,
            objects: 0,
            used: 0,
            table,
            gaps,
        };
        Ok((space, seat))
    }

    /// The shape is one that a heap can have. Whoever calls this has the law.
    pub fn shape_is_valid(&self)
        ensures { IsShape self.now.shape }
    {
        let _pages = &self.pages;
    }

    /// A space belongs to the words of the seat as long as the objects' places and sizes stay, as
    /// they do under a store. Whoever calls this has the law.
    pub fn lasts_while_objects_stay(&self)
        ensures objects { (old new : SeatView) → new.heap ≡ old.heap
            → extents_of_bodies new.bodies ≡ extents_of_bodies old.bodies
            → IsSpaceOf self.now old → IsSpaceOf self.now new }
        ensures store { (v : SeatView) (a w : ℕ) → IsSpaceOf self.now v
            → IsSpaceOf self.now (stored v a w) }
    {
        let _pages = &self.pages;
    }

    /// The words of the heap.
    pub fn words(&self) -> &Arc<Words>
        ensures { arc_value result.now ≡ heap_of self.now }
    {
        &self.words
    }

    /// How many pages there are.
    pub fn pages(&self) -> u32
        ensures { result ≡ self.now.shape.pages }
    {
        self.pages
    }

    /// How many words a page has.
    pub fn page_words(&self) -> u32
        ensures { result ≡ self.now.shape.page_words }
    {
        self.page_words
    }

    /// How many words the pages have.
    pub fn word_count(&self) -> u32
        ensures { result ≡ word_count self.now.shape }
    {
        self.pages * self.page_words
    }

    /// How many objects there are.
    pub fn objects(&self) -> u32
        ensures { (v : SeatView) → IsSpaceOf self.now v → result ≡ length v.bodies }
    {
        self.objects
    }

    /// How many words the objects have.
    pub fn used(&self) -> u32
        ensures { (v : SeatView) → IsSpaceOf self.now v
            → result ≡ sum_by (λ b. b.size) v.bodies }
    {
        self.used
    }

    /// How many pages hold a word of an object.
    pub fn pages_in_use(&self) -> u32
        ensures { (v : SeatView) → IsSpaceOf self.now v
            → IsUsedPages self.now.shape (extents_of_bodies v.bodies) result }
    {
        self.shape_is_valid();
        self.table.in_use()
    }

    /// The bucket of the objects with a word in the page: 0 to 3, or 4 for a large one.
    pub fn page_bucket(&self, seat: &mut MutatorSeat, page: u32) -> Option<u32>
        requires space { IsSpaceOf self.now seat.old }
        requires page { page < self.now.shape.pages }
        ensures bucket { (bucket : ℕ) → (result ≡ Some bucket) ↔ PageHasBucket
            self.now.shape.page_words (extents_of_bodies seat.old.bodies) page bucket }
        ensures none { (result ≡ None)
            ↔ IsEmptyPage self.now.shape (extents_of_bodies seat.old.bodies) page }
        ensures view { seat.new ≡ seat.old }
    {
        self.shape_is_valid();
        if self.table.objects_in(page) == 0 {
            None
        } else {
            Some(self.table.bucket_of_page(page))
        }
    }
}

/// The bucket of a size: objects of one bucket share pages.
pub fn bucket_of(page_words: u32, size: u32) -> u32
    ensures { result ≡ bucket_of page_words size }
{
    match size {
        large if large > page_words / 2 => LARGE,
        16.. => 3,
        8.. => 2,
        4.. => 1,
        _ => 0,
    }
}
