// What is remembered of the gaps of the heap, so that a search looks where one may be.

ghost use Rattle.std.specs.Prelude.{◌≡◌, ◌≢◌, ℕ, ◌+◌, ◌*◌, ◌^◌, ◌<◌, ◌≤◌, true, false, List};
ghost use Rattle.std.specs.Prelude.{IfOk, length, slice_index};
ghost use Rattle.gc_graph.specs.State.{Shape};
ghost use Rattle.gc_graph.specs.Placement.{Extent};
ghost use Rattle.page_words.specs.Seat.{block_words};
ghost use Rattle.gap_bounds.specs.Bounds.{group_blocks};
ghost use Rattle.gap_bounds.specs.Gaps.{class_count, bound_at, is_known, KnowsGaps};
ghost use Rattle.gap_bounds.specs.Changes.{AreOfOneHeap, HasGroups, AreBounded, HadClasses};
ghost use Rattle.gap_bounds.specs.Changes.{GapsOpened, GapsOpenedIn, GapsTaken, MayBegin};

use crate::bounds::{Bounds, GROUP_BLOCKS};
use gc_graph::NoMemory;
use page_words::BLOCK_WORDS;
use std::alloc::Global;
use std::marker::Model;

/// How many classes of sizes there are.
const CLASSES: usize = 72;

/// A bound that no gap exceeds: the words of the largest page.
const LONGEST: u32 = 16_384;

/// For each block of the heap a bound for the gaps that begin there, for each page a bound for its
/// gaps, and whether these hold; for each class the lowest address worth a look.
#[derive(Drop)]
pub struct Gaps {
    bounds: Bounds,
    most: Vec<u32>,
    known: Vec<bool>,
    first: Vec<u32>,
    // No class's address is above.
    highest: u32,
}

impl Model for Gaps {
    ghost use Rattle.gap_bounds.specs.Gaps.{GapTable};

    ghost Value = { GapTable };

    ghost use Rattle.gap_bounds.specs.GapFields.{IsGaps};

    ghost view = { λ g. record {
      bounds = g.bounds;
      most = g.most.items;
      known = g.known.items;
      first = g.first.items;
    } };

    ghost invariant = { IsGaps };
}

impl Gaps {
    /// Nothing is known of so many pages with so many groups of blocks. Want of memory is free.
    pub fn new(alloc: Global, pages: u32, groups: u32) -> Result<Gaps, NoMemory>
        requires { groups ≤ 65536 }
        ensures pages { IfOk result (λ g. length g.most ≡ pages) }
        ensures blocks { IfOk result (λ g. length g.bounds ≡ group_blocks * groups) }
        ensures knows { IfOk result
            (λ g. (shape : Shape) (extents : List Extent) → KnowsGaps shape extents g) }
    {
        let bounds = Bounds::new(alloc, groups)?;
        let most = vec![in alloc; 0u32; pages as usize]?;
        let known = vec![in alloc; false; pages as usize]?;
        let first = vec![in alloc; 0u32; CLASSES]?;
        Ok(Gaps {
            bounds,
            most,
            known,
            first,
            highest: 0,
        })
    }

    /// Whether what is told of a page holds.
    pub fn is_known(&self, page: u32) -> bool
        requires { page < length self.now.most }
        ensures { result ≡ is_known self.now page }
    {
        self.known[page as usize]
    }

    /// A bound for the gaps of the page.
    pub fn most(&self, page: u32) -> u32
        requires { page < length self.now.most }
        ensures { result ≡ slice_index self.now.most page }
    {
        self.most[page as usize]
    }

    /// The lowest address worth a look for the class.
    pub fn first_for(&self, class: u32) -> u32
        requires { class < class_count }
        ensures { result ≡ slice_index self.now.first class }
    {
        self.first[class as usize]
    }

    /// The lowest address from one up to another at which a gap of the size may begin, or the other.
    pub fn worth_from(&self, from: u32, end: u32, size: u32) -> u32
        requires order { from ≤ end }
        requires end { end ≤ block_words * length self.now.bounds }
        ensures from { from ≤ result }
        ensures end { result ≤ end }
        ensures passed { (a : ℕ) → from ≤ a → a < result → bound_at self.now a < size }
    {
        self.bounds.worth_from(from, end, size)
    }

    /// A page that isn't known gets bounds that no gap exceeds. Pages have so many groups of blocks.
    pub fn learn(&mut self, page: u32, groups: u32)
        requires page { page < length self.old.most }
        requires groups { group_blocks * ((page + 1) * groups) ≤ length self.old.bounds }
        ensures heap { AreOfOneHeap self.old self.new }
        ensures known { is_known self.new page ≡ true }
        ensures knows { (shape : Shape) (extents : List Extent) → HasGroups shape groups
            → shape.page_words ≤ 16384 → KnowsGaps shape extents self.old
            → KnowsGaps shape extents self.new }
    {
        self.most[page as usize] = LONGEST;
        self.known[page as usize] = true;
        let blocks = GROUP_BLOCKS * groups;
        self.bounds
            .set(page * blocks, page * blocks + blocks, LONGEST);
    }

    /// No gap that begins in the blocks from the one up to the other is longer than this.
    pub fn saw(&mut self, first: u32, end: u32, longest: u32)
        requires order { first ≤ end }
        requires end { end ≤ length self.old.bounds }
        ensures heap { AreOfOneHeap self.old self.new }
        ensures known { self.new.known ≡ self.old.known }
        ensures knows { (shape : Shape) (extents : List Extent)
            → AreBounded shape extents first end longest → KnowsGaps shape extents self.old
            → KnowsGaps shape extents self.new }
    {
        self.bounds.set(first, end, longest);
    }

    /// The largest bound of a page's blocks bounds the page. Pages have so many groups of blocks.
    pub fn tighten(&mut self, page: u32, groups: u32)
        requires page { page < length self.old.most }
        requires groups { group_blocks * ((page + 1) * groups) ≤ length self.old.bounds }
        ensures heap { AreOfOneHeap self.old self.new }
        ensures known { self.new.known ≡ self.old.known }
        ensures knows { (shape : Shape) (extents : List Extent)
            → HasGroups shape groups → KnowsGaps shape extents self.old
            → KnowsGaps shape extents self.new }
    {
        self.most[page as usize] = self.bounds.largest(page * groups, page * groups + groups);
    }

    /// The words from one address of a page up to another may be a gap now.
    pub fn open(&mut self, page: u32, from: u32, until: u32)
        requires page { page < length self.old.most }
        requires order { from < until }
        requires end { until ≤ block_words * length self.old.bounds }
        ensures heap { AreOfOneHeap self.old self.new }
        ensures knows { (shape : Shape) (before after : List Extent)
            → GapsOpened shape before after page from until → HadClasses shape before after
            → KnowsGaps shape before self.old → KnowsGaps shape after self.new }
    {
        let longest = until - from;
        self.bounds
            .raise(from / BLOCK_WORDS, (until - 1) / BLOCK_WORDS + 1, longest);
        let most = self.most[page as usize];
        self.most[page as usize] = most.max(longest);
        self.lower(from);
    }

    /// What is told of the pages from `first` up to `end` holds no longer. Pages have so many words.
    pub fn forget(&mut self, first: u32, end: u32, page_words: u32)
        requires order { first ≤ end }
        requires end { end ≤ length self.old.most }
        requires words { end * page_words < 2 ^ 32 }
        ensures heap { AreOfOneHeap self.old self.new }
        ensures knows { (shape : Shape) (before after : List Extent)
            → shape.page_words ≡ page_words → GapsOpenedIn shape before after first end
            → HadClasses shape before after
            → KnowsGaps shape before self.old → KnowsGaps shape after self.new }
    {
        for page in first..end {
            self.forget_page(page, page * page_words);
        }
    }

    /// What is told of a page that begins at this word holds no longer.
    fn forget_page(&mut self, page: u32, first_word: u32)
        requires { page < length self.old.most }
        ensures here { is_known self.new page ≡ false }
        ensures there { (q : ℕ) → q ≢ page → is_known self.new q ≡ is_known self.old q }
        ensures lower { (class : ℕ) → slice_index self.new.first class
            ≤ slice_index self.old.first class }
        ensures start { is_known self.old page ≡ true → (class : ℕ)
            → slice_index self.new.first class ≤ first_word }
        ensures bounds { self.new.bounds ≡ self.old.bounds }
        ensures most { self.new.most ≡ self.old.most }
    {
        if self.known[page as usize] {
            self.known[page as usize] = false;
            self.lower(first_word);
        }
    }

    /// An object came to a page that begins at an address. Where that held no object before, a search
    /// of each class looks there again.
    pub fn fill(&mut self, start: u32, was_empty: bool)
        ensures heap { AreOfOneHeap self.old self.new }
        ensures knows { (shape : Shape) (before after : List Extent)
            → GapsTaken shape before after start was_empty → KnowsGaps shape before self.old
            → KnowsGaps shape after self.new }
    {
        if was_empty {
            self.lower(start);
        }
    }

    /// No class's address is above this one.
    fn lower(&mut self, start: u32)
        ensures bounds { self.new.bounds ≡ self.old.bounds }
        ensures most { self.new.most ≡ self.old.most }
        ensures known { self.new.known ≡ self.old.known }
        ensures lower { (class : ℕ) → slice_index self.new.first class
            ≤ slice_index self.old.first class }
        ensures start { (class : ℕ) → slice_index self.new.first class ≤ start }
    {
        if self.highest <= start {
            return;
        }
        for class in 0..self.first.len() {
            self.first[class] = self.first[class].min(start);
        }
        self.highest = start;
    }

    /// Searches of the class begin at an address of the page, or at its end, from now on.
    pub fn begin_at(&mut self, class: u32, a: u32)
        requires { class < class_count }
        ensures heap { AreOfOneHeap self.old self.new }
        ensures knows { (shape : Shape) (extents : List Extent) (page : ℕ)
            → MayBegin shape extents self.old class page a → KnowsGaps shape extents self.old
            → KnowsGaps shape extents self.new }
        ensures known { self.new.known ≡ self.old.known }
    {
        self.first[class as usize] = a;
        self.highest = self.highest.max(a);
    }
}
