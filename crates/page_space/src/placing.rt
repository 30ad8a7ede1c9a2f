// Where a new object goes: to the lowest gap of a page of its bucket, or to pages without objects.

ghost use Rattle.std.specs.Prelude.{◌≡◌, ℕ, ◌+◌, ◌*◌, ◌/◌, ◌^◌, ◌<◌, ◌≤◌, true};
ghost use Rattle.std.specs.Prelude.{◌↔◌, IsTrue, IfSome, IfNone, unwrap_or};
ghost use Rattle.gc_graph.specs.Placement.{StartsEmptyRun, IsPageCount, PageHasBucket};
ghost use Rattle.gc_graph.specs.Placement.{UsesPage, IsLowest, IsNowhere};
ghost use Rattle.gap_bounds.specs.Seat.{OnlyLooked};
ghost use Rattle.page_space.specs.Space.{IsSpaceOf, FitsBetween, FitsIn, SinceEmpty};
ghost use Rattle.page_space.specs.Space.{IsFreePlace, extents_of_bodies};
ghost use Rattle.page_space.specs.Found.{KeepsFound};
ghost use Rattle.gap_bounds.specs.Gaps.{IsGap, IsClassOf, HasClass, class_count, least_of, is_known};

use crate::space::{Space, bucket_of};
use gap_bounds::{Class, MutatorSeat, class_of};

impl Space {
    /// The lowest address at which the size fits in a page of its bucket, from page `from` up to,
    /// and without, page `to`. A large size never does. What the search sees is remembered for the
    /// next ones.
    pub fn find(&mut self, seat: &mut MutatorSeat, size: u32, from: u32, to: u32) -> Option<u32>
        requires space { IsSpaceOf self.old seat.old }
        requires some { 2 ≤ size }
        requires to { to ≤ self.old.shape.pages }
        ensures found { IfSome result (IsLowest
            (FitsBetween self.old.shape from to (extents_of_bodies seat.old.bodies) size)) }
        ensures none { IfNone result (IsNowhere
            (FitsBetween self.old.shape from to (extents_of_bodies seat.old.bodies) size)) }
        ensures place { IfSome result
            (IsFreePlace self.old.shape (extents_of_bodies seat.old.bodies) size) }
        ensures space { IsSpaceOf self.new seat.new }
        ensures shape { self.new.shape ≡ self.old.shape }
        ensures view { OnlyLooked seat.old seat.new }
        ensures done { KeepsFound seat.old seat.new }
    {
        self.shape_is_valid();
        if size > self.page_words / 2 {
            return None;
        }
        let class = class_of(size);
        // Pages below have no room for the size, as earlier searches told.
        let first = self.gaps.first_for(class.number) / self.page_words;
        // No page from the top on holds an object, so none has its bucket.
        for page in from.max(first)..to.min(self.table.top()) {
            if let Some(a) = self.find_in(seat, page, size, class) {
                return Some(a);
            }
        }
        None
    }

    /// The first word of the lowest run of pages without objects that is just enough for the size.
    pub fn find_empty(&mut self, seat: &mut MutatorSeat, size: u32) -> Option<u32>
        requires space { IsSpaceOf self.old seat.old }
        requires some { 2 ≤ size }
        requires most { size < 2 ^ 26 }
        ensures found { IfSome result
            (IsLowest (StartsEmptyRun self.old.shape (extents_of_bodies seat.old.bodies) size)) }
        ensures none { IfNone result
            (IsNowhere (StartsEmptyRun self.old.shape (extents_of_bodies seat.old.bodies) size)) }
        ensures place { IfSome result
            (IsFreePlace self.old.shape (extents_of_bodies seat.old.bodies) size) }
        ensures same { self.new ≡ self.old }
        ensures view { seat.new ≡ seat.old }
    {
        let count = self.pages_for(size);
        // The pages from `since` up to the one at hand hold no object.
        let mut since = self.first_empty(seat);
        for page in since..self.pages {
            since = self.empty_since(seat, page, since);
            if since <= page && page + 1 - since == count {
                return Some(since * self.page_words);
            }
        }
        None
    }

    /// A page such that each page below holds an object. The next such look begins there.
    fn first_empty(&mut self, seat: &mut MutatorSeat) -> u32
        requires space { IsSpaceOf self.old seat.old }
        ensures used { (page : ℕ) → page < result
            → UsesPage self.old.shape (extents_of_bodies seat.old.bodies) page }
        ensures within { result ≤ self.old.shape.pages }
        ensures same { self.new ≡ self.old }
        ensures view { seat.new ≡ seat.old }
    {
        self.shape_is_valid();
        self.table.first_empty()
    }

    /// How many pages are just enough for the size.
    fn pages_for(&self, size: u32) -> u32
        requires some { 2 ≤ size }
        requires most { size < 2 ^ 26 }
        ensures enough { IsPageCount self.now.shape.page_words size result }
        ensures some { 1 ≤ result }
    {
        self.shape_is_valid();
        (size + self.page_words - 1) / self.page_words
    }

    /// The page after this one where it holds an object, or what was before.
    fn empty_since(&self, seat: &mut MutatorSeat, page: u32, before: u32) -> u32
        requires space { IsSpaceOf self.now seat.old }
        requires page { page < self.now.shape.pages }
        ensures since { SinceEmpty self.now.shape (extents_of_bodies seat.old.bodies)
            page before result }
        ensures view { seat.new ≡ seat.old }
    {
        self.shape_is_valid();
        match self.page_bucket(seat, page) {
            Some(_) => page + 1,
            None => before,
        }
    }

    /// The lowest address of the page at which the size, of this class, fits, if the page has its
    /// bucket. The next search for the class passes by what has no room.
    fn find_in(&mut self, seat: &mut MutatorSeat, page: u32, size: u32, class: Class) -> Option<u32>
        requires space { IsSpaceOf self.old seat.old }
        requires page { page < self.old.shape.pages }
        requires some { 2 ≤ size }
        requires small { size ≤ self.old.shape.page_words / 2 }
        requires class { IsClassOf size class.number class.least }
        ensures found { IfSome result (IsLowest (FitsIn self.old.shape seat.old.bodies size page)) }
        ensures none { IfNone result (IsNowhere (FitsIn self.old.shape seat.old.bodies size page)) }
        ensures space { IsSpaceOf self.new seat.new }
        ensures shape { self.new.shape ≡ self.old.shape }
        ensures view { OnlyLooked seat.old seat.new }
        ensures done { KeepsFound seat.old seat.new }
    {
        self.shape_is_valid();
        let start = page * self.page_words;
        let end = start + self.page_words;
        if !self.has_bucket(seat, page, bucket_of(self.page_words, size)) {
            self.pass(seat, page, class.number, end);
            return None;
        }
        let from = self.gaps.first_for(class.number).max(start).min(end);
        let found = self.gap_in(seat, page, from, size);
        self.pass_searched(seat, page, size, class, found);
        found
    }

    /// Whether the page holds a word of an object of the bucket.
    pub(crate) fn has_bucket(&self, seat: &mut MutatorSeat, page: u32, bucket: u32) -> bool
        requires space { IsSpaceOf self.now seat.old }
        requires page { page < self.now.shape.pages }
        ensures bucket { IsTrue result ↔ PageHasBucket self.now.shape.page_words
            (extents_of_bodies seat.old.bodies) page bucket }
        ensures view { seat.new ≡ seat.old }
    {
        match self.page_bucket(seat, page) {
            Some(found) => found == bucket,
            None => false,
        }
    }

    /// The next search of the class begins at an address of the page, or at its end, where no gap of
    /// the class begins before and no page below is worth a look.
    fn pass(&mut self, seat: &mut MutatorSeat, page: u32, class: u32, worth: u32)
        requires space { IsSpaceOf self.old seat.old }
        requires page { page < self.old.shape.pages }
        requires class { class < class_count }
        requires some { 1 ≤ least_of class }
        requires end { worth ≤ (page + 1) * self.old.shape.page_words }
        requires known { HasClass self.old.shape (extents_of_bodies seat.old.bodies) class page
            → is_known self.old.gaps page ≡ true }
        requires worth { (size a : ℕ) → HasClass self.old.shape (extents_of_bodies seat.old.bodies)
            class page → least_of class ≤ size → IsGap self.old.shape
            (extents_of_bodies seat.old.bodies) size page a → worth ≤ a }
        ensures space { IsSpaceOf self.new seat.new }
        ensures shape { self.new.shape ≡ self.old.shape }
        ensures view { seat.new ≡ seat.old }
    {
        self.shape_is_valid();
        if self.gaps.first_for(class) >= page * self.page_words {
            self.gaps.begin_at(class, worth);
        }
    }

    /// The same after a search of the page for a size of the class.
    fn pass_searched(
        &mut self,
        seat: &mut MutatorSeat,
        page: u32,
        size: u32,
        class: Class,
        found: Option<u32>,
    )
        requires space { IsSpaceOf self.old seat.old }
        requires page { page < self.old.shape.pages }
        requires some { 2 ≤ size }
        requires class { IsClassOf size class.number class.least }
        requires known { is_known self.old.gaps page ≡ true }
        requires within { IfSome found (λ a. a ≤ (page + 1) * self.old.shape.page_words) }
        requires searched { (a : ℕ) → IsGap self.old.shape (extents_of_bodies seat.old.bodies)
            size page a → unwrap_or found ((page + 1) * self.old.shape.page_words) ≤ a }
        ensures space { IsSpaceOf self.new seat.new }
        ensures shape { self.new.shape ≡ self.old.shape }
        ensures view { seat.new ≡ seat.old }
    {
        self.shape_is_valid();
        if size == class.least {
            let end = (page + 1) * self.page_words;
            self.pass(seat, page, class.number, found.unwrap_or(end));
        } else {
            self.pass_blocks(seat, page, class);
        }
    }

    /// The same, where the bounds of the page's blocks tell how far.
    fn pass_blocks(&mut self, seat: &mut MutatorSeat, page: u32, class: Class)
        requires space { IsSpaceOf self.old seat.old }
        requires page { page < self.old.shape.pages }
        requires class { class.number < class_count }
        requires least { class.least ≡ least_of class.number }
        requires some { 1 ≤ class.least }
        requires known { is_known self.old.gaps page ≡ true }
        ensures space { IsSpaceOf self.new seat.new }
        ensures shape { self.new.shape ≡ self.old.shape }
        ensures view { seat.new ≡ seat.old }
    {
        self.shape_is_valid();
        let start = page * self.page_words;
        let end = start + self.page_words;
        let first = self.gaps.first_for(class.number);
        if start <= first && first <= end {
            let worth = self.gaps.worth_from(first, end, class.least);
            self.pass(seat, page, class.number, worth);
        }
    }
}
