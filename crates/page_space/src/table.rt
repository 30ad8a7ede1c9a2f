// What is known of each page: how many objects have a word in it, their bucket, and the page in
// which they start.

ghost use Rattle.std.specs.Prelude.{◌≡◌, ℕ, ◌+◌, ◌-◌, ◌^◌, ◌<◌, ◌≤◌, true};
ghost use Rattle.std.specs.Prelude.{IfOk, if◌then◌else◌, length, slice_index, slice_set, replicate};
ghost use Rattle.page_space.specs.Pages.{is_between, count_in_use};

use gc_graph::NoMemory;
use std::alloc::Global;
use std::marker::Model;

/// For each page, how many objects have a word in it, the bucket of these, and the page in which
/// they start: another one where a large object runs on.
#[derive(Drop)]
pub struct Table {
    objects: Vec<u32>,
    buckets: Vec<u32>,
    starts: Vec<u32>,
    in_use: u32,
    // The pages below hold objects.
    lowest_empty: u32,
    // The pages from here on hold none.
    top: u32,
}

impl Model for Table {
    ghost use Rattle.page_space.specs.Pages.{PageTable};

    ghost Value = { PageTable };

    ghost use Rattle.page_space.specs.TableFields.{IsTable};

    ghost view = { λ t. record {
      objects = t.objects.items;
      buckets = t.buckets.items;
      starts = t.starts.items;
    } };

    ghost invariant = { IsTable };
}

impl Table {
    /// Pages without objects. Want of memory is free.
    pub fn new(alloc: Global, pages: u32) -> Result<Table, NoMemory>
        requires { pages ≤ 1024 }
        ensures objects { IfOk result (λ t. t.objects ≡ replicate pages 0) }
        ensures buckets { IfOk result (λ t. t.buckets ≡ replicate pages 0) }
        ensures starts { IfOk result (λ t. t.starts ≡ replicate pages 0) }
    {
        let objects = vec![in alloc; 0u32; pages as usize]?;
        let buckets = vec![in alloc; 0u32; pages as usize]?;
        let starts = vec![in alloc; 0u32; pages as usize]?;
        Ok(Table {
            objects,
            buckets,
            starts,
            in_use: 0,
            lowest_empty: 0,
            top: 0,
        })
    }

    /// How many pages hold a word of an object.
    pub fn in_use(&self) -> u32
        ensures { result ≡ count_in_use self.now.objects }
    {
        self.in_use
    }

    /// The lowest page without objects, or the number of the pages. The look begins where the last
    /// one ended, or at the lowest page that lost its objects since.
    pub fn first_empty(&mut self) -> u32
        ensures below { (page : ℕ) → page < result → 0 < slice_index self.old.objects page }
        ensures within { result ≤ length self.old.objects }
        ensures same { self.new ≡ self.old }
    {
        self.lowest_empty = self.empty_from(self.lowest_empty);
        self.lowest_empty
    }

    /// The lowest page from the one on without objects, or the number of the pages.
    fn empty_from(&self, from: u32) -> u32
        requires { from ≤ length self.now.objects }
        ensures used { (page : ℕ) → from ≤ page → page < result
            → 0 < slice_index self.now.objects page }
        ensures within { result ≤ length self.now.objects }
    {
        let count = self.objects.len() as u32;
        let mut page = from;
        while page < count && self.objects[page as usize] > 0 {
            page += 1;
        }
        page
    }

    /// The page after the highest one that holds a word of an object.
    pub fn top(&self) -> u32
        ensures { (page : ℕ) → result ≤ page → slice_index self.now.objects page ≡ 0 }
    {
        self.top
    }

    /// The page after the highest one below `end` that holds a word of an object.
    fn used_end(&self, end: u32) -> u32
        requires { end ≤ length self.now.objects }
        ensures empty { (page : ℕ) → result ≤ page → page < end
            → slice_index self.now.objects page ≡ 0 }
        ensures within { result ≤ end }
    {
        let mut page = end;
        while page > 0 && self.objects[page as usize - 1] == 0 {
            page -= 1;
        }
        page
    }

    /// How many objects have a word in the page.
    pub fn objects_in(&self, page: u32) -> u32
        requires page { page < length self.now.objects }
        ensures { result ≡ slice_index self.now.objects page }
    {
        self.objects[page as usize]
    }

    /// The bucket of the page, if it holds a word of an object.
    pub fn bucket_of_page(&self, page: u32) -> u32
        requires page { page < length self.now.objects }
        ensures { result ≡ slice_index self.now.buckets page }
    {
        self.buckets[page as usize]
    }

    /// The page in which the objects with a word in the page start, if there are such.
    pub fn start_of_page(&self, page: u32) -> u32
        requires page { page < length self.now.objects }
        ensures { result ≡ slice_index self.now.starts page }
    {
        self.starts[page as usize]
    }

    /// Counts an object of the bucket in the pages from `first` up to `end`.
    pub fn enter(&mut self, first: u32, end: u32, bucket: u32)
        requires order { first ≤ end }
        requires end { end ≤ length self.old.objects }
        requires buckets { end ≤ length self.old.buckets }
        requires starts { end ≤ length self.old.starts }
        requires room { (page : ℕ) → slice_index self.old.objects page < 2 ^ 32 - 1 }
        ensures size { length self.new.objects ≡ length self.old.objects }
        ensures sizes { length self.new.buckets ≡ length self.old.buckets }
        ensures rows { length self.new.starts ≡ length self.old.starts }
        ensures objects { (page : ℕ) → slice_index self.new.objects page
            ≡ slice_index self.old.objects page + (if is_between first end page then 1 else 0) }
        ensures buckets { (page : ℕ) → slice_index self.new.buckets page
            ≡ (if is_between first end page then bucket else slice_index self.old.buckets page) }
        ensures starts { (page : ℕ) → slice_index self.new.starts page
            ≡ (if is_between first end page then first else slice_index self.old.starts page) }
    {
        for page in first..end {
            self.enter_page(page, bucket, first);
        }
    }

    /// Takes an object out of the counts of the pages from `first` up to `end`.
    pub fn leave(&mut self, first: u32, end: u32)
        requires order { first ≤ end }
        requires end { end ≤ length self.old.objects }
        requires some { (page : ℕ) → is_between first end page ≡ true
            → 0 < slice_index self.old.objects page }
        ensures size { length self.new.objects ≡ length self.old.objects }
        ensures objects { (page : ℕ) → slice_index self.old.objects page
            ≡ slice_index self.new.objects page + (if is_between first end page then 1 else 0) }
        ensures buckets { self.new.buckets ≡ self.old.buckets }
        ensures starts { self.new.starts ≡ self.old.starts }
    {
        for page in first..end {
            self.leave_page(page);
        }
    }

    fn enter_page(&mut self, page: u32, bucket: u32, first: u32)
        requires page { page < length self.old.objects }
        requires room { slice_index self.old.objects page < 2 ^ 32 - 1 }
        ensures objects { self.new.objects
            ≡ slice_set self.old.objects page (slice_index self.old.objects page + 1) }
        ensures buckets { self.new.buckets ≡ slice_set self.old.buckets page bucket }
        ensures starts { self.new.starts ≡ slice_set self.old.starts page first }
    {
        let at = page as usize;
        let before = self.objects[at];
        if before == 0 {
            self.in_use += 1;
            self.top = self.top.max(page + 1);
        }
        self.objects[at] = before + 1;
        self.buckets[at] = bucket;
        self.starts[at] = first;
    }

    fn leave_page(&mut self, page: u32)
        requires page { page < length self.old.objects }
        requires some { 0 < slice_index self.old.objects page }
        ensures objects { self.new.objects
            ≡ slice_set self.old.objects page (slice_index self.old.objects page - 1) }
        ensures buckets { self.new.buckets ≡ self.old.buckets }
        ensures starts { self.new.starts ≡ self.old.starts }
    {
        let at = page as usize;
        let after = self.objects[at] - 1;
        self.objects[at] = after;
        if after == 0 {
            self.in_use -= 1;
            self.lowest_empty = self.lowest_empty.min(page);
            // Each page over which the top falls is one over which it rose.
            self.top = self.used_end(self.top);
        }
    }
}
