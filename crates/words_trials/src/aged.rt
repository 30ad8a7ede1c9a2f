// A heap in which the older objects are dead, and may be freed one at a time in any order.

ghost use Rattle.std.specs.Prelude.{◌≡◌, ◌^◌, ◌<◌, ◌≤◌, [], ◌∷◌, IfOk};
ghost use Rattle.marker_core.specs.Bodies.{without};
ghost use Rattle.gc_graph.specs.Shapes.{IsShape};
ghost use Rattle.gc_graph.specs.State.{no_type};

use crate::plain;
use gc_graph::NoMemory;
use page_space::Space;
use page_words::{MutatorSeat, Reading};
use std::alloc::Global;
use std::marker::Model;
use std::mem;
use type_table::{TypeDecl, TypeTable};

/// The number of the first object.
const FIRST_NUMBER: u32 = 7;

/// A heap with the places of its objects, those of each kind in the order in which they were made.
#[derive(Drop)]
pub struct Aged {
    space: Space,
    seat: MutatorSeat,
    dead: Vec<u32>,
    young: Vec<u32>,
    /// The number of the next object.
    next: u32,
}

impl Model for Aged {
    ghost use Rattle.std.specs.Prelude.{◌≡◌, ◌<◌, ◌∷◌, ◌++◌, false, [], map, Contains};
    ghost use Rattle.gc_graph.specs.State.{no_type};
    ghost use Rattle.marker_core.specs.declared.states.Body.{Body};
    ghost use Rattle.page_words.specs.Seat.{SeatView};
    ghost use Rattle.page_space.specs.Space.{IsSpaceOf};

    ghost Value = { SeatView };

    ghost view = { λ h. h.seat };

    ghost invariant = { λ h. IsSpaceOf h.space h.seat × (h.seat.on ≡ false)
        × (h.seat.marked ≡ []) × (h.seat.traced ≡ []) × (h.seat.dead ≡ h.dead.items)
        × (map (λ b. b.place) h.seat.bodies ≡ h.dead.items ++ h.young.items)
        × (h.seat.types ≡ no_type ∷ no_type ∷ [])
        × ((b : Body) → Contains h.seat.bodies b → b.serial < h.next) };
}

impl Aged {
    /// Pages without objects. No type has fields, so each word after the head is an extra one.
    pub fn new(alloc: Global, pages: u32, page_words: u32) -> Result<Aged, NoMemory>
        requires { IsShape (record { pages = pages; page_words = page_words }) }
    {
        let types = two_types(alloc)?;
        let (space, seat) = Space::new(alloc, pages, page_words, &types)?;
        Ok(Aged {
            space,
            seat,
            dead: Vec::new(alloc),
            young: Vec::new(alloc),
            next: FIRST_NUMBER,
        })
    }

    /// What a call tells of a number, where it tells something.
    pub fn answer(&mut self, call: &str, n: u64) -> Option<u32> {
        let small = u32::try_from(n).unwrap_or(u32::MAX);
        match call {
            "put" => self.put(small),
            "condemn" => self.condemn(),
            "free" => self.free(small),
            "holder" => self.space.start_of(&mut self.seat, n),
            "word" => self.word(small),
            _ => self.total(call, small),
        }
    }

    /// A word of the heap, of the start bits, or the stop word.
    fn word(&mut self, a: u32) -> Option<u32> {
        self.space.shape_is_valid();
        let count = self.space.word_count();
        if a > count + count / 64 {
            return None;
        }
        u32::try_from(self.space.words().load::<Reading>(&mut self.seat, a)).ok()
    }

    /// The bucket of a page, the first start bits, or one of the totals.
    fn total(&mut self, call: &str, n: u32) -> Option<u32> {
        self.space.shape_is_valid();
        match call {
            "bucket" if n < self.space.pages() => self.space.page_bucket(&mut self.seat, n),
            "starts" => u32::try_from(self.space.starts_in(&mut self.seat, 0)).ok(),
            "objects" => Some(self.space.objects()),
            "used" => Some(self.space.used()),
            "pages" => Some(self.space.pages_in_use()),
            _ => None,
        }
    }

    /// Whether the space and the plain search find the same place from one page to another.
    pub fn agrees(&mut self, size: u32, from: u32, to: u32) -> bool
        requires { 2 ≤ size }
    {
        let to = to.min(self.space.pages());
        let found = self.space.find(&mut self.seat, size, from, to);
        found == plain::find(&self.space, &mut self.seat, size, from, to)
    }

    /// Whether they find the same empty pages.
    pub fn agrees_on_empty(&mut self, size: u32) -> bool
        requires least { 2 ≤ size }
        requires most { size < 2 ^ 26 }
    {
        let found = self.space.find_empty(&mut self.seat, size);
        found == plain::find_empty(&self.space, &mut self.seat, size)
    }

    /// Whether they tell the same bucket of a page, if there is such a page.
    pub fn agrees_on_page(&mut self, page: u32) -> bool {
        if page >= self.space.pages() {
            return true;
        }
        let bucket = self.space.page_bucket(&mut self.seat, page);
        bucket == plain::page_bucket(&self.space, &mut self.seat, page)
    }

    /// Makes an object of the size, if there is room, and tells its place.
    pub fn put(&mut self, size: u32) -> Option<u32> {
        if size < 2 || size > 65536 {
            return None;
        }
        let next = self.next.checked_add(1)?;
        if self.young.reserve(1).is_err() {
            return None;
        }
        let pages = self.space.pages();
        let place = match self.space.find(&mut self.seat, size, 0, pages) {
            Some(a) => a,
            None => self.space.find_empty(&mut self.seat, size)?,
        };
        self.space.occupy(&mut self.seat, place, 1, size, self.next);
        self.young.push_reserved(place);
        self.next = next;
        Some(place)
    }

    /// Whether an object is dead.
    pub fn has_dead(&self) -> bool {
        !self.dead.is_empty()
    }

    /// From now on all objects are dead, if none was. Tells the stop word of the marking that was.
    pub fn condemn(&mut self) -> Option<u32> {
        if !self.dead.is_empty() {
            return None;
        }
        self.space.shape_is_valid();
        self.seat.bodies_lie_apart();
        self.space.words().set_stop(&mut self.seat, false);
        let count = self.space.word_count();
        let stop = self
            .space
            .words()
            .load::<Reading>(&mut self.seat, count + count / 64);
        self.space.words().set_stop(&mut self.seat, true);
        mem::swap(&mut self.dead, &mut self.young);
        u32::try_from(stop).ok()
    }

    /// Takes one of the dead objects away, and tells its place.
    pub fn free(&mut self, chosen: u32) -> Option<u32> {
        if self.dead.is_empty() {
            return None;
        }
        let place = self.dead[chosen as usize % self.dead.len()];
        self.seat.bodies_lie_apart();
        let size = self.space.header_at(&mut self.seat, place).size;
        self.space.free(&mut self.seat, place, size);
        leave_out(&mut self.dead, place);
        leave_out(&mut self.young, place);
        Some(place)
    }
}

/// A table of two types without fields.
pub fn two_types(alloc: Global) -> Result<TypeTable, NoMemory>
    ensures { IfOk result (λ types. types ≡ no_type ∷ no_type ∷ []) }
{
    let mut types = Vec::new(alloc);
    types.push(TypeDecl::new(Vec::new(alloc), Vec::new(alloc), Vec::new(alloc)))?;
    types.push(TypeDecl::new(Vec::new(alloc), Vec::new(alloc), Vec::new(alloc)))?;
    let Ok(types) = TypeTable::new(alloc, types, 0) else {
        return Err(NoMemory);
    };
    Ok(types)
}

fn leave_out(places: &mut Vec<u32>, place: u32)
    ensures { places.new.items ≡ without places.old.items place }
{
    places.retain(|other| *other != place);
}
