// The objects of a heap: their words, their pages and their types.

ghost use Rattle.std.specs.Prelude.{◌≡◌, ℕ, ◌+◌, ◌*◌, ◌<◌};
ghost use Rattle.std.specs.Prelude.{◌≤◌, [], length, IfOk};
ghost use Rattle.gc_graph.specs.State.{type_at, node_at, size_of, objects_of, used_of};
ghost use Rattle.gc_graph.specs.Placement.{IsUsedPages, extents_of};
ghost use Rattle.page_words.specs.Seat.{empty_view};
ghost use Rattle.gc_graph.specs.Shapes.{IsShape};
ghost use Rattle.page_space.specs.Pages.{word_count};
ghost use Rattle.callback_table.specs.Table.{callback_kinds};
ghost use Rattle.heap_objects.specs.Objects.{HaveCallbacks, IsLiveAt};
ghost use Rattle.heap_objects.specs.Objects.{setup_of_objects};
ghost use Rattle.heap_objects.specs.Marking.{no_grey};

use crate::kinds::{self, Kinds};
use crate::marking::Grey;
use atomic_pause::NodeLists;
use callback_table::CallbackTable;
use gc_graph::NoMemory;
use ghost_values::GhostValue;
use page_space::Space;
use page_words::MutatorSeat;
use std::alloc::Global;
use std::marker::Model;
use std::sync::Arc;
use type_table::TypeTable;

/// The objects of a heap, by place. Places, sizes and offsets are in words.
#[derive(Drop)]
pub struct Objects {
    pub(crate) alloc: Global,
    pub(crate) space: Space,
    pub(crate) seat: MutatorSeat,
    pub(crate) types: Arc<TypeTable>,
    /// The kinds of the callbacks.
    pub(crate) kinds: GhostValue<Kinds>,
    /// How many numbers were given out.
    pub(crate) made: u32,
    pub(crate) nodes: GhostValue<NodeLists>,
    /// What is kept of marking.
    pub(crate) grey: Grey,
}

impl Model for Objects {
    ghost use Rattle.std.specs.Arc.{arc_value};
    ghost use Rattle.heap_objects.specs.Objects.{AreObjects};
    ghost use Rattle.heap_objects.specs.Objects.{ObjectsView};
    ghost use Rattle.heap_objects.specs.Marking.{grey_of};
    ghost use Rattle.page_words.specs.Seat.{unlooked};

    ghost Value = { ObjectsView };

    ghost view = { λ o. record {
      shape = o.space.shape;
      types = arc_value o.types;
      callbacks = o.kinds.value;
      nodes = o.nodes.value;
      seat = unlooked o.seat;
      grey = grey_of o.grey;
    } };

    ghost invariant = { λ o. AreObjects o.space o.seat (arc_value o.types) o.kinds.value o.made
        o.nodes.value o.grey };
}

impl Objects {
    /// No objects of these types, in words of this shape, with so many markers. Want of memory is free.
    pub fn new(
        alloc: Global,
        pages: u32,
        page_words: u32,
        markers: u32,
        types: TypeTable,
        callbacks: &CallbackTable,
    ) -> Result<Objects, NoMemory>
        requires few_markers { markers ≤ 8 }
        requires shape { IsShape (record { pages = pages; page_words = page_words }) }
        requires called { HaveCallbacks (length (callback_kinds callbacks.now)) types }
        requires few { length types < 16384 }
        ensures view { IfOk result (λ o. o ≡ record {
          shape = record { pages = pages; page_words = page_words };
          types = types;
          callbacks = callback_kinds callbacks.now;
          nodes = [];
          seat = empty_view o.seat.heap types;
          grey = no_grey markers;
        }) }
    {
        let (space, seat) = Space::new(alloc, pages, page_words, &types)?;
        let types = Arc::new(alloc, types)?;
        Ok(Objects {
            alloc,
            space,
            seat,
            types,
            kinds: kinds::of(callbacks),
            made: 0,
            nodes: NodeLists::none(),
            grey: Grey::new(alloc, markers)?,
        })
    }

    /// Takes room for marking by the owner. Want of memory is free.
    pub fn reserve(&mut self) -> Result<(), NoMemory>
        ensures { self.new ≡ self.old }
    {
        self.grey.reserve()
    }

    /// The shape is one that a heap can have. Whoever calls this has the law.
    pub fn shape_is_valid(&self)
        ensures { IsShape self.now.shape }
    {
        self.space.shape_is_valid();
    }

    /// The seat is one for as many words as the shape has. Whoever calls this has the law.
    pub fn seat_has_all_words(&self)
        ensures { self.now.seat.count ≡ word_count self.now.shape }
    {
        self.space.shape_is_valid();
    }

    /// How many words the heap has.
    pub fn word_count(&self) -> u32
        ensures { result ≡ word_count self.now.shape }
    {
        self.space.word_count()
    }

    /// How many pages the heap has.
    pub fn pages(&self) -> u32
        ensures { result ≡ self.now.shape.pages }
    {
        self.space.pages()
    }

    /// How many numbers were given out, which is the number of the next object.
    pub fn made(&self) -> u32
        ensures { result ≡ length self.now.nodes }
    {
        self.made
    }

    /// The numbers of the callbacks that are a type's prefinalizers, in their order.
    pub fn callbacks(&self, t: u32) -> &[u32]
        requires { t < length self.now.types }
        ensures { result.now ≡ (type_at (setup_of_objects self.now) t).prefinalizers }
    {
        self.types.callbacks(t)
    }

    /// The numbers of the callbacks that are a type's weak ones, in their order.
    pub fn weak_callbacks(&self, t: u32) -> &[u32]
        requires { t < length self.now.types }
        ensures { result.now ≡ (type_at (setup_of_objects self.now) t).weak_callbacks }
    {
        self.types.weak_callbacks(t)
    }

    /// How many objects are not finalised, how many words they have, and how many pages hold one
    /// of these.
    pub fn totals(&self) -> (u32, u32, u32)
        ensures objects { result.0 ≡ objects_of self.now.nodes }
        ensures used { result.1 ≡ used_of self.now.nodes }
        ensures pages { IsUsedPages self.now.shape (extents_of self.now.nodes) result.2 }
    {
        (
            self.space.objects(),
            self.space.used(),
            self.space.pages_in_use(),
        )
    }

    /// How many objects are not finalised.
    pub fn count(&self) -> u32
        ensures { result ≡ objects_of self.now.nodes }
    {
        self.space.objects()
    }

    /// The number of the object at a place.
    pub fn number_at(&mut self, place: u32) -> u32
        requires place { (n : ℕ) × IsLiveAt self.old.nodes n place }
        ensures number { (n : ℕ) → IsLiveAt self.old.nodes n place → result ≡ n }
        ensures same { self.new ≡ self.old }
    {
        self.seat.bodies_lie_apart();
        self.space.serial_at(&mut self.seat, place)
    }

    /// How many words the object at a place has.
    pub fn size_at(&mut self, place: u32) -> u32
        requires place { (n : ℕ) × IsLiveAt self.old.nodes n place }
        ensures size { (n : ℕ) → IsLiveAt self.old.nodes n place
            → result ≡ size_of (node_at self.old.nodes n) }
        ensures same { self.new ≡ self.old }
    {
        self.space.header_at(&mut self.seat, place).size
    }
}
