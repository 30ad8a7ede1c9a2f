// Where a new object goes among the objects, and how it is made there.

ghost use Rattle.std.specs.Prelude.{◌≡◌, ℕ, ◌^◌, ◌<◌, ◌≤◌, Bool, List, false, length};
ghost use Rattle.std.specs.Prelude.{Some, IfSome, IfNone};
ghost use Rattle.gc_graph.specs.declared.phase.Phase.{Phase};
ghost use Rattle.gc_graph.specs.Fields.{size_of_type};
ghost use Rattle.gc_graph.specs.May.{may_with_new};
ghost use Rattle.gc_graph.specs.Placement.{IsLowest, IsNowhere, StartsEmptyRun, extents_of};
ghost use Rattle.marker_core.specs.Bodies.{holds};
ghost use Rattle.page_space.specs.Space.{FitsBetween, IsFreePlace};
ghost use Rattle.atomic_pause.specs.Nodes.{AreOfValid, most_nodes};
ghost use Rattle.heap_objects.specs.Objects.{with_made};
ghost use Rattle.heap_objects.specs.Objects.{setup_of_objects};
ghost use Rattle.heap_objects.specs.Marks.{HasMarks};

use crate::nodes;
use crate::objects::Objects;

impl Objects {
    /// How many words an object of the type with so many extra words has.
    pub fn size_of(&self, t: u32, extra: u32) -> u32
        requires ty { t < length self.now.types }
        requires extra { extra ≤ 33554432 }
        ensures size { result ≡ size_of_type (setup_of_objects self.now) t extra }
        ensures least { 2 ≤ result }
        ensures most { result < 2 ^ 26 }
    {
        self.types.size_of(t, extra)
    }

    /// The lowest place for an object of the size in a page of its bucket, from the one page up to,
    /// and without, the other.
    pub fn find(&mut self, size: u32, from: u32, to: u32) -> Option<u32>
        requires some { 2 ≤ size }
        requires to { to ≤ self.old.shape.pages }
        ensures found { IfSome result (IsLowest
            (FitsBetween self.old.shape from to (extents_of self.old.nodes) size)) }
        ensures none { IfNone result (IsNowhere
            (FitsBetween self.old.shape from to (extents_of self.old.nodes) size)) }
        ensures place { IfSome result
            (IsFreePlace self.old.shape (extents_of self.old.nodes) size) }
        ensures same { self.new ≡ self.old }
    {
        self.space.find(&mut self.seat, size, from, to)
    }

    /// The first word of the lowest run of pages without objects that is just enough for the size.
    pub fn find_empty(&mut self, size: u32) -> Option<u32>
        requires some { 2 ≤ size }
        requires most { size < 2 ^ 26 }
        ensures found { IfSome result
            (IsLowest (StartsEmptyRun self.old.shape (extents_of self.old.nodes) size)) }
        ensures none { IfNone result
            (IsNowhere (StartsEmptyRun self.old.shape (extents_of self.old.nodes) size)) }
        ensures place { IfSome result
            (IsFreePlace self.old.shape (extents_of self.old.nodes) size) }
        ensures same { self.new ≡ self.old }
    {
        self.space.find_empty(&mut self.seat, size)
    }

    /// Makes an object of a type with so many extra words, which is of this size, at a free place.
    pub fn make(&mut self, t: u32, extra: u32, size: u32, place: u32)
        requires ty { t < length self.old.types }
        requires extra { extra ≤ 33554432 }
        requires valid { AreOfValid (setup_of_objects self.old) self.old.nodes }
        requires few { length self.old.nodes < most_nodes }
        requires size { size ≡ size_of_type (setup_of_objects self.old) t extra }
        requires some { 2 ≤ size }
        requires most { size < 2 ^ 26 }
        requires place { IsFreePlace self.old.shape (extents_of self.old.nodes) size place }
        requires alive { self.old.seat.on ≡ false → holds self.old.seat.dead place ≡ false }
        ensures nodes { self.new.nodes
            ≡ with_made (setup_of_objects self.old) self.old.nodes t extra (Some place) }
        ensures marks { (phase : Phase) (limit : ℕ) (may : List Bool) → place < limit
            → HasMarks phase limit may self.old
            → HasMarks phase limit (may_with_new phase may) self.new }
        ensures setup { setup_of_objects self.new ≡ setup_of_objects self.old }
        ensures grey { self.new.grey ≡ self.old.grey }
    {
        self.seat.bodies_lie_apart();
        self.space.occupy(&mut self.seat, place, t, size, self.made);
        self.seat.bodies_lie_apart();
        self.made += 1;
        self.nodes = nodes::made(&self.nodes, &self.space, &self.types, t, extra, place);
    }
}
