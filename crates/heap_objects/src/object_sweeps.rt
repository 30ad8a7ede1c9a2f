// Sweeping the objects page by page (lazy sweeping, `include/cppgc/heap.h`).

ghost use Rattle.std.specs.Prelude.{◌≡◌, ℕ, ◌+◌, ◌*◌, ◌<◌, ◌≤◌, length, vec_capacity};
ghost use Rattle.page_words.specs.Seat.{IsQuiet};
ghost use Rattle.page_space.specs.Pages.{word_count};
ghost use Rattle.sweeper.specs.Sweeping.{cursor_at, dead_between};
ghost use Rattle.atomic_pause.specs.Nodes.{AreOfValid};
ghost use Rattle.heap_objects.specs.Finalising.{IsSweptTo, FinalisesBelow, AreFewTold};
ghost use Rattle.heap_objects.specs.Marks.{ObjectsAreAtRest};
ghost use Rattle.heap_objects.specs.Objects.{setup_of_objects};

use crate::nodes;
use crate::objects::Objects;
use sweeper::Sweep;

impl Objects {
    /// Sweeps the page at the cursor: its dead objects are finalised. Their numbers follow those that
    /// are in `finalised`. Answers how many these are.
    pub fn finalise_page(&mut self, sweep: &mut Sweep, finalised: &mut Vec<u32>) -> u32
        requires pages { sweep.old.pages ≡ self.old.shape.pages }
        requires open { sweep.old.cursor < sweep.old.pages }
        requires rest { ObjectsAreAtRest self.old }
        requires marks { IsSweptTo (cursor_at self.old.shape sweep.old) self.old.seat }
        requires valid { AreOfValid (setup_of_objects self.old) self.old.nodes }
        requires told { AreFewTold self.old.shape (cursor_at self.old.shape sweep.old)
            self.old.seat finalised.old.items }
        requires room { word_count self.old.shape ≤ 2 * vec_capacity finalised.old }
        ensures cursor { sweep.new ≡ record sweep.old { cursor = sweep.old.cursor + 1 } }
        ensures nodes { FinalisesBelow (cursor_at self.old.shape sweep.new) self.old.nodes
            finalised.old.items finalised.new.items self.new.nodes }
        ensures count { length finalised.new.items ≡ length finalised.old.items + result }
        ensures marks { IsSweptTo (cursor_at self.old.shape sweep.new) self.new.seat }
        ensures quiet { sweep.new.cursor ≡ sweep.new.pages → IsQuiet self.new.seat }
        ensures told { AreFewTold self.old.shape (cursor_at self.old.shape sweep.new)
            self.new.seat finalised.new.items }
        ensures room { vec_capacity finalised.new ≡ vec_capacity finalised.old }
        ensures setup { setup_of_objects self.new ≡ setup_of_objects self.old }
        ensures rest { ObjectsAreAtRest self.new }
        ensures grey { self.new.grey ≡ self.old.grey }
    {
        self.seat.bodies_lie_apart();
        sweeper::dead_are_few(&self.space, &self.seat);
        let swept = sweep.page(&mut self.space, &mut self.seat, finalised);
        self.nodes = nodes::finalised(&self.nodes, &self.space, sweep);
        swept.finalised
    }

    /// Sweeps the pages that are left: their dead objects are finalised. Their numbers follow those
    /// that are in `finalised`. Answers how many these are.
    pub fn finalise_rest(&mut self, sweep: &mut Sweep, finalised: &mut Vec<u32>) -> u32
        requires pages { sweep.old.pages ≡ self.old.shape.pages }
        requires rest { ObjectsAreAtRest self.old }
        requires marks { IsSweptTo (cursor_at self.old.shape sweep.old) self.old.seat }
        requires valid { AreOfValid (setup_of_objects self.old) self.old.nodes }
        requires told { AreFewTold self.old.shape (cursor_at self.old.shape sweep.old)
            self.old.seat finalised.old.items }
        requires room { word_count self.old.shape ≤ 2 * vec_capacity finalised.old }
        ensures cursor { sweep.new ≡ record sweep.old { cursor = sweep.old.pages } }
        ensures nodes { FinalisesBelow (cursor_at self.old.shape sweep.new) self.old.nodes
            finalised.old.items finalised.new.items self.new.nodes }
        ensures count { length finalised.new.items ≡ length finalised.old.items + result }
        ensures quiet { IsQuiet self.new.seat }
        ensures told { 2 * length finalised.new.items ≤ word_count self.old.shape }
        ensures room { vec_capacity finalised.new ≡ vec_capacity finalised.old }
        ensures setup { setup_of_objects self.new ≡ setup_of_objects self.old }
        ensures rest { ObjectsAreAtRest self.new }
        ensures grey { self.new.grey ≡ self.old.grey }
    {
        self.seat.bodies_lie_apart();
        let count = sweep.finish(&mut self.space, &mut self.seat, finalised);
        self.nodes = nodes::finalised(&self.nodes, &self.space, sweep);
        count
    }

    /// At most half as many objects are dead as there are words. Whoever calls this has the law.
    pub fn dead_are_few(&self)
        ensures { (from until : ℕ)
            → 2 * dead_between from until self.now.seat ≤ word_count self.now.shape }
    {
        sweeper::dead_are_few(&self.space, &self.seat);
    }
}
