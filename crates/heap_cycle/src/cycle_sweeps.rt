// The sweeps of a cycle page by page (lazy sweeping, `include/cppgc/heap.h`).

ghost use Rattle.std.specs.Prelude.{◌≡◌, ◌+◌, ◌*◌, ◌<◌, ◌≤◌, length, vec_capacity};
ghost use Rattle.gc_graph.specs.declared.phase.Phase.TheVariants.{Sweeping};
ghost use Rattle.gc_graph.specs.State.{Shape};
ghost use Rattle.gc_graph.specs.Sweep.{phase_at};
ghost use Rattle.heap_roots.specs.Pages.{word_count};
ghost use Rattle.heap_roots.specs.Sweeping.{cursor_at};
ghost use Rattle.heap_roots.specs.Nodes.{AreOfValid};
ghost use Rattle.heap_roots.specs.Finalising.{IsSweptTo, AreFewTold};
ghost use Rattle.heap_roots.specs.Marks.{ObjectsAreAtRest};
ghost use Rattle.heap_roots.specs.Objects.{setup_of_objects};
ghost use Rattle.heap_cycle.specs.Changes.{SweepsParts};

use crate::cycle::Cycle;
use crate::states;
use gc_graph::Phase;
use heap_roots::Objects;

impl Cycle {
    /// How many pages are swept: all of them where no sweep is open.
    pub fn swept_pages(&self) -> u32
        ensures { result ≡ self.now.sweep.cursor }
    {
        self.sweep.cursor()
    }

    /// Sweeps the page at the cursor.
    pub fn sweep_page(&mut self, objects: &mut Objects, finalised: &mut Vec<u32>)
        requires phase { self.old.phase ≡ Sweeping }
        requires pages { self.old.sweep.pages ≡ objects.old.shape.pages }
        requires open { self.old.sweep.cursor < self.old.sweep.pages }
        requires rest { ObjectsAreAtRest objects.old }
        requires marks { IsSweptTo (cursor_at objects.old.shape self.old.sweep) objects.old.seat }
        requires valid { AreOfValid (setup_of_objects objects.old) objects.old.nodes }
        requires told { AreFewTold objects.old.shape
            (cursor_at objects.old.shape self.old.sweep) objects.old.seat finalised.old.items }
        requires room { word_count objects.old.shape ≤ 2 * vec_capacity finalised.old }
        ensures swept { SweepsParts objects.old objects.new self.old self.new
            (self.old.sweep.cursor + 1) finalised.old.items finalised.new.items }
        ensures told { AreFewTold objects.old.shape
            (cursor_at objects.old.shape self.new.sweep) objects.new.seat finalised.new.items }
        ensures room { vec_capacity finalised.new ≡ vec_capacity finalised.old }
    {
        let count = objects.finalise_page(&mut self.sweep, finalised);
        self.counts.finalised = self.counts.finalised.saturating_add(u64::from(count));
        self.rest = states::swept(&self.rest, self.sweep.cursor(), count);
        self.phase = phase_after(self.sweep.cursor(), objects.pages());
    }

    /// Sweeps the pages that are left, however many these are.
    pub fn end_sweep(&mut self, objects: &mut Objects, finalised: &mut Vec<u32>)
        requires phase { self.old.phase ≡ Sweeping }
        requires pages { self.old.sweep.pages ≡ objects.old.shape.pages }
        requires rest { ObjectsAreAtRest objects.old }
        requires marks { IsSweptTo (cursor_at objects.old.shape self.old.sweep) objects.old.seat }
        requires valid { AreOfValid (setup_of_objects objects.old) objects.old.nodes }
        requires told { AreFewTold objects.old.shape
            (cursor_at objects.old.shape self.old.sweep) objects.old.seat finalised.old.items }
        requires room { word_count objects.old.shape ≤ 2 * vec_capacity finalised.old }
        ensures swept { SweepsParts objects.old objects.new self.old self.new
            objects.old.shape.pages finalised.old.items finalised.new.items }
        ensures told { 2 * length finalised.new.items ≤ word_count objects.old.shape }
        ensures room { vec_capacity finalised.new ≡ vec_capacity finalised.old }
    {
        let count = objects.finalise_rest(&mut self.sweep, finalised);
        self.counts.finalised = self.counts.finalised.saturating_add(u64::from(count));
        self.rest = states::swept(&self.rest, self.sweep.cursor(), count);
        self.phase = Phase::Idle;
    }
}

/// The phase once so many of all pages are swept.
fn phase_after(cursor: u32, pages: u32) -> Phase
    ensures { (shape : Shape) → shape.pages ≡ pages → result ≡ phase_at shape cursor }
{
    if cursor == pages {
        Phase::Idle
    } else {
        Phase::Sweeping
    }
}
