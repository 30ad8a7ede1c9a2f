// The pause of a cycle, over the history that it finds.

ghost use Rattle.std.specs.Prelude.{◌≡◌, ◌+◌, ◌++◌, ℕ, List, [], Bool, true, false};
ghost use Rattle.std.specs.Prelude.{Option, Some, length, map, All, Contains};
ghost use Rattle.gc_graph.specs.May.{members};
ghost use Rattle.gc_graph.specs.Pause.{live_count, dead_count, is_dead_at, clear_slot};
ghost use Rattle.gc_graph.specs.State.{node_at, size_of, IsLive, slot_targets};
ghost use Rattle.gc_graph.specs.State.{strong_region_targets};
ghost use Rattle.callback_table.specs.Registry.{IsRegistered};
ghost use Rattle.callback_table.specs.Table.{callback_kinds};
ghost use Rattle.marker_core.specs.Bodies.{holds};
ghost use Rattle.cross_thread_region.specs.Histories.{slots_of, is_started};
ghost use Rattle.heap_objects.specs.Marks.{ObjectsAreAtRest, HasMarking};
ghost use Rattle.heap_objects.specs.Nodes.{AreOfValid};
ghost use Rattle.heap_objects.specs.Objects.{setup_of_objects, refused_of};
ghost use Rattle.heap_objects.specs.Pausing.{IsPaused, NamePlaces, hits_in};
ghost use Rattle.heap_objects.specs.WeakCalling.{AreOfHolders};
ghost use Rattle.heap_objects.specs.PlacesInWords.{places_of_slots, BodiesAreJudged};
ghost use Rattle.heap_objects.specs.Refused.{IsToldTruly};
ghost use Rattle.heap_region.specs.Calls.{HasPauseEntry};
ghost use Rattle.heap_region.specs.Handled.{IsHandled};
ghost use Rattle.heap_region.specs.Owned.{found_of};

use crate::owned::OwnedRegion;
use callback_table::{CallbackTable, Registrations};
use heap_objects::{Finished, Objects};
use persistent_slots::Slots;
use std::sync::Wait;
use std::thread::Threads;

impl OwnedRegion {
    /// Finishes marking, with the pause of `Objects::pause`, which makes its entry behind what
    /// threads have done until then. All of it is taken.
    pub fn pause<'a, R: Threads + Wait>(
        &mut self,
        rt: &R,
        objects: &mut Objects,
        strong: &'a Slots,
        weak: &mut Slots,
        stack: &[u64],
        precise: bool,
        registered: &mut Registrations,
        callbacks: &'a CallbackTable,
    ) -> Finished
        requires opened { self.old.closed ≡ false }
        requires quiet { self.old.told ≡ [] }
        requires started { is_started self.old.taken ≡ true }
        requires handled { IsHandled objects.old.nodes self.old.taken }
        requires valid { AreOfValid (setup_of_objects objects.old) objects.old.nodes }
        requires marks { (may : List Bool) × HasMarking may objects.old }
        requires kinds { callback_kinds callbacks.now ≡ objects.old.callbacks }
        requires slots { (slots : List (Option ℕ)) × NamePlaces objects.old.nodes slots strong.now }
        requires kept { (p : ℕ) → Contains strong.now (Some p)
            → holds objects.old.seat.may p ≡ true }
        requires weak { (slots : List (Option ℕ)) × NamePlaces objects.old.nodes slots weak.old }
        requires registered { All (IsRegistered objects.old.nodes (length objects.old.callbacks))
            registered.old.prefinalizers.entries }
        requires weakly_registered { AreOfHolders objects.old.types objects.old.nodes
            registered.old.weak_callbacks.entries }
        ensures entry { HasPauseEntry objects.new.nodes self.old self.new }
        ensures paused { (slots : List (Option ℕ)) (may : List Bool)
            → NamePlaces objects.old.nodes slots strong.now → HasMarking may objects.old
            → IsPaused objects.old.callbacks objects.old.types
            (slot_targets slots ++ strong_region_targets (slots_of (found_of self.new))
            ++ hits_in precise objects.old.nodes stack.now)
            (members may ++ strong_region_targets (slots_of (found_of self.new))
            ++ hits_in precise objects.old.nodes stack.now)
            objects.old.nodes objects.new.nodes registered.old.prefinalizers
            registered.new.prefinalizers registered.new.weak_callbacks }
        ensures sizes { (n : ℕ) → IsLive objects.old.nodes n
            → size_of (node_at objects.new.nodes n) ≡ size_of (node_at objects.old.nodes n) }
        ensures weak { (slots : List (Option ℕ)) → NamePlaces objects.old.nodes slots weak.old →
            weak.new ≡ places_of_slots objects.new.nodes
            (map (clear_slot (is_dead_at objects.new.nodes)) slots) }
        ensures rest { ObjectsAreAtRest objects.new }
        ensures judged { BodiesAreJudged objects.new.seat }
        ensures kept { result.pause.kept ≡ live_count objects.new.nodes }
        ensures dead { result.pause.dead ≡ dead_count objects.new.nodes }
        ensures traced { objects.old.grey.traced + result.crew + result.pause.traced
            ≡ result.pause.kept }
        ensures crew { objects.old.grey.running ≡ [] → result.crew ≡ 0 }
        ensures kept_traced { objects.new.grey.traced ≡ objects.old.grey.traced }
        ensures walked { IsToldTruly objects.old.grey.since (refused_of objects.new)
            result.pause.walked }
        ensures setup { setup_of_objects objects.new ≡ setup_of_objects objects.old }
    {
        self.pass.is_legal();
        let finished = objects.pause(
            rt,
            strong,
            weak,
            &self.region,
            &mut self.pass,
            stack,
            precise,
            registered,
            callbacks,
        );
        self.pass.is_legal();
        self.taken = self.region.entries(&mut self.pass) as u32;
        finished
    }
}
