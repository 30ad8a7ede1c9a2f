// The handles of a heap in a collection: marking begins with what they name, and ends with the pause.

ghost use Rattle.std.specs.Prelude.{◌≡◌, ℕ, List, Bool, Some, true, false, [], ◌+◌, ◌++◌};
ghost use Rattle.std.specs.Prelude.{length, map, All, Contains};
ghost use Rattle.gc_graph.specs.May.{members};
ghost use Rattle.gc_graph.specs.Reach.{Reach};
ghost use Rattle.gc_graph.specs.State.{node_at, size_of, graph_of, IsLive};
ghost use Rattle.gc_graph.specs.State.{slot_targets, stack_targets, strong_region_targets};
ghost use Rattle.gc_graph.specs.Pause.{live_count, dead_count, is_dead_at, clear_slot};
ghost use Rattle.gc_graph.specs.Valid.{AreLive};
ghost use Rattle.cross_thread_region.specs.Histories.{slots_of, strong_place};
ghost use Rattle.cross_thread_region.specs.Histories.{start_told, is_started};
ghost use Rattle.callback_table.specs.Registry.{IsRegistered};
ghost use Rattle.callback_table.specs.Table.{callback_kinds};
ghost use Rattle.marker_core.specs.Bodies.{holds};
ghost use Rattle.heap_region.specs.Seat.{IsQuiet};
ghost use Rattle.heap_region.specs.Nodes.{AreOfValid};
ghost use Rattle.heap_region.specs.PlacesInWords.{places_of_slots, BodiesAreJudged};
ghost use Rattle.heap_region.specs.Pausing.{IsPaused, hits_in};
ghost use Rattle.heap_region.specs.WeakCalling.{AreOfHolders};
ghost use Rattle.heap_region.specs.Marks.{ObjectsAreAtRest, HasMarking};
ghost use Rattle.heap_region.specs.Objects.{setup_of_objects, refused_of};
ghost use Rattle.heap_region.specs.Refused.{IsToldTruly};
ghost use Rattle.heap_region.specs.Calls.{HasPauseEntry};
ghost use Rattle.heap_region.specs.Handled.{IsHandled};
ghost use Rattle.heap_region.specs.Owned.{found_of};
ghost use Rattle.heap_roots.specs.Roots.{roots_in};
ghost use Rattle.heap_roots.specs.Stack as spec;

use crate::handles::Handles;
use crate::slot_lists;
use callback_table::{CallbackTable, Registrations};
use gc_graph::Want;
use heap_region::{Finished, Objects, OwnedRegion};
use std::sync::Wait;
use std::thread::Threads;

impl Handles {
    /// Begins marking: from now on what the strong slots, those of the region and the pointers on the
    /// stack reach may be kept, and what the strong slots name is marked, and what the region's strong
    /// slots named at the start entry. Contracts alone see the roots.
    pub fn begin(&self, region: &OwnedRegion, told: &[u32], objects: &mut Objects)
        ghost roots: { List ℕ }
        requires roots { roots ≡ roots_in self.now region.now.taken }
        requires told { told.now ≡ start_told region.now.taken 32 }
        requires shared { IsHandled objects.old.nodes region.now.taken }
        requires valid { AreOfValid (setup_of_objects objects.old) objects.old.nodes }
        requires rest { ObjectsAreAtRest objects.old }
        requires quiet { IsQuiet objects.old.seat }
        requires slots { self.now.places ≡ places_of_slots objects.old.nodes self.now.slots }
        requires live { AreLive objects.old.nodes (slot_targets self.now.slots) }
        requires stack_live { AreLive objects.old.nodes (stack_targets self.now.stack.words) }
        ensures marks { HasMarking (Reach (graph_of objects.old.nodes)
            (roots_in self.now region.now.taken)) objects.new }
        ensures slots { (p : ℕ) → Contains self.now.places (Some p)
            → holds objects.new.seat.marked p ≡ true }
        ensures shared { (x p : ℕ) → strong_place region.now.taken x ≡ Some p
            → holds objects.new.seat.marked p ≡ true }
        ensures traced { objects.new.grey.traced ≡ 0 }
        ensures home { objects.new.grey.running ≡ [] }
        ensures since { objects.new.grey.since ≡ refused_of objects.old }
        ensures nodes { objects.new.nodes ≡ objects.old.nodes }
        ensures setup { setup_of_objects objects.new ≡ setup_of_objects objects.old }
    {
        let _ = region;
        objects.begin(&self.strong, told);
    }

    /// Finishes marking, with the pause: what the strong slots, the region's among them, and, unless it
    /// is precise, the words of the stack reach is kept, what couldn't be kept before is condemned
    /// unless the region's slots or the stack's words reach it, what is weak and names a condemned
    /// object becomes null, weak callbacks of kept objects run, and the prefinalizers of the
    /// condemned. Markers that run are stopped and joined first.
    pub fn pause<R: Threads + Wait>(
        &mut self,
        rt: &R,
        region: &mut OwnedRegion,
        objects: &mut Objects,
        registered: &mut Registrations,
        callbacks: &CallbackTable,
        want: Want,
    ) -> Finished
        requires valid { AreOfValid (setup_of_objects objects.old) objects.old.nodes }
        requires marks { (may : List Bool) × HasMarking may objects.old }
        requires kinds { callback_kinds callbacks.now ≡ objects.old.callbacks }
        requires slots { self.old.places ≡ places_of_slots objects.old.nodes self.old.slots }
        requires weak { self.old.weak_places ≡ places_of_slots objects.old.nodes self.old.weak }
        requires live { AreLive objects.old.nodes (slot_targets self.old.slots) }
        requires kept { (p : ℕ) → Contains self.old.places (Some p)
            → holds objects.old.seat.may p ≡ true }
        requires weak_live { AreLive objects.old.nodes (slot_targets self.old.weak) }
        requires registered { All (IsRegistered objects.old.nodes (length objects.old.callbacks))
            registered.old.prefinalizers.entries }
        requires weakly_registered { AreOfHolders objects.old.types objects.old.nodes
            registered.old.weak_callbacks.entries }
        requires opened { region.old.closed ≡ false }
        requires quiet { region.old.told ≡ [] }
        requires shared { IsHandled objects.old.nodes region.old.taken }
        requires started { is_started region.old.taken ≡ true }
        ensures paused { (may : List Bool) → HasMarking may objects.old
            → IsPaused objects.old.callbacks objects.old.types
            (slot_targets self.old.slots ++ strong_region_targets (slots_of (found_of region.new))
            ++ hits_in (spec.is_precise want) objects.old.nodes self.old.stack.addresses)
            (members may ++ strong_region_targets (slots_of (found_of region.new))
            ++ hits_in (spec.is_precise want) objects.old.nodes self.old.stack.addresses)
            objects.old.nodes objects.new.nodes registered.old.prefinalizers
            registered.new.prefinalizers registered.new.weak_callbacks }
        ensures sizes { (n : ℕ) → IsLive objects.old.nodes n
            → size_of (node_at objects.new.nodes n) ≡ size_of (node_at objects.old.nodes n) }
        ensures handles { self.new ≡ record self.old {
          weak_places = places_of_slots objects.new.nodes self.new.weak;
          weak = map (clear_slot (is_dead_at objects.new.nodes)) self.old.weak;
        } }
        ensures region { HasPauseEntry objects.new.nodes region.old region.new }
        ensures rest { ObjectsAreAtRest objects.new }
        ensures judged { BodiesAreJudged objects.new.seat }
        ensures kept { result.pause.kept ≡ live_count objects.new.nodes }
        ensures dead { result.pause.dead ≡ dead_count objects.new.nodes }
        ensures traced { objects.old.grey.traced + result.crew + result.pause.traced
            ≡ result.pause.kept }
        ensures crew { objects.old.grey.running ≡ [] → result.crew ≡ 0 }
        ensures kept_traced { objects.new.grey.traced ≡ objects.old.grey.traced }
        ensures walked { IsToldTruly objects.old.grey.since (refused_of objects.new)
            result.pause.walked }
        ensures setup { setup_of_objects objects.new ≡ setup_of_objects objects.old }
    {
        let result = region.pause(
            rt,
            objects,
            &self.strong,
            &mut self.weak,
            self.stack.addresses(),
            is_precise(want),
            registered,
            callbacks,
        );
        self.weak_nodes = slot_lists::cleared(&self.weak_nodes, objects);
        result
    }
}

/// Whether the pause leaves the stack alone.
fn is_precise(want: Want) -> bool
    ensures { result ≡ spec.is_precise want }
{
    matches!(want, Want::Precise)
}
