// What a collection does to the objects: marking begins, goes on in steps, and ends with the pause.

ghost use Rattle.std.specs.Prelude.{◌≡◌, ℕ, List, [], Option, ◌+◌, ◌<◌, ◌++◌};
ghost use Rattle.std.specs.Prelude.{◌≤◌, Bool, true, false, length, map, Some, All, Contains};
ghost use Rattle.gc_graph.specs.May.{members};
ghost use Rattle.gc_graph.specs.Reach.{Reach};
ghost use Rattle.gc_graph.specs.State.{node_at, size_of, graph_of, IsLive, slot_targets};
ghost use Rattle.gc_graph.specs.Pause.{live_count, dead_count, is_dead_at, clear_slot};
ghost use Rattle.gc_graph.specs.Valid.{AreLive};
ghost use Rattle.callback_table.specs.Registry.{IsRegistered};
ghost use Rattle.callback_table.specs.Table.{callback_kinds};
ghost use Rattle.marker_core.specs.Bodies.{holds};
ghost use Rattle.marker_core.specs.Laws.{IsLeastOver};
ghost use Rattle.page_words.specs.Roles.{kind_lists};
ghost use Rattle.page_words.specs.Seat.{IsQuiet, PairsAreWhole, begun};
ghost use Rattle.page_space.specs.Space.{IsSeatOf};
ghost use Rattle.atomic_pause.specs.Nodes.{AreOfValid};
ghost use Rattle.atomic_pause.specs.PlacesInWords.{places_of_slots, BodiesAreJudged};
ghost use Rattle.atomic_pause.specs.Pausing.{IsPaused, NamePlaces, hits_in};
ghost use Rattle.atomic_pause.specs.WeakCalling.{AreOfHolders};
ghost use Rattle.atomic_pause.specs.Pausing.{IsPausable, IsPausedRegion, shared_roots};
ghost use Rattle.heap_objects.specs.Crews.{IsIdleOrLong, KeepsTaken};
ghost use Rattle.heap_objects.specs.Marks.{ObjectsAreAtRest, HasMarking, NameRoots, TellsRoots};
ghost use Rattle.heap_objects.specs.Objects.{setup_of_objects, refused_of};
ghost use Rattle.heap_objects.specs.Refused.{IsToldTruly};

use crate::crew::join_if_running;
use crate::marking::{clear, refused};
use crate::objects::Objects;
use crate::steps::step;
use atomic_pause::{NodeLists, Parts, PauseResult, pause, visit_slots, visit_told};
use callback_table::{CallbackTable, Registrations};
use cross_thread_region::{Pass, Region};
use ghost_values::GhostValue;
use page_space::Space;
use page_words::MutatorSeat;
use persistent_slots::Slots;
use std::sync::Wait;
use std::thread::Threads;

/// What a pause did, and how many objects the markers that it joined had traced.
#[derive(Clone, Copy, Debug, PartialEq, Eq, Drop)]
pub struct Finished {
    pub pause: PauseResult,
    pub crew: u32,
}

impl Objects {
    /// Begins marking: from now on what the roots reach may be kept, and what the strong slots name
    /// is marked, and what the region's strong slots named at the start entry, which told of each of
    /// them the place and 1, and 0 of the others. Contracts alone see the roots, among which are the
    /// targets of all these slots.
    #[inline(never)]
    pub fn begin(&mut self, strong: &Slots, told: &[u32])
        ghost roots: { List ℕ }
        requires valid { AreOfValid (setup_of_objects self.old) self.old.nodes }
        requires rest { ObjectsAreAtRest self.old }
        requires quiet { IsQuiet self.old.seat }
        requires roots { AreLive self.old.nodes roots }
        requires slots { NameRoots self.old.nodes roots strong.now }
        requires told { TellsRoots self.old.nodes roots told.now }
        ensures marks { HasMarking (Reach (graph_of self.old.nodes) roots) self.new }
        ensures slots { (p : ℕ) → Contains strong.now (Some p)
            → holds self.new.seat.marked p ≡ true }
        ensures told { (p : ℕ) → Contains told.now (p + 1)
            → holds self.new.seat.marked p ≡ true }
        ensures traced { self.new.grey.traced ≡ 0 }
        ensures home { self.new.grey.running ≡ [] }
        ensures since { self.new.grey.since ≡ refused_of self.old }
        ensures nodes { self.new.nodes ≡ self.old.nodes }
        ensures setup { setup_of_objects self.new ≡ setup_of_objects self.old }
    {
        gc_graph::reach_is_least();
        self.seat.bodies_lie_apart();
        self.space.lasts_while_objects_stay();
        self.grey.since = refused(&self.grey);
        self.grey.traced = 0;
        let marking = &mut self.grey.marking;
        keep_reached(&self.space, &mut self.seat, &self.nodes);
        marking.on = true;
        self.seat.bodies_lie_apart();
        visit_slots(&self.space, &mut self.seat, marking, strong);
        visit_told(&self.space, &mut self.seat, marking, told);
    }

    /// Traces marked objects, at most so many, by the owner. Answers how many: fewer only where no object
    /// is grey, unless a push was refused; and beside markers, where nothing is found on any list.
    #[inline(never)]
    pub fn step(&mut self, most: u32) -> u32
        requires marks { (may : List Bool) × HasMarking may self.old }
        ensures marks { (may : List Bool) → HasMarking may self.old → HasMarking may self.new }
        ensures most { result ≤ most }
        ensures counted { self.new.grey.traced ≡ self.old.grey.traced + result }
        ensures done { result < most → self.old.grey.markers ≡ 0
            → self.new.grey.marking.overflow ≡ false → (p : ℕ)
            → holds self.new.seat.marked p ≡ true → holds self.new.seat.traced p ≡ true }
        ensures idle { result < most → 0 < length self.old.grey.running
            → IsIdleOrLong self.old.grey self.new.grey }
        ensures took { 0 < length self.old.grey.running
            → KeepsTaken self.old.grey self.new.grey }
        ensures running { self.new.grey.running ≡ self.old.grey.running }
        ensures since { self.new.grey.since ≡ self.old.grey.since }
        ensures nodes { self.new.nodes ≡ self.old.nodes }
        ensures setup { setup_of_objects self.new ≡ setup_of_objects self.old }
    {
        self.seat.bodies_lie_apart();
        self.space.lasts_while_objects_stay();
        // The count of objects fits its type, and so does that of traced ones.
        let _objects = self.space.objects();
        let traced = step(
            &self.space,
            &self.types,
            &mut self.seat,
            &mut self.grey,
            most,
        );
        self.grey.traced += traced;
        traced
    }

    /// Finishes marking, with the pause: what the strong slots, the region's among them in the history
    /// that the pause found, and, unless it is precise, the words of the stack reach is kept, what
    /// couldn't be kept before is condemned unless the region's slots or the stack's words reach it,
    /// what is weak and names a condemned object becomes null, weak callbacks of kept objects run, and
    /// the prefinalizers of the condemned.
    /// Markers that run are stopped and joined first. Then it waits for its turn at the region.
    #[inline(never)]
    pub fn pause<'a, R: Threads + Wait>(
        &mut self,
        rt: &R,
        strong: &'a Slots,
        weak: &mut Slots,
        region: &Region,
        pass: &mut Pass,
        stack: &[u64],
        precise: bool,
        registered: &mut Registrations,
        callbacks: &'a CallbackTable,
    ) -> Finished
        requires valid { AreOfValid (setup_of_objects self.old) self.old.nodes }
        requires marks { (may : List Bool) × HasMarking may self.old }
        requires kinds { callback_kinds callbacks.now ≡ self.old.callbacks }
        requires slots { (slots : List (Option ℕ)) × NamePlaces self.old.nodes slots strong.now }
        requires kept { (p : ℕ) → Contains strong.now (Some p)
            → holds self.old.seat.may p ≡ true }
        requires weak { (slots : List (Option ℕ)) × NamePlaces self.old.nodes slots weak.old }
        requires registered { All (IsRegistered self.old.nodes (length self.old.callbacks))
            registered.old.prefinalizers.entries }
        requires weakly_registered { AreOfHolders self.old.types self.old.nodes
            registered.old.weak_callbacks.entries }
        requires shared { IsPausable self.old.nodes region.now pass.old }
        ensures paused { (slots : List (Option ℕ)) (may : List Bool)
            → NamePlaces self.old.nodes slots strong.now → HasMarking may self.old
            → IsPaused self.old.callbacks self.old.types
            (slot_targets slots ++ shared_roots pass.new
            ++ hits_in precise self.old.nodes stack.now)
            (members may ++ shared_roots pass.new
            ++ hits_in precise self.old.nodes stack.now)
            self.old.nodes self.new.nodes registered.old.prefinalizers
            registered.new.prefinalizers registered.new.weak_callbacks }
        ensures sizes { (n : ℕ) → IsLive self.old.nodes n
            → size_of (node_at self.new.nodes n) ≡ size_of (node_at self.old.nodes n) }
        ensures weak { (slots : List (Option ℕ)) → NamePlaces self.old.nodes slots weak.old →
            weak.new ≡ places_of_slots self.new.nodes
            (map (clear_slot (is_dead_at self.new.nodes)) slots) }
        ensures region { IsPausedRegion self.new.nodes pass.old pass.new }
        ensures rest { ObjectsAreAtRest self.new }
        ensures judged { BodiesAreJudged self.new.seat }
        ensures kept { result.pause.kept ≡ live_count self.new.nodes }
        ensures dead { result.pause.dead ≡ dead_count self.new.nodes }
        ensures traced { self.old.grey.traced + result.crew + result.pause.traced
            ≡ result.pause.kept }
        ensures crew { self.old.grey.running ≡ [] → result.crew ≡ 0 }
        ensures kept_traced { self.new.grey.traced ≡ self.old.grey.traced }
        ensures walked { IsToldTruly self.old.grey.since (refused_of self.new)
            result.pause.walked }
        ensures setup { setup_of_objects self.new ≡ setup_of_objects self.old }
    {
        self.seat.bodies_lie_apart();
        self.space.lasts_while_objects_stay();
        // The count of objects fits its type, and so does that of traced ones.
        let _objects = self.space.objects();
        let crew = join_if_running(rt, &self.space, &mut self.seat, &mut self.grey);
        let result = pause(
            rt,
            Parts {
                seat: &mut self.seat,
                nodes: &mut self.nodes,
                marking: &mut self.grey.marking,
                weak,
                registry: &mut registered.prefinalizers,
                weak_calls: &mut registered.weak_callbacks,
                pass,
                space: &self.space,
                types: &self.types,
                strong,
                region,
                callbacks,
                traced: self.grey.traced + crew,
            },
            self.grey.crew.notes(),
            stack,
            precise,
        );
        clear(&mut self.grey);
        self.seat.bodies_lie_apart();
        Finished {
            pause: result,
            crew,
        }
    }
}

/// Begins marking: from now on what the roots reach may be kept. Contracts alone see the nodes, and
/// the roots, which are places.
fn keep_reached(space: &Space, seat: &mut MutatorSeat, nodes: &GhostValue<NodeLists>)
    ghost roots: { List ℕ }
    requires heap { IsSeatOf space.now seat.old }
    requires quiet { IsQuiet seat.old }
    requires pairs { PairsAreWhole seat.old }
    ensures view { seat.new ≡ begun seat.old roots }
    ensures may { IsLeastOver (kind_lists seat.old.types) seat.old.bodies roots seat.new.may }
{
    let _ = nodes;
    space.words().set_stop(seat, false);
}
