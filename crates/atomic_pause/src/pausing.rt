// The pause.

ghost use Rattle.std.specs.Prelude.{◌≡◌, ◌≤◌, ◌+◌, ℕ, Bool, List, Option, Some, All, length, map};
ghost use Rattle.std.specs.Prelude.{◌++◌, [], true, false, Contains};
ghost use Rattle.std.specs.Option.{ForSome};
ghost use Rattle.gc_graph.specs.State.{slot_targets};
ghost use Rattle.gc_graph.specs.May.{members};
ghost use Rattle.gc_graph.specs.Pause.{live_count, dead_count, is_dead_at, clear_slot};
ghost use Rattle.callback_table.specs.Registry.{IsRegistered};
ghost use Rattle.callback_table.specs.Table.{callback_kinds};
ghost use Rattle.mark_worklist.specs.Refusals.{TellsRefused, refusals_of};
ghost use Rattle.marker_core.specs.Bodies.{IsPlace, holds};
ghost use Rattle.weak_clearing.specs.Space.{IsSpaceOf, extents_of_bodies};
ghost use Rattle.persistent_slots.specs.Clearing.{taken};
ghost use Rattle.ephemerons.specs.Marking.{traced_count};
ghost use Rattle.ephemerons.specs.UnderWay.{IsReadyToEnd};
ghost use Rattle.ephemerons.specs.Fixpoint.{IsUnrefused};
ghost use Rattle.ephemerons.specs.Notes.{group_at, refusals_in};
ghost use Rattle.prefinalizer_effects.specs.Nodes.{AreOfValid, IsHeld, most_nodes};
ghost use Rattle.prefinalizer_effects.specs.PlacesInWords.{places_of_slots};
ghost use Rattle.prefinalizer_effects.specs.Prepared.{setup_in_space, IsPrepared};
ghost use Rattle.atomic_pause.specs.Marking.{LooksEarlyAt};
ghost use Rattle.atomic_pause.specs.Pausing.{NamePlaces, IsMayWithin, hits_in};
ghost use Rattle.atomic_pause.specs.Pausing.{IsPaused, IsPlaceOfKept};
ghost use Rattle.atomic_pause.specs.Pausing.{IsPausable, IsPausedRegion, shared_roots};
ghost use Rattle.atomic_pause.specs.Left.{seat_left, nodes_left, marking_left};
ghost use Rattle.atomic_pause.specs.Left.{weak_left, registry_left};
ghost use Rattle.atomic_pause.specs.Left.{weak_calls_left, pass_left};
ghost use Rattle.atomic_pause.specs.WeakCalling.{AreOfHolders, MayCallBack};

use crate::clearing::clear_weak;
use crate::closing::is_refused;
use crate::judging::judged;
use crate::marking::mark_out;
use crate::parts::{Parts, PauseResult};
use crate::prefinalizing::call_back;
use crate::region_clearing::clear_region;
use ephemerons::Pairs;
use std::sync::Wait;

/// Keeps what the roots reach and condemns the other objects. The roots are what the strong slots
/// name, those of the region too in the history that the pause found, and, unless the pause is
/// precise, the objects with a word at an address of the stack (`include/cppgc/README.md`, precise
/// and conservative garbage collection). It is called while marking goes on, by the thread that owns
/// the heap, once no marker has a view or a share; what was marked before it keeps too. Each marker's
/// notes may be a group of their own. Refusals of memory stay told in the marking state and the
/// notes, until their owner clears these. It waits for its turn at the region, which ends once the
/// region's weak slots are cleared.
pub fn pause<R: Wait>(
    rt: &R,
    parts: Parts,
    notes: &mut [Pairs],
    stack: &[u64],
    precise: bool,
) -> PauseResult
    requires heap { IsSpaceOf parts.space.now parts.seat.now }
    requires types { parts.seat.now.types ≡ parts.types.now }
    requires valid { AreOfValid
        (setup_in_space parts.space.now parts.types.now (callback_kinds parts.callbacks.now))
        parts.nodes.now.value }
    requires held { IsHeld parts.nodes.now.value parts.seat.now }
    requires few { length parts.nodes.now.value ≤ most_nodes }
    requires ready { IsReadyToEnd parts.types.now parts.seat.now parts.marking.now
        notes.old }
    requires may { (p : ℕ) → Contains parts.strong.now (Some p)
        → holds parts.seat.now.may p ≡ true }
    requires traced { traced_count parts.seat.now ≡ parts.traced }
    requires strong { All (λ slot. ForSome slot (IsPlace parts.seat.now.bodies)) parts.strong.now }
    requires weak { All (IsPlace parts.seat.now.bodies) (taken parts.weak.now) }
    requires registered { All (IsRegistered parts.nodes.now.value
        (length (callback_kinds parts.callbacks.now))) parts.registry.now.entries }
    requires called { MayCallBack (length (callback_kinds parts.callbacks.now)) parts.types.now }
    requires weakly_registered { AreOfHolders parts.types.now parts.nodes.now.value
        parts.weak_calls.now.entries }
    requires shared { IsPausable parts.nodes.now.value parts.region.now parts.pass.now }
    ensures paused { (slots : List (Option ℕ)) (may : List Bool) →
        NamePlaces parts.entry.nodes.now.value slots parts.entry.strong.now →
        IsMayWithin parts.entry.nodes.now.value parts.entry.seat.now may →
        IsPaused (callback_kinds parts.entry.callbacks.now) parts.entry.types.now
        (slot_targets slots ++ shared_roots (pass_left parts.exit).now
        ++ hits_in precise parts.entry.nodes.now.value stack.now)
        (members may ++ shared_roots (pass_left parts.exit).now
        ++ hits_in precise parts.entry.nodes.now.value stack.now)
        parts.entry.nodes.now.value (nodes_left parts.exit).now.value
        parts.entry.registry.now (registry_left parts.exit).now
        (weak_calls_left parts.exit).now }
    ensures weak { (slots : List (Option ℕ)) →
        NamePlaces parts.entry.nodes.now.value slots parts.entry.weak.now →
        (weak_left parts.exit).now ≡ places_of_slots (nodes_left parts.exit).now.value
        (map (clear_slot (is_dead_at (nodes_left parts.exit).now.value)) slots) }
    ensures region { IsPausedRegion (nodes_left parts.exit).now.value
        parts.entry.pass.now (pass_left parts.exit).now }
    ensures ready { IsPrepared parts.entry.space.now parts.entry.types.now
        (seat_left parts.exit).now (nodes_left parts.exit).now.value }
    ensures extents { extents_of_bodies (seat_left parts.exit).now.bodies
        ≡ extents_of_bodies parts.entry.seat.now.bodies }
    ensures kept { result.kept ≡ live_count (nodes_left parts.exit).now.value }
    ensures dead { result.dead ≡ dead_count (nodes_left parts.exit).now.value }
    ensures traced { parts.entry.traced + result.traced ≡ result.kept }
    ensures list { (marking_left parts.exit).now.list.items ≡ [] }
    ensures off { (marking_left parts.exit).now.on ≡ false }
    ensures joined { (marking_left parts.exit).now.list.whole ≡ true }
    ensures shares { length (marking_left parts.exit).now.list.shares
        ≡ length parts.entry.marking.now.list.shares }
    ensures groups { length notes.new ≡ length notes.old }
    ensures walked { result.walked ≡ true →
        IsUnrefused (marking_left parts.exit).now.overflow notes.new → ⊥ }
    ensures whole { result.walked ≡ false →
        IsUnrefused (marking_left parts.exit).now.overflow notes.new }
    ensures looked { precise ≡ true
        → IsUnrefused (marking_left parts.exit).now.overflow notes.new
        → LooksEarlyAt
        (IsPlaceOfKept parts.entry.nodes.now.value (nodes_left parts.exit).now.value)
        parts.entry.seat.now (seat_left parts.exit).now }
    ensures told { TellsRefused (refusals_of parts.entry.marking.now)
        (refusals_of (marking_left parts.exit).now) }
    ensures notes_told { (i : ℕ) → TellsRefused
        (refusals_in (group_at notes.old i))
        (refusals_in (group_at notes.new i)) }
{
    let Parts {
        seat,
        nodes,
        marking,
        weak,
        registry,
        weak_calls,
        pass,
        space,
        types,
        strong,
        region,
        callbacks,
        traced,
    } = parts;
    gc_graph::reach_is_least();
    seat.bodies_lie_apart();
    let held = region.pause_begin(rt, pass);
    let more = mark_out(
        space, types, seat, marking, notes, strong, &held, stack, precise,
    );
    seat.bodies_lie_apart();
    clear_weak(space, types, seat, weak, weak_calls);
    clear_region(space, seat, region, pass, held);
    *nodes = judged(nodes, seat);
    call_back(registry, weak_calls, callbacks, space, types, seat, nodes);
    let kept = traced + more;
    PauseResult {
        kept,
        dead: space.objects() - kept,
        traced: more,
        walked: is_refused(marking, notes),
    }
}
