// Weak clearing of the region: its weak slots that name an object that was not marked become null,
// with the pause's entry.

ghost use Rattle.std.specs.Prelude.{◌≡◌, ◌<◌, ◌+◌, ◌==◌, ℕ, true, false, not};
ghost use Rattle.std.specs.Prelude.{Some, Contains};
ghost use Rattle.std.specs.Io.{StartsWith};
ghost use Rattle.std.specs.List.{list_any};
ghost use Rattle.std.specs.Option.{ForSome};
ghost use Rattle.gc_graph.specs.History.{IsLegal, NamesWeakSlots};
ghost use Rattle.gc_graph.specs.Pause.{clear_slot};
ghost use Rattle.marker_core.specs.Bodies.{IsPlace, holds};
ghost use Rattle.page_words.specs.Seat.{OnlyLooked};
ghost use Rattle.weak_clearing.specs.Space.{IsSeatOf};
ghost use Rattle.cross_thread_region.specs.Histories.{entries_of, slots_of, told_of_slot};
ghost use Rattle.cross_thread_region.specs.Histories.{weak_place};
ghost use Rattle.cross_thread_region.specs.Calls.{after_turn};
ghost use Rattle.cross_thread_region.specs.Pauses.{history_paused, dying_of};

use crate::roots::SHARED;
use cross_thread_region::{HeldRegion, Pass, Region};
use page_words::MutatorSeat;
use weak_clearing::{Space, is_marked};

/// Sets to null the weak slots of the region whose object is not marked, and ends the turn in which
/// the pause holds its history.
pub fn clear_region(
    space: &Space,
    seat: &mut MutatorSeat,
    region: &Region,
    pass: &mut Pass,
    held: HeldRegion,
)
    requires heap { IsSeatOf space.now seat.old }
    requires off { seat.old.on ≡ false }
    requires lock { pass.old.lock ≡ region.now.lock }
    requires first { pass.old.number ≡ 0 }
    requires turn { pass.old.turn ≡ Some (held.ticket, held.history) }
    requires places { (x p : ℕ) → weak_place held.history x ≡ Some p
        → IsPlace seat.old.bodies p }
    ensures pass { pass.new ≡ after_turn pass.old (history_paused held.history
        (dying_of (λ a. not (holds seat.old.marked a)) held.history)) }
    ensures legal { IsLegal (entries_of pass.new.seen) }
    ensures weak { NamesWeakSlots
        (dying_of (λ a. not (holds seat.old.marked a)) held.history)
        (slots_of held.history) }
    ensures view { OnlyLooked seat.old seat.new }
    ensures looked { StartsWith seat.new.looked seat.old.looked }
{
    // The marks first: what the test of `pause_end` could change would be unknown after the call.
    let dead = dead_places(space, seat, &held);
    region.pause_end(
        pass,
        held,
        |place: u32| -> bool
            ensures { result ≡ list_any (λ w. w == place + 1) dead }
        { is_told(&dead, place) },
    );
}

/// Of each weak slot whose object is not marked the place and 1, and 0 of the others.
fn dead_places(space: &Space, seat: &mut MutatorSeat, held: &HeldRegion) -> [u32; 32]
    requires heap { IsSeatOf space.now seat.old }
    requires off { seat.old.on ≡ false }
    requires places { (x p : ℕ) → weak_place held.now.history x ≡ Some p
        → IsPlace seat.old.bodies p }
    ensures dead { (x p : ℕ) → weak_place held.now.history x ≡ Some p
        → holds seat.old.marked p ≡ false → Contains result (p + 1) }
    ensures only { (p : ℕ) → Contains result (p + 1) → holds seat.old.marked p ≡ false }
    ensures view { OnlyLooked seat.old seat.new }
    ensures looked { StartsWith seat.new.looked seat.old.looked }
{
    let mut dead = [0; 32];
    for i in 0..SHARED {
        dead[i as usize] = dead_place(space, seat, held, i);
    }
    dead
}

fn dead_place(space: &Space, seat: &mut MutatorSeat, held: &HeldRegion, i: u32) -> u32
    requires heap { IsSeatOf space.now seat.old }
    requires off { seat.old.on ≡ false }
    requires slot { i < 32 }
    requires place { ForSome (weak_place held.now.history i) (IsPlace seat.old.bodies) }
    ensures dead { result
        ≡ told_of_slot (clear_slot (holds seat.old.marked) (weak_place held.now.history i)) }
    ensures view { OnlyLooked seat.old seat.new }
    ensures looked { StartsWith seat.new.looked seat.old.looked }
{
    seat.bodies_lie_apart();
    match held.weak(i) {
        Some(place) if !is_marked(space, seat, place) => place + 1,
        _ => 0,
    }
}

fn is_told(dead: &[u32], place: u32) -> bool
    ensures { result ≡ list_any (λ w. w == place + 1) dead.now }
{
    for word in dead {
        if *word != 0 && *word - 1 == place {
            return true;
        }
    }
    false
}
