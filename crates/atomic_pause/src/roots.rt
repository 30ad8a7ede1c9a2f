// The roots of a pause: what the strong slots name, those of the region too, and what the words of a
// stack hit.

ghost use Rattle.std.specs.Prelude.{◌≡◌, ◌⊎◌, ◌+◌, ℕ, true, Contains, All, Some, [], ◌∷◌, ◌++◌};
ghost use Rattle.std.specs.Option.{ForSome};
ghost use Rattle.marker_core.specs.Bodies.{IsPlace};
ghost use Rattle.marker_core.specs.Bodies.{holds};
ghost use Rattle.weak_clearing.specs.Space.{IsSeatOf, IsSpaceOf, HoldsAddress};
ghost use Rattle.page_words.specs.Seat.{OnlyLooked};
ghost use Rattle.ephemerons.specs.Fixpoint.{ListsMarks};
ghost use Rattle.ephemerons.specs.LookedAt.{LooksOnlyAt};
ghost use Rattle.cross_thread_region.specs.Histories.{strong_place};
ghost use Rattle.atomic_pause.specs.Marking.{IsHitPlace, IsScanned, IsSharedPlace, with_may};

use cross_thread_region::HeldRegion;
use ephemerons::mark;
use mark_worklist::Marking;
use page_words::{Bodywords, MutatorSeat, WeakRead};
use persistent_slots::Slots;
use weak_clearing::Space;

/// How many slots a region has.
pub(crate) const SHARED: u32 = 32;

/// Marks and lists the targets of the slots.
pub fn visit_slots(space: &Space, seat: &mut MutatorSeat, marking: &mut Marking, slots: &Slots)
    requires heap { IsSeatOf space.now seat.old }
    requires on { seat.old.on ≡ true }
    requires marking { marking.old.on ≡ seat.old.on }
    requires alone { seat.old.lent ≡ 0 }
    requires slots { All (λ slot. ForSome slot (IsPlace seat.old.bodies)) slots.now }
    requires may { (p : ℕ) → Contains slots.now (Some p) → holds seat.old.may p ≡ true }
    ensures marks { ListsMarks seat.old marking.old seat.new marking.new }
    ensures roots { (p : ℕ) → Contains slots.now (Some p) → holds seat.new.marked p ≡ true }
    ensures only { (p : ℕ) → holds seat.new.marked p ≡ true
        → (holds seat.old.marked p ≡ true) ⊎ Contains slots.now (Some p) }
    ensures noted { seat.new.noted ≡ seat.old.noted }
    ensures looked { seat.new.looked ≡ seat.old.looked }
{
    for i in 0..slots.len() {
        if let Some(place) = slots.get(i) {
            mark(space, seat, marking, place);
        }
    }
}

/// Marks and lists the targets of the slots of the region that a start told as strong: of each the
/// place and 1, and 0 of the others.
pub fn visit_told(space: &Space, seat: &mut MutatorSeat, marking: &mut Marking, told: &[u32])
    requires heap { IsSeatOf space.now seat.old }
    requires on { seat.old.on ≡ true }
    requires marking { marking.old.on ≡ seat.old.on }
    requires alone { seat.old.lent ≡ 0 }
    requires places { (p : ℕ) → Contains told.now (p + 1) → IsPlace seat.old.bodies p }
    requires may { (p : ℕ) → Contains told.now (p + 1) → holds seat.old.may p ≡ true }
    ensures marks { ListsMarks seat.old marking.old seat.new marking.new }
    ensures roots { (p : ℕ) → Contains told.now (p + 1) → holds seat.new.marked p ≡ true }
    ensures only { (p : ℕ) → holds seat.new.marked p ≡ true
        → (holds seat.old.marked p ≡ true) ⊎ Contains told.now (p + 1) }
    ensures noted { seat.new.noted ≡ seat.old.noted }
    ensures looked { seat.new.looked ≡ seat.old.looked }
{
    for i in 0..told.len() {
        if told[i] != 0 {
            mark(space, seat, marking, told[i] - 1);
        }
    }
}

/// Marks and lists the targets of the region's strong slots. From now on they may be kept, with all
/// that they reach.
pub fn visit_region(space: &Space, seat: &mut MutatorSeat, marking: &mut Marking, held: &HeldRegion)
    requires heap { IsSeatOf space.now seat.old }
    requires on { seat.old.on ≡ true }
    requires marking { marking.old.on ≡ seat.old.on }
    requires alone { seat.old.lent ≡ 0 }
    requires places { (x p : ℕ) → strong_place held.now.history x ≡ Some p
        → IsPlace seat.old.bodies p }
    ensures marks { ListsMarks (with_may seat.old seat.new.may) marking.old
        seat.new marking.new }
    ensures roots { (x p : ℕ) → strong_place held.now.history x ≡ Some p
        → holds seat.new.marked p ≡ true }
    ensures only { (p : ℕ) → holds seat.new.marked p ≡ true
        → (holds seat.old.marked p ≡ true) ⊎ IsSharedPlace held.now.history p }
    ensures noted { seat.new.noted ≡ seat.old.noted }
    ensures looked { LooksOnlyAt (IsSharedPlace held.now.history) seat.old seat.new }
{
    for i in 0..SHARED {
        if let Some(place) = held.strong(i) {
            keep(space, seat, marking, place);
        }
    }
}

/// Marks and lists the objects that have a word at an address of the stack, unless the pause is
/// precise. From now on they may be kept, with all that they reach.
pub fn scan_stack(
    space: &Space,
    seat: &mut MutatorSeat,
    marking: &mut Marking,
    stack: &[u64],
    precise: bool,
)
    requires space { IsSpaceOf space.now seat.old }
    requires on { seat.old.on ≡ true }
    requires marking { marking.old.on ≡ seat.old.on }
    requires alone { seat.old.lent ≡ 0 }
    ensures marks { ListsMarks (with_may seat.old seat.new.may) marking.old
        seat.new marking.new }
    ensures roots { (p : ℕ) → IsScanned precise seat.old.bodies stack.now p
        → holds seat.new.marked p ≡ true }
    ensures only { (p : ℕ) → holds seat.new.marked p ≡ true
        → (holds seat.old.marked p ≡ true) ⊎ IsScanned precise seat.old.bodies stack.now p }
    ensures noted { seat.new.noted ≡ seat.old.noted }
    ensures looked { precise ≡ true → seat.new.looked ≡ seat.old.looked }
{
    if !precise {
        scan_words(space, seat, marking, stack);
    }
}

fn scan_words(space: &Space, seat: &mut MutatorSeat, marking: &mut Marking, stack: &[u64])
    requires space { IsSpaceOf space.now seat.old }
    requires on { seat.old.on ≡ true }
    requires marking { marking.old.on ≡ seat.old.on }
    requires alone { seat.old.lent ≡ 0 }
    ensures marks { ListsMarks (with_may seat.old seat.new.may) marking.old
        seat.new marking.new }
    ensures roots { (p : ℕ) → IsHitPlace seat.old.bodies stack.now p
        → holds seat.new.marked p ≡ true }
    ensures only { (p : ℕ) → holds seat.new.marked p ≡ true
        → (holds seat.old.marked p ≡ true) ⊎ IsHitPlace seat.old.bodies stack.now p }
    ensures noted { seat.new.noted ≡ seat.old.noted }
{
    for i in 0..stack.len() {
        scan_word(space, seat, marking, stack[i]);
    }
}

fn scan_word(space: &Space, seat: &mut MutatorSeat, marking: &mut Marking, word: u64)
    requires space { IsSpaceOf space.now seat.old }
    requires on { seat.old.on ≡ true }
    requires marking { marking.old.on ≡ seat.old.on }
    requires alone { seat.old.lent ≡ 0 }
    ensures marks { ListsMarks (with_may seat.old seat.new.may) marking.old
        seat.new marking.new }
    ensures root { (p : ℕ) → HoldsAddress seat.old.bodies word p → holds seat.new.marked p ≡ true }
    ensures only { (p : ℕ) → holds seat.new.marked p ≡ true
        → (holds seat.old.marked p ≡ true) ⊎ HoldsAddress seat.old.bodies word p }
    ensures noted { seat.new.noted ≡ seat.old.noted }
{
    seat.bodies_lie_apart();
    if let Some(place) = space.start_of(seat, word) {
        keep(space, seat, marking, place);
    }
}

/// Marks and lists an object. From now on it may be kept, with all that it reaches.
fn keep(space: &Space, seat: &mut MutatorSeat, marking: &mut Marking, place: u32)
    requires heap { IsSeatOf space.now seat.old }
    requires on { seat.old.on ≡ true }
    requires marking { marking.old.on ≡ seat.old.on }
    requires alone { seat.old.lent ≡ 0 }
    requires place { IsPlace seat.old.bodies place }
    ensures marks { ListsMarks (with_may seat.old seat.new.may) marking.old
        seat.new marking.new }
    ensures root { holds seat.new.marked place ≡ true }
    ensures only { (p : ℕ) → holds seat.new.marked p ≡ true
        → (holds seat.old.marked p ≡ true) ⊎ (place ≡ p) }
    ensures noted { seat.new.noted ≡ seat.old.noted }
    ensures looked { seat.new.looked ≡ seat.old.looked ++ place ∷ [] }
{
    read_weakly(space, seat, place);
    mark(space, seat, marking, place);
}

/// Reads an object's header weakly: the cycle may keep the object from now on.
fn read_weakly(space: &Space, seat: &mut MutatorSeat, place: u32)
    requires heap { IsSeatOf space.now seat.old }
    requires on { seat.old.on ≡ true }
    requires place { IsPlace seat.old.bodies place }
    ensures may { holds seat.new.may place ≡ true }
    ensures view { OnlyLooked (with_may seat.old seat.new.may) seat.new }
    ensures looked { seat.new.looked ≡ seat.old.looked ++ place ∷ [] }
{
    seat.bodies_lie_apart();
    space.load::<WeakRead>(seat, place);
}
