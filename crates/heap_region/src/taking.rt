// The owner takes what its pass has seen: the objects are looked at as the entries read them.

ghost use Rattle.std.specs.Prelude.{◌≡◌, ◌<◌, ◌≤◌, ℕ, drop, take, length};
ghost use Rattle.cross_thread_region.specs.Calls.{Finds, IsPassReady, seeing};
ghost use Rattle.cross_thread_region.specs.Histories.{entries_of};
ghost use Rattle.heap_objects.specs.Nodes.{AreOfValid};
ghost use Rattle.heap_objects.specs.Objects.{setup_of_objects};
ghost use Rattle.heap_region.specs.Handled.{IsHandled};
ghost use Rattle.heap_region.specs.Taking.{entries_between, HasLooked};

use cross_thread_region::{HeldHistory, Pass, Region};
use heap_objects::Objects;
use std::sync::Wait;

/// Looks at the objects as the entries read them that the pass has seen behind the first ones, while
/// marking goes on, in a turn of its own. Answers how many the pass had seen.
pub(crate) fn look_at_seen<R: Wait>(
    rt: &R,
    region: &Region,
    pass: &mut Pass,
    objects: &mut Objects,
    from: u32,
) -> u32
    requires ready { IsPassReady region.now pass.old }
    requires few { from ≤ length pass.old.seen }
    requires valid { AreOfValid (setup_of_objects objects.old) objects.old.nodes }
    requires handled { (k : ℕ) → from ≤ k → k < length pass.old.seen
        → IsHandled objects.old.nodes (take k pass.old.seen) }
    ensures count { result ≡ length pass.old.seen }
    ensures found { Finds pass.old pass.new.seen }
    ensures pass { pass.new ≡ seeing pass.old pass.new.seen }
    ensures looked { HasLooked objects.old (take from pass.old.seen)
        (entries_of (drop from pass.old.seen)) objects.new }
{
    pass.is_legal();
    let to = region.entries(pass) as u32;
    if objects.is_marking() {
        look_in_turn(rt, region, pass, objects, from, to);
    }
    to
}

/// Does so in a turn.
#[inline(never)]
fn look_in_turn<R: Wait>(
    rt: &R,
    region: &Region,
    pass: &mut Pass,
    objects: &mut Objects,
    from: u32,
    to: u32,
)
    requires ready { IsPassReady region.now pass.old }
    requires few { from ≤ to }
    requires all { to ≡ length pass.old.seen }
    requires valid { AreOfValid (setup_of_objects objects.old) objects.old.nodes }
    requires handled { (k : ℕ) → from ≤ k → k < to
        → IsHandled objects.old.nodes (take k pass.old.seen) }
    ensures found { Finds pass.old pass.new.seen }
    ensures pass { pass.new ≡ seeing pass.old pass.new.seen }
    ensures looked { HasLooked objects.old (take from pass.old.seen)
        (entries_of (drop from pass.old.seen)) objects.new }
{
    let held = region.look(rt, pass);
    look_again(&held, objects, from, to);
    region.end_look(pass, held);
}

/// Reads weakly what these entries of the history read from weak slots: while marking goes on, that
/// may be kept.
pub(crate) fn look_again(held: &HeldHistory, objects: &mut Objects, from: u32, to: u32)
    requires order { from ≤ to }
    requires within { to ≤ length held.now.history }
    requires valid { AreOfValid (setup_of_objects objects.old) objects.old.nodes }
    requires handled { (k : ℕ) → from ≤ k → k < to
        → IsHandled objects.old.nodes (take k held.now.history) }
    ensures { HasLooked objects.old (take from held.now.history)
        (entries_between from to held.now.history) objects.new }
{
    for i in from..to {
        if let Some(place) = held.read_place(i) {
            objects.read_weakly(place);
        }
    }
}
