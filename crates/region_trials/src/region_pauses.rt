// A start, and the pause after it.

ghost use Rattle.std.specs.Prelude.{◌≡◌, true};
ghost use Rattle.cross_thread_region.specs.Histories.{is_started};
ghost use Rattle.region_trials.specs.FreePasses.{IsFree};

use crate::region_calls::{call, end_without, export, import, start};
use cross_thread_region::{HeldRegion, Pass, Region};
use gc_graph::{Op, Reply};
use std::alloc::Global;
use std::sync::Wait;

/// Slots 0 and 1 name one object, strongly and weakly, and slots 2 and 31 another one, weakly.
fn fill<R: Wait>(rt: &R, region: &Region, pass: &mut Pass)
    requires free { IsFree region.now.lock 0 pass.old }
    requires slots { region.now.slots ≡ 32 }
    ensures { IsFree region.now.lock 0 pass.new }
{
    export(rt, region, pass, 0, 3, 30);
    call(rt, region, pass, 0, Op::Copy { from: 0, into: 1 });
    call(rt, region, pass, 0, Op::Weaken { slot: 1 });
    export(rt, region, pass, 2, 5, 50);
    call(rt, region, pass, 0, Op::Weaken { slot: 2 });
    call(rt, region, pass, 0, Op::Copy { from: 2, into: 31 });
}

/// Whether a start tells of the strong slot alone.
fn tells_of_one(strong: &[u32; 32]) -> bool {
    strong[0] == 31 && strong[1..] == [0; 31]
}

/// Whether a pause may look at the places of the strong slot and of the weak ones.
fn shows_places(held: &HeldRegion) -> bool {
    let strong = (held.strong(0), held.strong(1), held.strong(31));
    let weak = (held.weak(0), held.weak(1), held.weak(31));
    strong == (Some(30), None, None) && weak == (None, Some(30), Some(50))
}

/// The pause clears slots 2 and 31, whose object is dead; slot 1 still names its object.
fn clears_two<R: Wait>(rt: &R, region: &Region, pass: &mut Pass) -> bool
    requires free { IsFree region.now.lock 0 pass.old }
    requires slots { region.now.slots ≡ 32 }
    requires started { is_started pass.old.seen ≡ true }
{
    let held = region.pause_begin(rt, pass);
    let shown = shows_places(&held);
    let cleared = end_without(region, pass, held, 50);
    let left = matches!(import(rt, region, pass, 1), (Reply::Node(3), 30));
    let gone = matches!(import(rt, region, pass, 31), (Reply::Null, 0));
    shown & (cleared == 2147483652) & left & gone
}

/// Whether a start tells what it is to, and the pause after it clears what it is to.
fn starts_and_clears<R: Wait>(rt: &R, region: &Region, pass: &mut Pass) -> bool
    requires free { IsFree region.now.lock 0 pass.old }
    requires slots { region.now.slots ≡ 32 }
{
    fill(rt, region, pass);
    let mut strong = [9; 32];
    if start(rt, region, pass, &mut strong) {
        tells_of_one(&strong) & clears_two(rt, region, pass)
    } else {
        false
    }
}

fn is_right<R: Wait>(rt: &R, alloc: Global) -> bool {
    match Region::new(alloc, 32) {
        Ok((region, mut pass)) => starts_and_clears(rt, &region, &mut pass),
        Err(_) => false,
    }
}

#[test]
fn pause_clears_weak_slots_of_dead_objects(rt: HostRuntime) {
    assert!(rt; is_right(&rt, rt.alloc()));
}
