// The places that entries read from weak slots.

ghost use Rattle.std.specs.Prelude.{◌≡◌, ◌<◌};
ghost use Rattle.region_trials.specs.FreePasses.{IsFree};

use crate::region_calls::{call, export, import};
use cross_thread_region::{HeldHistory, Pass, Region};
use gc_graph::Op;
use std::alloc::Global;
use std::sync::Wait;

/// Slot 0 is strong and slot 1 weak for the object with place 30. Slot 2 is upgraded from the weak
/// slot, slot 3 from the strong one, and slot 4 from a null one; slots 0 and 1 are imported.
fn fill<R: Wait>(rt: &R, region: &Region, pass: &mut Pass)
    requires free { IsFree region.now.lock 0 pass.old }
    requires slots { region.now.slots ≡ 32 }
    ensures { IsFree region.now.lock 0 pass.new }
{
    export(rt, region, pass, 0, 3, 30);
    call(rt, region, pass, 0, Op::Copy { from: 0, into: 1 });
    call(rt, region, pass, 0, Op::Weaken { slot: 1 });
    call(rt, region, pass, 0, Op::Upgrade { from: 1, into: 2 });
    call(rt, region, pass, 0, Op::Upgrade { from: 0, into: 3 });
    call(rt, region, pass, 0, Op::Upgrade { from: 31, into: 4 });
    import(rt, region, pass, 0);
    import(rt, region, pass, 1);
}

/// What the entry read, where there is one.
fn read(held: &HeldHistory, i: u32) -> Option<u32> {
    if i < held.len() {
        held.read_place(i)
    } else {
        None
    }
}

fn weak_reads_alone_are_told(held: &HeldHistory) -> bool {
    let upgrades = [read(held, 3), read(held, 4), read(held, 5)];
    let imports = [read(held, 6), read(held, 7)];
    let others = [read(held, 1), read(held, 2)];
    upgrades == [Some(30), None, None] && imports == [None, Some(30)] && others == [None, None]
}

fn are_told_in_a_look<R: Wait>(rt: &R, region: &Region, pass: &mut Pass) -> bool
    requires free { IsFree region.now.lock 0 pass.old }
    requires slots { region.now.slots ≡ 32 }
{
    fill(rt, region, pass);
    let held = region.look(rt, pass);
    let told = weak_reads_alone_are_told(&held);
    region.end_look(pass, held);
    told
}

fn is_right<R: Wait>(rt: &R, alloc: Global) -> bool {
    match Region::new(alloc, 32) {
        Ok((region, mut pass)) => are_told_in_a_look(rt, &region, &mut pass),
        Err(_) => false,
    }
}

#[test]
fn entries_tell_what_they_read_from_weak_slots(rt: HostRuntime) {
    assert!(rt; is_right(&rt, rt.alloc()));
}
