// Each call on each kind of slot.

ghost use Rattle.std.specs.Prelude.{◌≡◌, ◌<◌};
ghost use Rattle.region_trials.specs.FreePasses.{IsFree};

use crate::region_calls::{call, export, import};
use cross_thread_region::{Pass, Region};
use gc_graph::{Op, Reply};
use std::alloc::Global;
use std::sync::Wait;

/// Slot 0 is exported over a full one, slot 1 is a weak copy of it, slot 2 is upgraded from that,
/// slot 3 is cleared, slot 4 is a copy of a null slot that is weakened, and slot 31 is upgraded from
/// it.
fn fill<R: Wait>(rt: &R, region: &Region, pass: &mut Pass)
    requires free { IsFree region.now.lock 0 pass.old }
    requires slots { region.now.slots ≡ 32 }
    ensures { IsFree region.now.lock 0 pass.new }
{
    export(rt, region, pass, 0, 3, 30);
    export(rt, region, pass, 0, 7, 70);
    call(rt, region, pass, 0, Op::Copy { from: 0, into: 1 });
    call(rt, region, pass, 0, Op::Weaken { slot: 1 });
    call(rt, region, pass, 0, Op::Upgrade { from: 1, into: 2 });
    export(rt, region, pass, 3, 3, 30);
    call(rt, region, pass, 0, Op::Clear { slot: 3 });
    call(rt, region, pass, 0, Op::Copy { from: 3, into: 4 });
    call(rt, region, pass, 0, Op::Weaken { slot: 4 });
    call(rt, region, pass, 0, Op::Upgrade { from: 4, into: 31 });
}

/// Whether the slot names the node, which has this place.
fn names<R: Wait>(
    rt: &R,
    region: &Region,
    pass: &mut Pass,
    slot: u32,
    node: u32,
    place: u32,
) -> bool
    requires free { IsFree region.now.lock 0 pass.old }
    requires slot { slot < region.now.slots }
    ensures { IsFree region.now.lock 0 pass.new }
{
    match import(rt, region, pass, slot) {
        (Reply::Node(named), at) => named == node && at == place,
        _ => false,
    }
}

fn is_null<R: Wait>(rt: &R, region: &Region, pass: &mut Pass, slot: u32) -> bool
    requires free { IsFree region.now.lock 0 pass.old }
    requires slot { slot < region.now.slots }
    ensures { IsFree region.now.lock 0 pass.new }
{
    matches!(import(rt, region, pass, slot), (Reply::Null, 0))
}

fn all_are_named<R: Wait>(rt: &R, region: &Region, pass: &mut Pass) -> bool
    requires free { IsFree region.now.lock 0 pass.old }
    requires slots { region.now.slots ≡ 32 }
{
    fill(rt, region, pass);
    let full = names(rt, region, pass, 0, 7, 70)
        & names(rt, region, pass, 1, 7, 70)
        & names(rt, region, pass, 2, 7, 70);
    let null = is_null(rt, region, pass, 3)
        & is_null(rt, region, pass, 4)
        & is_null(rt, region, pass, 31);
    full & null
}

fn is_right<R: Wait>(rt: &R, alloc: Global) -> bool {
    match Region::new(alloc, 32) {
        Ok((region, mut pass)) => all_are_named(rt, &region, &mut pass),
        Err(_) => false,
    }
}

#[test]
fn slots_name_what_was_exported_last(rt: HostRuntime) {
    assert!(rt; is_right(&rt, rt.alloc()));
}
