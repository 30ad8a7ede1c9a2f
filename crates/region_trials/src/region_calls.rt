// Calls on a region, after each of which the pass is free again.

ghost use Rattle.std.specs.Prelude.{◌≡◌, ◌==◌, ◌+◌, ◌<◌, ◌^◌, true, Some, length};
ghost use Rattle.gc_graph.specs.Outcomes.{IsThreadOp};
ghost use Rattle.cross_thread_region.specs.Contents.{IsCallWithin};
ghost use Rattle.cross_thread_region.specs.Histories.{is_started};
ghost use Rattle.region_trials.specs.FreePasses.{IsFree};

use cross_thread_region::{HeldRegion, Pass, Region};
use gc_graph::{Op, Reply};
use std::sync::Wait;

/// A call that a thread may make.
pub(crate) fn call<R: Wait>(rt: &R, region: &Region, pass: &mut Pass, number: u32, op: Op) -> Reply
    requires free { IsFree region.now.lock number pass.old }
    requires within { IsCallWithin region.now.slots op }
    requires order { IsThreadOp op }
    ensures { IsFree region.now.lock number pass.new }
{
    match op {
        Op::Copy { from, into } => region.copy(rt, pass, from, into),
        Op::Clear { slot } => region.clear(rt, pass, slot),
        Op::Weaken { slot } => region.weaken(rt, pass, slot),
        Op::Upgrade { from, into } => region.upgrade(rt, pass, from, into),
        _ => unreachable!(),
    }
}

pub(crate) fn export<R: Wait>(
    rt: &R,
    region: &Region,
    pass: &mut Pass,
    slot: u32,
    node: u32,
    place: u32,
)
    requires free { IsFree region.now.lock 0 pass.old }
    requires slot { slot < region.now.slots }
    requires small { place + 1 < 2 ^ 32 }
    ensures free { IsFree region.now.lock 0 pass.new }
    ensures out { pass.new.out ≡ pass.old.out }
{
    region.export(rt, pass, slot, node, place);
}

pub(crate) fn import<R: Wait>(rt: &R, region: &Region, pass: &mut Pass, slot: u32) -> (Reply, u32)
    requires free { IsFree region.now.lock 0 pass.old }
    requires slot { slot < region.now.slots }
    ensures { IsFree region.now.lock 0 pass.new }
{
    region.import(rt, pass, slot)
}

/// Whether there was memory for a start.
pub(crate) fn start<R: Wait>(
    rt: &R,
    region: &Region,
    pass: &mut Pass,
    strong: &mut [u32; 32],
) -> bool
    requires free { IsFree region.now.lock 0 pass.old }
    requires slots { region.now.slots ≡ 32 }
    ensures free { IsFree region.now.lock 0 pass.new }
    ensures started { result ≡ true → is_started pass.new.seen ≡ true }
{
    match region.start_entry(rt, pass, strong) {
        Reply::Done => true,
        _ => false,
    }
}

/// Ends a pause in which the object with this place is dead.
pub(crate) fn end_without(region: &Region, pass: &mut Pass, held: HeldRegion, gone: u32) -> u32
    requires lock { pass.old.lock ≡ region.now.lock }
    requires first { pass.old.number ≡ 0 }
    requires turn { pass.old.turn ≡ Some (held.ticket, held.history) }
    ensures { IsFree region.now.lock 0 pass.new }
{
    region.pause_end(
        pass,
        held,
        |place: u32| -> bool
            ensures { result ≡ (place == gone) }
        { place == gone },
    )
}
