// Eight threads and an owner at one region.

ghost use Rattle.std.specs.Prelude.{◌≡◌, ◌+◌, ◌≤◌};
ghost use Rattle.std.specs.Thread.{IsSync};
ghost use Rattle.region_trials.specs.FreePasses.{IsFree, AreFree};

use crate::region_replay::Replay;
use crate::region_rounds::{SET_ENTRIES, SETS, hammer, own};
use cross_thread_region::{HeldHistory, Pass, Region};
use gc_graph::NoMemory;
use std::alloc::Global;
use std::sync::Wait;
use std::thread;
use std::thread::Threads;

/// Two threads at once.
fn at_once<R: Threads + Wait + Sync>(
    rt: &R,
    region: &Region,
    passes: (Pass, Pass),
    first: u32,
    second: u32,
) -> (Pass, Pass)
    requires one { IsFree region.now.lock first passes.0 }
    requires two { IsFree region.now.lock second passes.1 }
    requires slots { region.now.slots ≡ 32 }
    ensures one { IsFree region.now.lock first result.0 }
    ensures two { IsFree region.now.lock second result.1 }
{
    let (one, two) = passes;
    thread::join(
        rt,
        move || -> Pass
            requires free { IsFree region.now.lock first one }
            requires slots { region.now.slots ≡ 32 }
            ensures { IsFree region.entry.now.lock first result }
        { hammer(rt, region, one, first) },
        move || -> Pass
            requires free { IsFree region.now.lock second two }
            requires slots { region.now.slots ≡ 32 }
            ensures { IsFree region.entry.now.lock second result }
        { hammer(rt, region, two, second) },
    )
}

/// Passes of four threads, the first of which has some number and each other one the next.
pub(crate) type Four = (Pass, Pass, Pass, Pass);

/// Four threads at once.
fn four<R: Threads + Wait + Sync>(rt: &R, region: &Region, passes: Four, first: u32) -> Four
    requires passes { AreFree region.now.lock first passes }
    requires small { first ≤ 5 }
    requires slots { region.now.slots ≡ 32 }
    ensures { AreFree region.now.lock first result }
{
    let (one, two, three, four) = passes;
    let ((one, two), (three, four)) = thread::join(
        rt,
        move || -> (Pass, Pass)
            requires sync { IsSync R.row }
            requires one { IsFree region.now.lock first one }
            requires two { IsFree region.now.lock (first + 1) two }
            requires small { first ≤ 5 }
            requires slots { region.now.slots ≡ 32 }
            ensures one { IsFree region.entry.now.lock first result.0 }
            ensures two { IsFree region.entry.now.lock (first + 1) result.1 }
        { at_once(rt, region, (one, two), first, first + 1) },
        move || -> (Pass, Pass)
            requires sync { IsSync R.row }
            requires three { IsFree region.now.lock (first + 2) three }
            requires four { IsFree region.now.lock (first + 3) four }
            requires small { first ≤ 5 }
            requires slots { region.now.slots ≡ 32 }
            ensures three { IsFree region.entry.now.lock (first + 2) result.0 }
            ensures four { IsFree region.entry.now.lock (first + 3) result.1 }
        { at_once(rt, region, (three, four), first + 2, first + 3) },
    );
    (one, two, three, four)
}

/// Eight threads at once, with passes 1 to 8.
fn eight<R: Threads + Wait + Sync>(rt: &R, region: &Region, low: Four, high: Four) -> (Four, Four)
    requires low { AreFree region.now.lock 1 low }
    requires high { AreFree region.now.lock 5 high }
    requires slots { region.now.slots ≡ 32 }
    ensures low { AreFree region.now.lock 1 result.0 }
    ensures high { AreFree region.now.lock 5 result.1 }
{
    thread::join(
        rt,
        move || -> Four
            requires sync { IsSync R.row }
            requires passes { AreFree region.now.lock 1 low }
            requires slots { region.now.slots ≡ 32 }
            ensures { AreFree region.entry.now.lock 1 result }
        { four(rt, region, low, 1) },
        move || -> Four
            requires sync { IsSync R.row }
            requires passes { AreFree region.now.lock 5 high }
            requires slots { region.now.slots ≡ 32 }
            ensures { AreFree region.entry.now.lock 5 result }
        { four(rt, region, high, 5) },
    )
}

/// The owner and eight threads at once.
fn all_nine<R: Threads + Wait + Sync>(
    rt: &R,
    region: &Region,
    pass: Pass,
    low: Four,
    high: Four,
) -> ((Pass, bool), (Four, Four))
    requires pass { IsFree region.now.lock 0 pass }
    requires low { AreFree region.now.lock 1 low }
    requires high { AreFree region.now.lock 5 high }
    requires slots { region.now.slots ≡ 32 }
    ensures pass { IsFree region.now.lock 0 result.0.0 }
    ensures low { AreFree region.now.lock 1 result.1.0 }
    ensures high { AreFree region.now.lock 5 result.1.1 }
{
    thread::join(
        rt,
        move || -> (Pass, bool)
            requires pass { IsFree region.now.lock 0 pass }
            requires slots { region.now.slots ≡ 32 }
            ensures { IsFree region.entry.now.lock 0 result.0 }
        { own(rt, region, pass) },
        move || -> (Four, Four)
            requires sync { IsSync R.row }
            requires low { AreFree region.now.lock 1 low }
            requires high { AreFree region.now.lock 5 high }
            requires slots { region.now.slots ≡ 32 }
            ensures low { AreFree region.entry.now.lock 1 result.0 }
            ensures high { AreFree region.entry.now.lock 5 result.1 }
        { eight(rt, region, low, high) },
    )
}

/// Takes four passes back, in order.
fn join_four(region: &Region, pass: &mut Pass, passes: Four, first: u32)
    requires pass { IsFree region.now.lock 0 pass.old }
    requires passes { AreFree region.now.lock first passes }
    requires later { 1 ≤ first }
    ensures { IsFree region.now.lock 0 pass.new }
{
    let (one, two, three, four) = passes;
    region.join_pass(pass, one);
    region.join_pass(pass, two);
    region.join_pass(pass, three);
    region.join_pass(pass, four);
}

/// Whether there are so many entries, and each goes on as a region of one thread does.
fn is_replayed(held: &HeldHistory, entries: u32) -> bool {
    let mut replay = Replay::new();
    for i in 0..held.len() {
        if !replay.goes_on(held.entry(i)) {
            return false;
        }
    }
    held.len() == entries
}

/// Whether the history that nine threads leave is that of one.
fn run<R: Threads + Wait + Sync>(rt: &R, alloc: Global) -> Result<bool, NoMemory> {
    let (region, mut pass) = Region::new(alloc, 32)?;
    let low = (
        region.split_pass(&mut pass, 1),
        region.split_pass(&mut pass, 2),
        region.split_pass(&mut pass, 3),
        region.split_pass(&mut pass, 4),
    );
    let high = (
        region.split_pass(&mut pass, 5),
        region.split_pass(&mut pass, 6),
        region.split_pass(&mut pass, 7),
        region.split_pass(&mut pass, 8),
    );
    let ((mut pass, right), (low, high)) = all_nine(rt, &region, pass, low, high);
    join_four(&region, &mut pass, low, 1);
    join_four(&region, &mut pass, high, 5);
    let held = region.look(rt, &mut pass);
    let replayed = is_replayed(&held, SETS * SET_ENTRIES);
    region.end_look(&mut pass, held);
    Ok(right && replayed)
}

#[test]
fn calls_of_nine_threads_are_those_of_one(rt: HostRuntime) {
    assert!(rt; matches!(run(&rt, rt.alloc()), Ok(true)));
}
