// Two threads that call one region.

ghost use Rattle.std.specs.Prelude.{◌≡◌};
ghost use Rattle.std.specs.Thread.{IsSync};
ghost use Rattle.region_trials.specs.FreePasses.{IsFree};

use crate::region_calls::{call, export};
use cross_thread_region::{HeldHistory, Pass, Region};
use gc_graph::{NoMemory, Op};
use std::alloc::Global;
use std::sync::Wait;
use std::thread;
use std::thread::Threads;

/// Each of two threads makes two calls so often.
const TIMES: u32 = 50_000;

/// How many entries name pass 0, pass 1 and another one.
#[derive(Clone, Copy, Drop)]
struct Told {
    zeros: u32,
    ones: u32,
    others: u32,
}

/// The first pass copies slot 0, which is full, and clears the copy.
fn copy_and_clear<R: Wait>(rt: &R, region: &Region, mut pass: Pass) -> Pass
    requires free { IsFree region.now.lock 0 pass }
    requires slots { region.now.slots ≡ 32 }
    ensures { IsFree region.now.lock 0 result }
{
    for _ in 0..TIMES {
        call(rt, region, &mut pass, 0, Op::Copy { from: 0, into: 1 });
        call(rt, region, &mut pass, 0, Op::Clear { slot: 1 });
    }
    pass
}

/// The other one upgrades what is full and what may be.
fn upgrade_twice<R: Wait>(rt: &R, region: &Region, mut pass: Pass) -> Pass
    requires free { IsFree region.now.lock 1 pass }
    requires slots { region.now.slots ≡ 32 }
    ensures { IsFree region.now.lock 1 result }
{
    for _ in 0..TIMES {
        call(rt, region, &mut pass, 1, Op::Upgrade { from: 0, into: 2 });
        call(rt, region, &mut pass, 1, Op::Upgrade { from: 1, into: 3 });
    }
    pass
}

/// Both at once, each on a thread of its own.
fn both<R: Threads + Wait + Sync>(rt: &R, region: &Region, pass: Pass, other: Pass) -> (Pass, Pass)
    requires pass { IsFree region.now.lock 0 pass }
    requires other { IsFree region.now.lock 1 other }
    requires slots { region.now.slots ≡ 32 }
    ensures pass { IsFree region.now.lock 0 result.0 }
    ensures other { IsFree region.now.lock 1 result.1 }
{
    thread::join(
        rt,
        move || -> Pass
            requires free { IsFree region.now.lock 0 pass }
            requires slots { region.now.slots ≡ 32 }
            ensures { IsFree region.entry.now.lock 0 result }
        { copy_and_clear(rt, region, pass) },
        move || -> Pass
            requires free { IsFree region.now.lock 1 other }
            requires slots { region.now.slots ≡ 32 }
            ensures { IsFree region.entry.now.lock 1 result }
        { upgrade_twice(rt, region, other) },
    )
}

fn count_of(held: &HeldHistory) -> Told {
    let mut told = Told {
        zeros: 0,
        ones: 0,
        others: 0,
    };
    for i in 0..held.len() {
        match held.entry(i).thread {
            0 => told.zeros = told.zeros.wrapping_add(1),
            1 => told.ones = told.ones.wrapping_add(1),
            _ => told.others = told.others.wrapping_add(1),
        }
    }
    told
}

/// How many entries the first pass has seen after the other one is joined to it, and what a look tells
/// of them.
fn run<R: Threads + Wait + Sync>(rt: &R, alloc: Global) -> Result<(u64, Told), NoMemory> {
    let (region, mut pass) = Region::new(alloc, 32)?;
    let other = region.split_pass(&mut pass, 1);
    export(rt, &region, &mut pass, 0, 3, 30);
    let (mut pass, other) = both(rt, &region, pass, other);
    region.join_pass(&mut pass, other);
    let seen = region.entries(&mut pass);
    let held = region.look(rt, &mut pass);
    let told = count_of(&held);
    region.end_look(&mut pass, held);
    Ok((seen, told))
}

#[test]
fn no_call_of_two_threads_is_lost(rt: HostRuntime) {
    let Ok((seen, told)) = run(&rt, rt.alloc()) else {
        assert!(rt; false);
        return;
    };
    assert!(rt; seen == 200_001);
    assert!(rt; told.zeros == 100_001 && told.ones == 100_000 && told.others == 0);
}
