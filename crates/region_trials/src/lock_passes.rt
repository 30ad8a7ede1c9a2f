// Passes of a lock that come back in each order.

ghost use Rattle.std.specs.Prelude.{[], ◌∷◌};
ghost use Rattle.region_trials.specs.FreePasses.{IsFree, IsOther};

use crate::lock_turns::{Rounds, Visits, visit, visit_at_once};
use gc_graph::NoMemory;
use region_lock::{LockPass, RegionLock};
use std::alloc::Global;
use std::sync::Wait;
use std::thread::Threads;

/// Each of two threads comes once.
const ONCE: Rounds = Rounds {
    count: 1,
    visits: 1,
};

/// Takes three passes back, in this order.
fn join_three(
    lock: &RegionLock<Visits>,
    pass: &mut LockPass<Visits>,
    one: LockPass<Visits>,
    two: LockPass<Visits>,
    three: LockPass<Visits>,
)
    requires pass { IsFree lock.now 0 pass.old }
    requires one { IsOther lock.now one }
    requires two { IsOther lock.now two }
    requires three { IsOther lock.now three }
    ensures { IsFree lock.now 0 pass.new }
{
    lock.join_pass(pass, one);
    lock.join_pass(pass, two);
    lock.join_pass(pass, three);
}

/// Takes three passes back, in one of six orders.
fn join_in_order(
    lock: &RegionLock<Visits>,
    pass: &mut LockPass<Visits>,
    one: LockPass<Visits>,
    two: LockPass<Visits>,
    three: LockPass<Visits>,
    order: u32,
)
    requires pass { IsFree lock.now 0 pass.old }
    requires one { IsOther lock.now one }
    requires two { IsOther lock.now two }
    requires three { IsOther lock.now three }
    ensures { IsFree lock.now 0 pass.new }
{
    match order {
        0 => join_three(lock, pass, one, two, three),
        1 => join_three(lock, pass, one, three, two),
        2 => join_three(lock, pass, two, one, three),
        3 => join_three(lock, pass, two, three, one),
        4 => join_three(lock, pass, three, one, two),
        _ => join_three(lock, pass, three, two, one),
    }
}

/// Whether pass 0 came twice, the second time last, and passes 1 to 3 once.
fn are_all_there(numbers: &[u32]) -> bool {
    let mut times = [0u32; 4];
    for number in numbers.iter() {
        if let Some(so_far) = times.get_mut(*number as usize) {
            *so_far = so_far.wrapping_add(1);
        }
    }
    times == [2, 1, 1, 1] && numbers.len() == 5 && numbers.last() == Some(&0)
}

/// Whether four passes that visit once, two of them at a time, leave all visits, and the first one can visit
/// once more after the others came back in this order.
fn run<R: Threads + Wait + Sync>(rt: &R, alloc: Global, order: u32) -> Result<bool, NoMemory> {
    let visits = Visits {
        numbers: Vec::new(alloc),
    };
    let (lock, mut pass) = RegionLock::new(alloc, visits)?;
    let one = lock.split_pass(&mut pass, 1);
    let two = lock.split_pass(&mut pass, 2);
    let three = lock.split_pass(&mut pass, 3);
    let (one, two) = visit_at_once(rt, &lock, (one, 1), (two, 2), ONCE);
    let (three, mut pass) = visit_at_once(rt, &lock, (three, 3), (pass, 0), ONCE);
    join_in_order(&lock, &mut pass, one, two, three, order);
    visit(rt, &lock, &mut pass, 0);
    let held = lock.take(rt, &mut pass);
    let right = are_all_there(&held.value.numbers);
    lock.give(held, &mut pass);
    Ok(right)
}

#[test]
fn passes_come_back_in_each_order(rt: HostRuntime) {
    for order in 0..6 {
        assert!(rt; matches!(run(&rt, rt.alloc(), order), Ok(true)));
    }
}
