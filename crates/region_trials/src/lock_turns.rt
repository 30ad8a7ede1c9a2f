// Two threads that take turns at a value.

ghost use Rattle.std.specs.Prelude.{[], ◌∷◌};
ghost use Rattle.std.specs.Thread.{IsSync};
ghost use Rattle.region_trials.specs.FreePasses.{IsFree};

use gc_graph::NoMemory;
use region_lock::{Chronicle, LockPass, RegionLock};
use std::alloc::Global;
use std::sync::Wait;
use std::thread;
use std::thread::Threads;

/// How often each of two threads comes: in so many rounds, so often in each.
#[derive(Clone, Copy, Drop)]
pub(crate) struct Rounds {
    pub(crate) count: u32,
    pub(crate) visits: u32,
}

/// Each thread comes 100,000 times.
const ROUNDS: Rounds = Rounds {
    count: 100,
    visits: 1000,
};

/// The numbers of the passes that came, in order.
#[derive(Drop)]
pub(crate) struct Visits {
    pub(crate) numbers: Vec<u32>,
}

impl Chronicle for Visits {
    type Entry = u32;

    ghost entries = { λ v. v.numbers.items };

    ghost number = { λ n. n };
}

/// What is told of a list of visits.
#[derive(Clone, Copy, Drop)]
struct Told {
    zeros: u32,
    ones: u32,
    others: u32,
    changes: u32,
}

/// One visit of a pass, which puts its number behind the others. Want of memory is free.
pub(crate) fn visit<R: Wait>(
    rt: &R,
    lock: &RegionLock<Visits>,
    pass: &mut LockPass<Visits>,
    number: u32,
)
    requires { IsFree lock.now number pass.old }
    ensures { IsFree lock.now number pass.new }
{
    let mut held = lock.take(rt, pass);
    if held.value.numbers.push(number).is_ok() {
        held.added();
    }
    lock.give(held, pass);
}

/// Whether there are so many visits.
fn are_there<R: Wait>(
    rt: &R,
    lock: &RegionLock<Visits>,
    pass: &mut LockPass<Visits>,
    number: u32,
    visits: usize,
) -> bool
    requires { IsFree lock.now number pass.old }
    ensures { IsFree lock.now number pass.new }
{
    let held = lock.take(rt, pass);
    let so_far = held.value.numbers.len();
    lock.give(held, pass);
    so_far >= visits
}

/// Waits until there are so many visits.
fn wait_for<R: Wait>(
    rt: &R,
    lock: &RegionLock<Visits>,
    pass: &mut LockPass<Visits>,
    number: u32,
    visits: usize,
)
    requires { IsFree lock.now number pass.old }
    ensures { IsFree lock.now number pass.new }
{
    for _ in rt.forever() {
        if are_there(rt, lock, pass, number, visits) {
            return;
        }
        thread::yield_now();
    }
    unreachable!()
}

/// So many visits of a pass.
fn visit_often<R: Wait>(
    rt: &R,
    lock: &RegionLock<Visits>,
    pass: &mut LockPass<Visits>,
    number: u32,
    visits: u32,
)
    requires { IsFree lock.now number pass.old }
    ensures { IsFree lock.now number pass.new }
{
    for _ in 0..visits {
        visit(rt, lock, pass, number);
    }
}

/// The rounds of one of two passes. It begins each once the other one has come as often, so that neither
/// is done before the other one begins.
fn visit_in_rounds<R: Wait>(
    rt: &R,
    lock: &RegionLock<Visits>,
    mut pass: LockPass<Visits>,
    number: u32,
    rounds: Rounds,
) -> LockPass<Visits>
    requires { IsFree lock.now number pass }
    ensures { IsFree lock.now number result }
{
    let mut both: usize = 0;
    for _ in 0..rounds.count {
        wait_for(rt, lock, &mut pass, number, both);
        visit_often(rt, lock, &mut pass, number, rounds.visits);
        both = both.wrapping_add(2 * rounds.visits as usize);
    }
    pass
}

/// The rounds of two passes, each on a thread of its own.
pub(crate) fn visit_at_once<R: Threads + Wait + Sync>(
    rt: &R,
    lock: &RegionLock<Visits>,
    one: (LockPass<Visits>, u32),
    two: (LockPass<Visits>, u32),
    rounds: Rounds,
) -> (LockPass<Visits>, LockPass<Visits>)
    requires one { IsFree lock.now one.1 one.0 }
    requires two { IsFree lock.now two.1 two.0 }
    ensures one { IsFree lock.now one.1 result.0 }
    ensures two { IsFree lock.now two.1 result.1 }
{
    let (first, a) = one;
    let (second, b) = two;
    thread::join(
        rt,
        move || -> LockPass<Visits>
            requires { IsFree lock.now a first }
            ensures { IsFree lock.entry.now a result }
        { visit_in_rounds(rt, lock, first, a, rounds) },
        move || -> LockPass<Visits>
            requires { IsFree lock.now b second }
            ensures { IsFree lock.entry.now b result }
        { visit_in_rounds(rt, lock, second, b, rounds) },
    )
}

fn count_of(numbers: &[u32]) -> Told {
    let mut told = Told {
        zeros: 0,
        ones: 0,
        others: 0,
        changes: 0,
    };
    let mut last = 0;
    for number in numbers.iter() {
        match *number {
            0 => told.zeros = told.zeros.wrapping_add(1),
            1 => told.ones = told.ones.wrapping_add(1),
            _ => told.others = told.others.wrapping_add(1),
        }
        if *number != last {
            told.changes = told.changes.wrapping_add(1);
            last = *number;
        }
    }
    told
}

/// What two threads leave, of which each came so often.
fn run<R: Threads + Wait + Sync>(rt: &R, alloc: Global) -> Result<Told, NoMemory> {
    let visits = Visits {
        numbers: Vec::new(alloc),
    };
    let (lock, mut pass) = RegionLock::new(alloc, visits)?;
    let other = lock.split_pass(&mut pass, 1);
    let (mut pass, other) = visit_at_once(rt, &lock, (pass, 0), (other, 1), ROUNDS);
    lock.join_pass(&mut pass, other);
    let held = lock.take(rt, &mut pass);
    let told = count_of(&held.value.numbers);
    lock.give(held, &mut pass);
    Ok(told)
}

#[test]
fn no_visit_of_two_threads_is_lost(rt: HostRuntime) {
    let Ok(told) = run(&rt, rt.alloc()) else {
        assert!(rt; false);
        return;
    };
    let visits = ROUNDS.count * ROUNDS.visits;
    assert!(rt; told.zeros == visits && told.ones == visits && told.others == 0);
    assert!(rt; told.changes >= ROUNDS.count);
}
