// The rounds of a thread at a crowded region, and of its owner.

ghost use Rattle.std.specs.Prelude.{◌≡◌, ◌<◌, true};
ghost use Rattle.cross_thread_region.specs.Histories.{is_started};
ghost use Rattle.region_trials.specs.FreePasses.{IsFree};

use crate::region_calls::{call, end_without, export, start};
use cross_thread_region::{HeldRegion, Pass, Region};
use gc_graph::Op;
use std::sync::Wait;
use std::thread;

/// Each of eight threads makes so many sets of rounds, of four calls each, and so does the owner, whose
/// rounds make five entries each.
pub(crate) const SETS: u32 = 50;

/// How many rounds a set has: the threads make 10,000 in all.
const ROUNDS: u32 = 25;

/// How many entries a set has.
pub(crate) const SET_ENTRIES: u32 = (8 * 4 + 5) * ROUNDS;

/// So often a thread looks whether the others are there, at most.
const LOOKS: u32 = 100_000;

/// Nodes 0 to 7 have the places from here on.
const FIRST_PLACE: u32 = 100;

/// The next number of a row that looks random.
fn after(word: u32) -> u32 {
    word.wrapping_mul(1_664_525).wrapping_add(1_013_904_223)
}

/// A round of a thread: each call once, at slots that the word picks.
fn four_calls<R: Wait>(rt: &R, region: &Region, pass: &mut Pass, number: u32, word: u32)
    requires free { IsFree region.now.lock number pass.old }
    requires slots { region.now.slots ≡ 32 }
    ensures { IsFree region.now.lock number pass.new }
{
    let a = (word >> 27) % 32;
    let b = (word >> 22) % 32;
    let c = (word >> 17) % 32;
    let d = (word >> 12) % 32;
    call(rt, region, pass, number, Op::Copy { from: a, into: b });
    call(rt, region, pass, number, Op::Weaken { slot: c });
    call(rt, region, pass, number, Op::Upgrade { from: d, into: c });
    call(rt, region, pass, number, Op::Clear { slot: d });
}

/// Whether there are so many entries.
fn are_there<R: Wait>(rt: &R, region: &Region, pass: &mut Pass, number: u32, entries: u32) -> bool
    requires { IsFree region.now.lock number pass.old }
    ensures { IsFree region.now.lock number pass.new }
{
    let held = region.look(rt, pass);
    let so_far = held.len();
    region.end_look(pass, held);
    so_far >= entries
}

/// Waits until there are so many entries.
fn wait_for<R: Wait>(rt: &R, region: &Region, pass: &mut Pass, number: u32, entries: u32)
    requires { IsFree region.now.lock number pass.old }
    ensures { IsFree region.now.lock number pass.new }
{
    for _ in 0..LOOKS {
        if are_there(rt, region, pass, number, entries) {
            return;
        }
        thread::yield_now();
    }
}

/// A set of a thread's rounds. Answers the last word.
fn call_often<R: Wait>(rt: &R, region: &Region, pass: &mut Pass, number: u32, from: u32) -> u32
    requires free { IsFree region.now.lock number pass.old }
    requires slots { region.now.slots ≡ 32 }
    ensures { IsFree region.now.lock number pass.new }
{
    let mut word = from;
    for _ in 0..ROUNDS {
        word = after(word);
        four_calls(rt, region, pass, number, word);
    }
    word
}

/// All sets of a thread. It begins each once the others have done the one before, so that none is done
/// before another one begins.
pub(crate) fn hammer<R: Wait>(rt: &R, region: &Region, mut pass: Pass, number: u32) -> Pass
    requires free { IsFree region.now.lock number pass }
    requires slots { region.now.slots ≡ 32 }
    ensures { IsFree region.now.lock number result }
{
    let mut word = number;
    for set in 0..SETS {
        wait_for(rt, region, &mut pass, number, set * SET_ENTRIES);
        word = call_often(rt, region, &mut pass, number, word);
    }
    pass
}

/// A slot that a pause looks at is not strong, or has a place that an export gave.
fn is_exported(held: &HeldRegion, slot: u32) -> bool
    requires { slot < 32 }
{
    match held.strong(slot) {
        Some(place) => (FIRST_PLACE..FIRST_PLACE + 8).contains(&place),
        None => true,
    }
}

/// A pause, in which the object of one node is dead. Whether the slots that it looks at are as exported.
fn pause<R: Wait>(rt: &R, region: &Region, pass: &mut Pass, node: u32) -> bool
    requires free { IsFree region.now.lock 0 pass.old }
    requires started { is_started pass.old.seen ≡ true }
    requires node { node < 8 }
    ensures { IsFree region.now.lock 0 pass.new }
{
    let held = region.pause_begin(rt, pass);
    let right = is_exported(&held, 0) && is_exported(&held, 7) && is_exported(&held, 31);
    end_without(region, pass, held, FIRST_PLACE + node);
    right
}

/// A round of the owner: two exports, of which one is weakened, a start, and a pause.
fn start_and_pause<R: Wait>(rt: &R, region: &Region, pass: &mut Pass, word: u32) -> bool
    requires free { IsFree region.now.lock 0 pass.old }
    requires slots { region.now.slots ≡ 32 }
    ensures { IsFree region.now.lock 0 pass.new }
{
    let a = (word >> 27) % 32;
    let b = (word >> 22) % 32;
    let node = (word >> 17) % 8;
    let gone = (word >> 14) % 8;
    export(rt, region, pass, a, node, FIRST_PLACE + node);
    export(rt, region, pass, b, gone, FIRST_PLACE + gone);
    call(rt, region, pass, 0, Op::Weaken { slot: b });
    let mut strong = [0; 32];
    start(rt, region, pass, &mut strong) && pause(rt, region, pass, gone)
}

/// A set of the owner's rounds. Whether all were right.
fn pause_often<R: Wait>(rt: &R, region: &Region, pass: &mut Pass, from: u32) -> bool
    requires free { IsFree region.now.lock 0 pass.old }
    requires slots { region.now.slots ≡ 32 }
    ensures { IsFree region.now.lock 0 pass.new }
{
    let mut word = from;
    let mut right = true;
    for _ in 0..ROUNDS {
        word = after(word);
        right &= start_and_pause(rt, region, pass, word);
    }
    right
}

/// All sets of the owner, which waits for the others too.
pub(crate) fn own<R: Wait>(rt: &R, region: &Region, mut pass: Pass) -> (Pass, bool)
    requires free { IsFree region.now.lock 0 pass }
    requires slots { region.now.slots ≡ 32 }
    ensures { IsFree region.now.lock 0 result.0 }
{
    let mut right = true;
    for set in 0..SETS {
        wait_for(rt, region, &mut pass, 0, set * SET_ENTRIES);
        right &= pause_often(rt, region, &mut pass, set);
    }
    (pass, right)
}
