// Markers beside the owner: a schedule that a gate makes, and runs in which they take turns as they come.

use super::lawful::count_of;
use super::runs::{STEADY, run_of, writes_one_of};
use super::schedules::WORDS;
use script_run::{FreeGate, Gate};
use std::alloc::Global;
use std::sync::atomic::{AtomicU64, Ordering};
use std::sync::{Arc, Wait};
use std::thread;
use std::thread::Threads;

/// After so many turns a hold lets go, and the test fails.
const TURNS: u32 = 20_000_000;

/// The owner writes an object into another one while a marker waits before its first claim; the marker
/// has traced one object before the owner comes to the pause.
const WRITTEN_WHILE_MARKING: &[u8] = b"oilpan 1\ntype S\nnew 0 0\nnew 1 0\ngc start\n\
set 0 0 1\ngc finish precise\n";

/// All that the crew has traced, or one object and the pause the other one.
const WRITTEN_REPORTS: &str = "\
type 0
node 0 at 0
node 1 at 3
started
ok
pause kept 2 dead 0 crew 2 traced 0 walked 0
end objects 2 used 6 pages 1
|type 0
node 0 at 0
node 1 at 3
started
ok
pause kept 2 dead 0 crew 1 traced 1 walked 0
end objects 2 used 6 pages 1
";

/// The fourth command is the last one, so the marker makes its first claim only after it.
const ENDED_WHILE_MARKING: &[u8] = b"oilpan 1\ntype S\nnew 0 0\nnew 1 0\nset 0 0 1\ngc start\n";

const ENDED_REPORT: &str = "\
type 0
node 0 at 0
node 1 at 3
ok
started
end objects 2 used 6 pages 1
";

/// A weak slot is read while marking goes on, and no other slot named its object when it began.
const READ_WEAKLY: &[u8] =
    b"oilpan 1\ntype S\nnew 0 0\nweak 0 0\ndrop 0\ngc start\nread 0 1\ndrop 1\n\
gc finish precise\nread 0 1\nsweep all\n";

/// The object dies, or the cycle keeps it because it was read.
const READ_REPORTS: &str = "\
type 0
node 0 at 0
ok
ok
started
node 0
ok
pause kept 0 dead 1 crew 0 traced 0 walked 0
null
finalise 0
swept to 4
end objects 0 used 0 pages 0
|type 0
node 0 at 0
ok
ok
started
node 0
ok
pause kept 1 dead 0 crew 0 traced 1 walked 0
node 0
swept to 4
end objects 1 used 3 pages 1
|type 0
node 0 at 0
ok
ok
started
node 0
ok
pause kept 1 dead 0 crew 1 traced 0 walked 0
node 0
swept to 4
end objects 1 used 3 pages 1
";

/// Holds the first marker before its first claim until the owner has answered its fourth command, and
/// the owner before its fifth until the marker has traced an object.
#[derive(Drop)]
struct HeldInTurn {
    begun: AtomicU64,
    answered: AtomicU64,
    traced: AtomicU64,
    given_up: AtomicU64,
}

impl Gate for HeldInTurn {
    fn pass(&self, worker: u32, point: u32) {
        match (worker, point) {
            (0, 3) => {
                if self.begun.fetch_add(1, Ordering::SeqCst) == 4 {
                    hold(&self.traced, 1, &self.given_up);
                }
            }
            (0, 4) => {
                self.answered.fetch_add(1, Ordering::SeqCst);
            }
            (1, 1) => hold(&self.answered, 4, &self.given_up),
            (1, 2) => {
                self.traced.fetch_add(1, Ordering::SeqCst);
            }
            _ => {}
        }
    }
}

/// Waits until the count has come so far, or gives up.
pub(crate) fn hold(count: &AtomicU64, least: u64, given_up: &AtomicU64) {
    for _turn in 0..TURNS {
        if count.load(Ordering::SeqCst) >= least {
            return;
        }
        thread::yield_now();
    }
    given_up.fetch_add(1, Ordering::SeqCst);
}

/// Whether the turns were kept, and the run wrote one of the reports.
fn is_held_in_turn<R: Threads + Wait + Copy + Send + 'static>(
    rt: &R,
    alloc: Global,
    script: &[u8],
    reports: &str,
) -> bool {
    let gate = HeldInTurn {
        begun: AtomicU64::new(0),
        answered: AtomicU64::new(0),
        traced: AtomicU64::new(0),
        given_up: AtomicU64::new(0),
    };
    match Arc::new(alloc, gate) {
        Ok(gate) => {
            let words = "--pages 4 --page-words 256 --markers 1";
            writes_one_of(rt, alloc, words, script, &gate, reports)
                && gate.given_up.load(Ordering::SeqCst) == 0
        }
        Err(_) => false,
    }
}

#[test]
fn marker_traces_while_the_owner_goes_on(rt: HostRuntime) {
    assert!(rt; is_held_in_turn(&rt, rt.alloc(), WRITTEN_WHILE_MARKING, WRITTEN_REPORTS));
}

#[test]
fn script_may_end_before_the_marker_has_claimed(rt: HostRuntime) {
    assert!(rt; is_held_in_turn(&rt, rt.alloc(), ENDED_WHILE_MARKING, ENDED_REPORT));
}

/// Whether the weak read in a run in which nobody is held has one of its reports.
fn is_right<R: Threads + Wait + Copy + Send + 'static>(rt: &R, alloc: Global, words: &str) -> bool {
    match Arc::new(alloc, FreeGate) {
        Ok(gate) => writes_one_of(rt, alloc, words, READ_WEAKLY, &gate, READ_REPORTS),
        Err(_) => false,
    }
}

/// The first number of markers, of 1 to 8, beside which another report is written.
fn first_wrong_number<R: Threads + Wait + Copy + Send + 'static>(
    rt: &R,
    alloc: Global,
) -> Option<u32> {
    for (words, number) in WORDS.lines().zip(1u32..) {
        if !is_right(rt, alloc, words) {
            return Some(number);
        }
    }
    None
}

#[test]
fn weak_read_beside_one_to_eight_markers_is_lawful(rt: HostRuntime) {
    assert_eq!(rt; first_wrong_number(&rt, rt.alloc()), None);
}

/// Whether the generated script has 19 pauses, and each tells that nobody walked.
fn has_no_walk<R: Threads + Wait + Copy + Send + 'static>(
    rt: &R,
    alloc: Global,
    gate: &Arc<FreeGate>,
) -> bool {
    match run_of(alloc, "--generate 1 --count 2000 --markers 4", b"", STEADY) {
        Ok(mut run) => {
            let report = run.report_behind(rt, alloc, gate);
            count_of(report, "pause ", "") == 19 && count_of(report, "pause ", " walked 0") == 19
        }
        Err(_) => false,
    }
}

fn pauses_walk_nowhere<R: Threads + Wait + Copy + Send + 'static>(rt: &R, alloc: Global) -> bool {
    match Arc::new(alloc, FreeGate) {
        Ok(gate) => has_no_walk(rt, alloc, &gate),
        Err(_) => false,
    }
}

#[test]
fn no_pause_walks_beside_four_markers(rt: HostRuntime) {
    assert!(rt; pauses_walk_nowhere(&rt, rt.alloc()));
}
