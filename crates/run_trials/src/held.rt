// Markers that a gate holds once, at a point at which what they have read may change.

use super::lawful::line_of;
use super::rows::number_at;
use super::runs::{STEADY, run_of};
use script_run::Gate;
use std::alloc::Global;
use std::sync::atomic::{AtomicU64, Ordering};
use std::sync::{Arc, Wait};
use std::thread;
use std::thread::Threads;

/// After so many turns a hold lets go.
const TURNS: u32 = 2_000_000;

/// Who passes, and at which point.
#[derive(Clone, Copy, Drop, PartialEq, Eq)]
struct Pass {
    worker: u32,
    point: u32,
}

/// Holds at the first pass of one kind until there were so many passes of another.
#[derive(Drop)]
struct HeldOnce {
    held: Pass,
    until: Pass,
    times: u64,
    holds: AtomicU64,
    passes: AtomicU64,
}

impl HeldOnce {
    fn new(held: Pass, until: Pass, times: u64) -> HeldOnce {
        HeldOnce {
            held,
            until,
            times,
            holds: AtomicU64::new(0),
            passes: AtomicU64::new(0),
        }
    }

    fn hold(&self) {
        for turn in 0..TURNS {
            if self.passes.load(Ordering::SeqCst) >= self.times {
                return;
            }
            // Where others wait for the processor, a hold that yields in each turn takes minutes.
            if turn % 1_000 == 0 {
                thread::yield_now();
            }
        }
    }
}

impl Gate for HeldOnce {
    fn pass(&self, worker: u32, point: u32) {
        let pass = Pass { worker, point };
        if pass == self.until {
            self.passes.fetch_add(1, Ordering::SeqCst);
        }
        if pass == self.held && self.holds.fetch_add(1, Ordering::SeqCst) == 0 {
            self.hold();
        }
    }
}

/// A script whose pause keeps three objects and condemns none, with the words of its run, and what its
/// report has before and after the line of the pause.
struct Held {
    words: &'static str,
    script: &'static [u8],
    before: &'static str,
    after: &'static str,
}

/// Node 1 has node 2. While the marker is held after the first object that it traced, 0 gets node 2, and
/// 1 loses it.
const MOVED: Held = Held {
    words: "--pages 4 --page-words 256 --markers 1",
    script: b"oilpan 1\ntype SS\nnew 0 0\nnew 1 0\nnew 2 0\nset 1 0 2\ndrop 2\ngc start\n\
get 1 0 2\nset 0 0 2\nset 1 0 -\ndrop 2\ngc finish precise\nget 0 0 2\n",
    before: "type 0\nnode 0 at 0\nnode 1 at 4\nnode 2 at 8\nok\nok\nstarted\nnode 2\nok\nok\nok\n",
    after: "node 2\nend objects 3 used 12 pages 1\n",
};

/// Node 0 has a pair of 1 and 2. While one of two markers is held after the first object that it traced,
/// the other comes to the next one, and the value of the pair is read.
const READ: Held = Held {
    words: "--pages 4 --page-words 256 --markers 2",
    script: b"oilpan 1\ntype E\ntype S\nnew 0 0\nnew 1 1\nnew 2 1\npair 0 0 1 2\ndrop 2\ngc start\n\
val 0 0 3\ngc finish precise\nval 0 0 4\n",
    before: "type 0\ntype 1\nnode 0 at 0\nnode 1 at 256\nnode 2 at 259\nok\nok\nstarted\nnode 2\n",
    after: "node 2\nend objects 3 used 10 pages 2\n",
};

/// Whether the report is what stands before the line of the pause, that line, and what stands after it;
/// and the pause kept three objects and condemned none, all of them traced by the crew or by itself, and
/// walked nowhere.
fn is_lawful(held: &Held, report: &str) -> bool {
    let pause = line_of(report, "pause ", 0);
    let traced = number_at(pause, 6).saturating_add(number_at(pause, 8));
    let around = held.before.len().saturating_add(held.after.len());
    report.starts_with(held.before)
        && report.ends_with(held.after)
        && report.len() == around.saturating_add(pause.len()).saturating_add(1)
        && pause.starts_with("pause kept 3 dead 0 ")
        && pause.ends_with(" walked 0")
        && traced == 3
}

/// Whether the run behind the gate is done, and its report lawful.
fn is_right<R: Threads + Wait + Copy + Send + 'static>(
    rt: &R,
    alloc: Global,
    held: &Held,
    gate: HeldOnce,
) -> bool {
    match Arc::new(alloc, gate) {
        Ok(gate) => is_lawful_behind(rt, alloc, held, &gate),
        Err(_) => false,
    }
}

fn is_lawful_behind<R: Threads + Wait + Copy + Send + 'static>(
    rt: &R,
    alloc: Global,
    held: &Held,
    gate: &Arc<HeldOnce>,
) -> bool {
    match run_of(alloc, held.words, held.script, STEADY) {
        Ok(mut run) => is_lawful(held, run.report_behind(rt, alloc, gate)),
        Err(_) => false,
    }
}

#[test]
fn node_moved_beside_a_held_marker_is_kept(rt: HostRuntime) {
    // Until the owner comes to its eleventh command, the pause.
    let gate = HeldOnce::new(
        Pass {
            worker: 1,
            point: 2,
        },
        Pass {
            worker: 0,
            point: 3,
        },
        11,
    );
    assert!(rt; is_right(&rt, rt.alloc(), &MOVED, gate));
}

#[test]
fn value_read_beside_a_held_marker_is_kept(rt: HostRuntime) {
    let gate = HeldOnce::new(
        Pass {
            worker: 1,
            point: 2,
        },
        Pass {
            worker: 2,
            point: 1,
        },
        1,
    );
    assert!(rt; is_right(&rt, rt.alloc(), &READ, gate));
}
