// Threads of a script beside the owner: a schedule that a gate makes, runs in which all go as they come,
// and a crowd of eight threads and eight markers.

use super::beside::hold;
use super::delays::Delays;
use super::lawful::{Trial, count_of, is_lawful};
use super::runs::{STEADY, run_of, writes_one_of};
use script_run::{FreeGate, Gate};
use std::alloc::Global;
use std::sync::atomic::{AtomicU64, Ordering};
use std::sync::{Arc, Wait};
use std::thread::Threads;

/// So many runs of a script whose threads go as they come.
const RUNS: u32 = 100;

const WORDS: &str = "--pages 4 --page-words 256";

/// The thread does its order after the owner's fourth command, which makes node 1, and before the join.
const HELD: &[u8] = b"oilpan 1\ntype S\nnew 0 0\nat 1 totals\nthreads go\nnew 1 0\nthreads join\n";

const HELD_REPORT: &str = "\
type 0
node 0 at 0
queued
going 1
node 1 at 3
reply 1 totals 4 2 6 0
joined 1
end objects 2 used 6 pages 1
";

/// Nothing is between the start of the thread and its join.
const FREE: &[u8] = b"oilpan 1\ntype S\nnew 0 0\nat 1 totals\nthreads go\nthreads join\n";

/// The thread reads the totals after the command before `threads go`, or those after it.
const FREE_REPORTS: &str = "\
type 0
node 0 at 0
queued
going 1
reply 1 totals 2 1 3 0
joined 1
end objects 1 used 3 pages 1
|type 0
node 0 at 0
queued
going 1
reply 1 totals 3 1 3 0
joined 1
end objects 1 used 3 pages 1
";

/// When the threads go, 0 has 1, slots 0 and 2 of the region are strong for 0 and 2, which are marked,
/// and only the weak slot 1 of the region names 3. Nothing has 4. Each thread makes slot 2 weak, upgrades
/// slots 1 and 2 into slots of its own, which it clears last, and copies slot 0 into slot 4. Meanwhile
/// 0 gets the new node 5 in the place of 1, and 6 is made and lost. After the join slot 4 alone has 0.
const CROWD: Trial = Trial {
    script: "oilpan 1\ntype SW\nnew 0 0\nnew 1 0\nset 0 0 1\nnew 2 0\nnew 3 0\nnew 4 0\nexport 0 0\n\
export 2 2\nexport 3 1\ndrop 1\ndrop 2\ndrop 3\ndrop 4\nat 1 weaken 1\nthreads go\nthreads join\n\
at 1 weaken 2\nat 1 upgrade 1 9\nat 1 copy 9 17\nat 1 copy 0 4\nat 1 upgrade 2 9\nat 1 totals\n\
at 1 clear 9\nat 1 clear 17\nat 2 upgrade 1 18\nat 2 totals\nat 2 weaken 2\nat 2 copy 1 10\n\
at 2 upgrade 2 18\nat 2 copy 0 4\nat 2 clear 18\nat 2 clear 10\nat 3 weaken 2\n\
at 3 upgrade 1 11\nat 3 copy 11 19\nat 3 copy 0 4\nat 3 upgrade 2 11\nat 3 totals\n\
at 3 clear 11\nat 3 clear 19\nat 4 upgrade 1 20\nat 4 totals\nat 4 weaken 2\nat 4 copy 1 12\n\
at 4 upgrade 2 20\nat 4 copy 0 4\nat 4 clear 20\nat 4 clear 12\nat 5 weaken 2\n\
at 5 upgrade 1 13\nat 5 copy 13 21\nat 5 copy 0 4\nat 5 upgrade 2 13\nat 5 totals\n\
at 5 clear 13\nat 5 clear 21\nat 6 upgrade 1 22\nat 6 totals\nat 6 weaken 2\nat 6 copy 1 14\n\
at 6 upgrade 2 22\nat 6 copy 0 4\nat 6 clear 22\nat 6 clear 14\nat 7 weaken 2\n\
at 7 upgrade 1 15\nat 7 copy 15 23\nat 7 copy 0 4\nat 7 upgrade 2 15\nat 7 totals\n\
at 7 clear 15\nat 7 clear 23\nat 8 upgrade 1 24\nat 8 totals\nat 8 weaken 2\nat 8 copy 1 16\n\
at 8 upgrade 2 24\nat 8 copy 0 4\nat 8 clear 24\nat 8 clear 16\n\
gc start\nthreads go\nnew 1 0\nset 0 0 1\nexport 1 3\nimport 2 6\ngc step 2\nnew 2 0\nset 2 0 6\n\
drop 2\ndrop 6\nimport 3 7\ngc step 1\ndrop 1\ndrop 7\ngc finish precise\nthreads join\n\
get 0 0 7\ndrop 7\ndrop 0\nat 8 clear 0\nat 8 clear 3\nthreads go\nthreads join\ngc now precise\n\
sweep all\n",
    objects: 7,
    least: 3,
    garbage: 2,
    left: 2,
    reads: "joined 8\nnode 5\nok\nok\nqueued\nqueued\ngoing 1\nreply 8 done\nreply 8 done\n\
entry 8 clear 0 done\nentry 8 clear 3 done\njoined 1\n",
    end: "swept to 4\nend objects 2 used 8 pages 1\n",
};

/// What the owner is answered up to its steps while the crowd works.
const UP_TO_A_STEP: &str = "started\ngoing 8\nnode 5 at 20\nok\nok\nnode 2\nstep traced ";

const UP_TO_THE_NEXT: &str = "\nnode 6 at 24\nok\nok\nok\nnode 5\nstep traced ";

/// Holds the order of thread 1 until the owner has answered its fourth command, and the owner before
/// its fifth until the thread has come to its order.
#[derive(Drop)]
struct HeldOrder {
    begun: AtomicU64,
    answered: AtomicU64,
    come: AtomicU64,
    given_up: AtomicU64,
}

impl Gate for HeldOrder {
    fn pass(&self, worker: u32, point: u32) {
        match (worker, point) {
            (0, 3) => {
                if self.begun.fetch_add(1, Ordering::SeqCst) == 4 {
                    hold(&self.come, 1, &self.given_up);
                }
            }
            (0, 4) => {
                self.answered.fetch_add(1, Ordering::SeqCst);
            }
            (101, 5) => {
                self.come.fetch_add(1, Ordering::SeqCst);
                hold(&self.answered, 4, &self.given_up);
            }
            _ => {}
        }
    }
}

/// Whether the turns were kept, and the run wrote its report.
fn is_held_in_turn<R: Threads + Wait + Copy + Send + 'static>(rt: &R, alloc: Global) -> bool {
    let gate = HeldOrder {
        begun: AtomicU64::new(0),
        answered: AtomicU64::new(0),
        come: AtomicU64::new(0),
        given_up: AtomicU64::new(0),
    };
    match Arc::new(alloc, gate) {
        Ok(gate) => {
            writes_one_of(rt, alloc, WORDS, HELD, &gate, HELD_REPORT)
                && gate.come.load(Ordering::SeqCst) == 1
                && gate.given_up.load(Ordering::SeqCst) == 0
        }
        Err(_) => false,
    }
}

#[test]
fn thread_reads_totals_while_the_owner_goes_on(rt: HostRuntime) {
    assert!(rt; is_held_in_turn(&rt, rt.alloc()));
}

/// The first run, from 0 on, that writes none of the reports while nobody is held.
fn first_other<R: Threads + Wait + Copy + Send + 'static>(rt: &R, alloc: Global) -> Option<u32> {
    let Ok(gate) = Arc::new(alloc, FreeGate) else {
        return Some(RUNS);
    };
    for number in 0..RUNS {
        if !writes_one_of(rt, alloc, WORDS, FREE, &gate, FREE_REPORTS) {
            return Some(number);
        }
    }
    None
}

#[test]
fn totals_are_those_before_threads_go_or_after_it(rt: HostRuntime) {
    assert_eq!(rt; first_other(&rt, rt.alloc()), None);
}

/// Whether a report is one that the crowd may have: 1, 64 and 2 orders are answered, and the joins tell
/// 4, 61 and 2 entries.
fn is_of_the_crowd(report: &str) -> bool {
    is_lawful(&CROWD, report)
        && count_of(report, "reply ", "") == 67
        && count_of(report, "entry ", "") == 67
        && report.contains(UP_TO_A_STEP)
        && report.contains(UP_TO_THE_NEXT)
}

/// Whether the run of the crowd with this seed is done and lawful.
fn is_right<R: Threads + Wait + Copy + Send + 'static>(rt: &R, alloc: Global, seed: u32) -> bool {
    let Ok(gate) = Delays::shared(alloc, u64::from(seed)) else {
        return false;
    };
    let words = "--pages 4 --page-words 256 --markers 8";
    match run_of(alloc, words, CROWD.script.as_bytes(), STEADY) {
        Ok(mut run) => is_of_the_crowd(run.report_behind(rt, alloc, &gate)),
        Err(_) => false,
    }
}

/// The first seed whose run isn't as it has to be.
fn first_wrong<R: Threads + Wait + Copy + Send + 'static>(rt: &R, alloc: Global) -> Option<u32> {
    for seed in 0..RUNS {
        if !is_right(rt, alloc, seed) {
            return Some(seed);
        }
    }
    None
}

#[test]
fn eight_threads_and_eight_markers_go_at_once(rt: HostRuntime) {
    assert_eq!(rt; first_wrong(&rt, rt.alloc()), None);
}
