// A marker, or a thread of a script, that is at work when a write fails: the run returns once it is
// joined.

use super::runs::{Devices, STEADY, run_of};
use callback_table::CallbackTable;
use script_run::{Gate, Status};
use std::alloc::{AllocError, Global};
use std::sync::atomic::{AtomicU64, Ordering};
use std::sync::{Arc, Wait};
use std::thread;
use std::thread::Threads;

/// After so many turns a hold lets go, and the test fails.
const TURNS: u32 = 1_000_000_000;

/// For so many turns who is at work is held, and is waited for once the run has returned.
const WHILE: u32 = 2_000_000;

/// An object and a start, and then commands that answer `ok`. A piece of the report goes out after
/// 21,000 of these and more.
const START: &[u8] = b"oilpan 1\ntype S\nnew 0 0\ngc start\n";

/// The same with three orders of a thread, which goes.
const START_OF_THREAD: &[u8] =
    b"oilpan 1\ntype S\nnew 0 0\nat 1 totals\nat 1 clear 1\nat 1 totals\nthreads go\n";

const COMMAND: &[u8] = b"drop 1\n";

const COMMANDS: u32 = 22_000;

/// Holds the owner before its third command until the marker has passed, and the marker at its first
/// pass until the run has returned, or for a while. It counts the marker's passes, and those among
/// them after the return.
#[derive(Drop)]
struct HeldPastTheRun {
    begun: AtomicU64,
    passes: AtomicU64,
    returned: AtomicU64,
    late: AtomicU64,
}

impl HeldPastTheRun {
    fn new() -> HeldPastTheRun {
        HeldPastTheRun {
            begun: AtomicU64::new(0),
            passes: AtomicU64::new(0),
            returned: AtomicU64::new(0),
            late: AtomicU64::new(0),
        }
    }
}

impl Gate for HeldPastTheRun {
    fn pass(&self, worker: u32, point: u32) {
        match (worker, point) {
            (0, 3) => {
                if self.begun.fetch_add(1, Ordering::SeqCst) == 2 {
                    wait_for(&self.passes, 1, TURNS);
                }
            }
            (0, _) => {}
            _ => {
                if self.passes.fetch_add(1, Ordering::SeqCst) == 0 {
                    wait_for(&self.returned, 1, WHILE);
                }
                let returned = self.returned.load(Ordering::SeqCst);
                self.late.fetch_add(returned, Ordering::SeqCst);
            }
        }
    }
}

/// Holds the thread before its first order until the owner has answered 21,000 commands, and then until
/// the run has returned, or for a while. It counts the thread's passes, and those among them after the
/// return.
#[derive(Drop)]
struct HeldOrder {
    answered: AtomicU64,
    passes: AtomicU64,
    returned: AtomicU64,
    late: AtomicU64,
}

impl HeldOrder {
    fn new() -> HeldOrder {
        HeldOrder {
            answered: AtomicU64::new(0),
            passes: AtomicU64::new(0),
            returned: AtomicU64::new(0),
            late: AtomicU64::new(0),
        }
    }
}

impl Gate for HeldOrder {
    fn pass(&self, worker: u32, point: u32) {
        match (worker, point) {
            (0, 4) => {
                self.answered.fetch_add(1, Ordering::SeqCst);
            }
            (101, 5) => {
                if self.passes.fetch_add(1, Ordering::SeqCst) == 0 {
                    wait_for(&self.answered, 21_000, TURNS);
                    wait_for(&self.returned, 1, WHILE);
                }
                let returned = self.returned.load(Ordering::SeqCst);
                self.late.fetch_add(returned, Ordering::SeqCst);
            }
            _ => {}
        }
    }
}

/// Waits until the count has come so far, for so many turns at most.
fn wait_for(count: &AtomicU64, least: u64, turns: u32) {
    for turn in 0..turns {
        if count.load(Ordering::SeqCst) >= least {
            return;
        }
        // Where others wait for the processor, one that yields in each turn takes minutes.
        if turn % 1_000 == 0 {
            thread::yield_now();
        }
    }
}

/// The script that begins and ends so.
fn long_script(alloc: Global, start: &[u8], end: &[u8]) -> Result<Vec<u8>, AllocError> {
    let mut script = Vec::new(alloc);
    script.extend_from_slice(start)?;
    for _command in 0..COMMANDS {
        script.extend_from_slice(COMMAND)?;
    }
    script.extend_from_slice(end)?;
    Ok(script)
}

/// How the run of the script ends behind the gate, where the first write fails.
fn status_of<R: Threads + Wait + Copy + Send + 'static, G: Gate + Send + Sync + 'static>(
    rt: &R,
    alloc: Global,
    words: &str,
    script: &[u8],
    gate: &Arc<G>,
) -> Option<Status> {
    let devices = Devices {
        bad_write: 1,
        ..STEADY
    };
    match run_of(alloc, words, script, devices) {
        Ok(mut run) => {
            Some(run.status_behind(rt, alloc, &CallbackTable::new(Vec::new(alloc)), gate))
        }
        Err(_) => None,
    }
}

/// Whether the run ends with a write fault, the marker has passed, and it doesn't pass any more.
fn is_joined_behind<R: Threads + Wait + Copy + Send + 'static>(
    rt: &R,
    alloc: Global,
    script: &[u8],
    gate: &Arc<HeldPastTheRun>,
) -> bool {
    let words = "--pages 4 --page-words 256 --markers 1";
    let status = status_of(rt, alloc, words, script, gate);
    gate.returned.store(1, Ordering::SeqCst);
    wait_for(&gate.late, 1, WHILE);
    status == Some(Status::WriteFault)
        && gate.passes.load(Ordering::SeqCst) != 0
        && gate.late.load(Ordering::SeqCst) == 0
}

fn is_joined<R: Threads + Wait + Copy + Send + 'static>(rt: &R, alloc: Global) -> bool {
    let Ok(script) = long_script(alloc, START, b"") else {
        return false;
    };
    match Arc::new(alloc, HeldPastTheRun::new()) {
        Ok(gate) => is_joined_behind(rt, alloc, &script, &gate),
        Err(_) => false,
    }
}

#[test]
fn marker_is_joined_after_a_failed_write(rt: HostRuntime) {
    assert!(rt; is_joined(&rt, rt.alloc()));
}

/// Whether the run ends with a write fault, and all three orders were passed by then, the first one of
/// them no sooner than shortly before the write.
fn is_thread_joined_behind<R: Threads + Wait + Copy + Send + 'static>(
    rt: &R,
    alloc: Global,
    script: &[u8],
    gate: &Arc<HeldOrder>,
) -> bool {
    let status = status_of(rt, alloc, "--pages 4 --page-words 256", script, gate);
    let passes = gate.passes.load(Ordering::SeqCst);
    gate.returned.store(1, Ordering::SeqCst);
    wait_for(&gate.late, 1, WHILE);
    status == Some(Status::WriteFault)
        && passes == 3
        && gate.answered.load(Ordering::SeqCst) >= 21_000
        && gate.late.load(Ordering::SeqCst) == 0
}

fn is_thread_joined<R: Threads + Wait + Copy + Send + 'static>(rt: &R, alloc: Global) -> bool {
    let Ok(script) = long_script(alloc, START_OF_THREAD, b"threads join\n") else {
        return false;
    };
    match Arc::new(alloc, HeldOrder::new()) {
        Ok(gate) => is_thread_joined_behind(rt, alloc, &script, &gate),
        Err(_) => false,
    }
}

#[test]
fn thread_is_joined_after_a_failed_write(rt: HostRuntime) {
    assert!(rt; is_thread_joined(&rt, rt.alloc()));
}
