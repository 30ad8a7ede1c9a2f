// How often a callback is called.

ghost use Rattle.std.specs.Prelude.{◌≡◌};
ghost use Rattle.gc_graph.specs.Actions.{action_of};

use super::runs::{STEADY, run_of};
use callback_table::{Action, ActionKind, Callback, CallbackTable};
use heap_script::NoMemory;
use script_run::{FreeGate, Status};
use std::alloc::Global;
use std::sync::atomic::{AtomicU64, Ordering};
use std::sync::{Arc, Wait};
use std::thread::Threads;

// Two objects die, and each has the one callback twice.
const SCRIPT: &[u8] = b"oilpan 1\ntype S pre 0 0\nnew 0 0\nnew 1 0\nnew 2 0\ndrop 0\ndrop 1\n\
gc now precise\nsweep all\n";

/// A table of one callback, whose calls are counted.
fn counting_table(alloc: Global, calls: &Arc<AtomicU64>) -> Result<CallbackTable, NoMemory> {
    let counted = calls.clone()?;
    let call = Box::new(
        alloc,
        move |words: &[u64]| -> Action
            ensures { result ≡ action_of ActionKind.Nothing words.entry.now }
        {
            let _ = words;
            counted.fetch_add(1, Ordering::SeqCst);
            Action::Nothing
        },
    )?;
    let list = vec![in alloc; Callback::new(ActionKind::Nothing, call)]?;
    Ok(CallbackTable::new(list))
}

fn is_done<R: Threads + Wait + Copy + Send + 'static>(
    rt: &R,
    alloc: Global,
    callbacks: &CallbackTable,
    gate: &Arc<FreeGate>,
) -> bool {
    match run_of(alloc, "", SCRIPT, STEADY) {
        Ok(mut run) => run.status_behind(rt, alloc, callbacks, gate) == Status::Done,
        Err(_) => false,
    }
}

fn is_done_with<R: Threads + Wait + Copy + Send + 'static>(
    rt: &R,
    alloc: Global,
    callbacks: &CallbackTable,
) -> bool {
    match Arc::new(alloc, FreeGate) {
        Ok(gate) => is_done(rt, alloc, callbacks, &gate),
        Err(_) => false,
    }
}

/// Whether the run is done, with one callback whose calls are counted.
fn is_counted<R: Threads + Wait + Copy + Send + 'static>(
    rt: &R,
    alloc: Global,
    calls: &Arc<AtomicU64>,
) -> bool {
    match counting_table(alloc, calls) {
        Ok(callbacks) => is_done_with(rt, alloc, &callbacks),
        Err(_) => false,
    }
}

/// How many calls a run that is done makes; without one, none.
fn calls_made<R: Threads + Wait + Copy + Send + 'static>(rt: &R, alloc: Global) -> Option<u64> {
    match Arc::new(alloc, AtomicU64::new(0)) {
        Ok(calls) => is_counted(rt, alloc, &calls).then_some(calls.load(Ordering::SeqCst)),
        Err(_) => None,
    }
}

#[test]
fn each_line_is_one_call(rt: HostRuntime) {
    assert_eq!(rt; calls_made(&rt, rt.alloc()), Some(4));
}
