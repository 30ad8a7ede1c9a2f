// The callbacks of the program (`CPPGC_USING_PRE_FINALIZER`, `include/cppgc/prefinalizer.h`).

ghost use Rattle.std.specs.Prelude.{◌≡◌};
ghost use Rattle.gc_graph.specs.declared.action.ActionKind.TheVariants as K;
ghost use Rattle.gc_graph.specs.Actions.{action_of};
ghost use Rattle.callback_table.specs.Table.{callback_kinds};
ghost use Rattle.script_run.specs.Callbacks.{program_kinds};

use super::one_run::run;
use super::status::Status;
use callback_table::{Action, ActionKind, Callback, CallbackTable};
use heap_engine::{FreeGate, Gate};
use heap_script::{NoMemory, Sink, Source};
use std::alloc::Global;
use std::sync::{Arc, Wait};
use std::thread::Threads;

/// How a run ended, and whether its heap was kept.
#[derive(Clone, Copy, Drop)]
pub struct Ran {
    pub status: Status,
    pub is_kept: bool,
}

/// Runs the script of the source with the five callbacks of the program, and holds nobody at the gate.
/// Want of memory is free.
pub fn run_program<R: Threads + Wait + Copy + Send + 'static, S: Source, K: Sink>(
    rt: &R,
    alloc: Global,
    words: &[String],
    source: &mut S,
    sink: &mut K,
) -> Result<Ran, NoMemory> {
    let gate = Arc::new(alloc, FreeGate)?;
    run_program_behind(rt, alloc, words, source, sink, &gate)
}

/// The same behind this gate.
pub fn run_program_behind<
    R: Threads + Wait + Copy + Send + 'static,
    S: Source,
    K: Sink,
    G: Gate + Send + Sync + 'static,
>(
    rt: &R,
    alloc: Global,
    words: &[String],
    source: &mut S,
    sink: &mut K,
    gate: &Arc<G>,
) -> Result<Ran, NoMemory> {
    let mut list = Vec::with_capacity(alloc, 5)?;
    list.push(Callback::new(ActionKind::Nothing, Box::new(alloc, nothing)?))?;
    let kind = ActionKind::Clear { link: 0, field: 0 };
    list.push(Callback::new(kind, Box::new(alloc, clear_first)?))?;
    let kind = ActionKind::Add {
        link: 0,
        field: 1,
        amount: 1,
    };
    list.push(Callback::new(kind, Box::new(alloc, add_one)?))?;
    let kind = ActionKind::AddOwn {
        link: 0,
        field: 1,
        from: 1,
    };
    list.push(Callback::new(kind, Box::new(alloc, add_second)?))?;
    let kind = ActionKind::ClearIf {
        link: 0,
        field: 0,
        word: 1,
    };
    list.push(Callback::new(kind, Box::new(alloc, clear_if_second)?))?;
    let callbacks = CallbackTable::new(list);
    Ok(run_with(rt, alloc, words, source, sink, &callbacks, gate))
}

/// Runs the script of the source with callbacks that are those of the program.
fn run_with<
    R: Threads + Wait + Copy + Send + 'static,
    S: Source,
    K: Sink,
    G: Gate + Send + Sync + 'static,
>(
    rt: &R,
    alloc: Global,
    words: &[String],
    source: &mut S,
    sink: &mut K,
    callbacks: &CallbackTable,
    gate: &Arc<G>,
) -> Ran
    requires { callback_kinds callbacks.now ≡ program_kinds }
{
    let mut kept = None;
    let status = run(rt, alloc, words, source, sink, callbacks, gate, &mut kept);
    Ran {
        status,
        is_kept: kept.is_some(),
    }
}

/// Does nothing.
fn nothing(words: &[u64]) -> Action
    ensures { result ≡ action_of K.Nothing words.now }
{
    let _ = words;
    Action::Nothing
}

/// Clears field 0 of what field 0 names.
fn clear_first(words: &[u64]) -> Action
    ensures { result ≡ action_of (K.Clear 0 0) words.now }
{
    let _ = words;
    Action::Clear { link: 0, field: 0 }
}

/// Adds 1 to field 1 of what field 0 names.
fn add_one(words: &[u64]) -> Action
    ensures { result ≡ action_of (K.Add 0 1 1) words.now }
{
    let _ = words;
    Action::Add {
        link: 0,
        field: 1,
        amount: 1,
    }
}

/// Adds the shown word 1 to field 1 of what field 0 names.
fn add_second(words: &[u64]) -> Action
    ensures { result ≡ action_of (K.AddOwn 0 1 1) words.now }
{
    Action::Add {
        link: 0,
        field: 1,
        amount: words.get(1).copied().unwrap_or(0),
    }
}

/// Clears field 0 of what field 0 names, where the shown word 1 is not 0.
fn clear_if_second(words: &[u64]) -> Action
    ensures { result ≡ action_of (K.ClearIf 0 0 1) words.now }
{
    match words.get(1) {
        Some(0) | None => Action::Nothing,
        Some(_) => Action::Clear { link: 0, field: 0 },
    }
}
