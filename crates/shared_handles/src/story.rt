// A note that is shared, and let go by another thread.

ghost use Rattle.std.specs.Prelude.{IfOk};
ghost use Rattle.oilpan.specs.declared.handles.SharedRoot.{SharedRoot};
ghost use Rattle.oilpan.specs.Handles.{Shares};
ghost use Rattle.oilpan.specs.Frame.{Takes};
ghost use Rattle.shared_handles.specs.Calls.{IsReady};

use anyhow::Result;
use oilpan::{FreeGate, Oilpan, SharedRoot};
use std::sync::Wait;
use std::thread::Threads;

const NOTE: u32 = 0;

const NUMBER: u32 = 0;

const PAGES: u32 = 4;

pub type Heap<'a> = Oilpan<'a, FreeGate>;

/// What a heap wants of the runtime.
pub trait Runtime: Threads + Wait + Print + Copy + Send + 'static {}

impl<R: Threads + Wait + Print + Copy + Send + 'static> Runtime for R {}

/// Shares a note, and tells how long it lives.
pub fn tell<R: Runtime>(heap: &mut Heap, rt: &R) -> Result<()>
    requires { IsReady 100 heap.old.heap.core }
{
    let shared = shared_note(heap, rt, 7)?;
    let kept = collected(heap, rt);
    let number = number_of(heap, rt, &shared);
    heap.release_shared(shared);
    println!(rt; "shared: {} note, and its number is {}", kept?, number?)?;
    let kept = collected(heap, rt)?;
    println!(rt; "given back: {kept} note")?;
    heap.clear_released(rt)?;
    let kept = collected(heap, rt)?;
    println!(rt; "cleared by a thread: {kept} notes")?;
    Ok(())
}

/// A note with this number, which only a shared root keeps.
fn shared_note<R: Runtime>(heap: &mut Heap, rt: &R, number: u64) -> Result<SharedRoot>
    requires { IsReady 4 heap.old.heap.core }
    ensures took { Takes 4 heap.old.heap.core heap.new.heap.core }
    ensures shares { IfOk result (Shares heap.new.heap.core.state heap.new.shared) }
{
    heap.nodes_are_few();
    let note = heap.make(rt, NOTE, 0)?;
    let written = heap.put_word(rt, &note, NUMBER, number);
    let shared = heap.share(rt, &note);
    heap.release(rt, note);
    let shared = shared?;
    if let Err(why) = written {
        heap.release_shared(shared);
        return Err(why.into());
    }
    Ok(shared)
}

/// The number of the shared note.
fn number_of<R: Runtime>(heap: &mut Heap, rt: &R, shared: &SharedRoot) -> Result<u64>
    requires ready { IsReady 3 heap.old.heap.core }
    requires shared { Shares heap.old.heap.core.state heap.old.shared shared.now }
    ensures took { Takes 3 heap.old.heap.core heap.new.heap.core }
    ensures shares { Shares heap.new.heap.core.state heap.new.shared shared.now }
{
    let note = heap.root_of(rt, shared)?;
    let number = heap.word(rt, &note, NUMBER);
    heap.release(rt, note);
    Ok(number?)
}

/// How many objects a collection leaves.
fn collected<R: Runtime>(heap: &mut Heap, rt: &R) -> Result<u32>
    requires { IsReady 4 heap.old.heap.core }
    ensures took { Takes 4 heap.old.heap.core heap.new.heap.core }
    ensures shares { (o : SharedRoot) →
        Shares heap.old.heap.core.state heap.old.shared o →
        Shares heap.new.heap.core.state heap.new.shared o }
{
    heap.collect(rt)?;
    heap.sweep(rt, PAGES)?;
    Ok(heap.totals(rt).objects)
}
