// Shared roots that were given back are cleared, by another thread than the heap's.

ghost use Rattle.std.specs.Prelude.{◌≡◌, ◌+◌, ◌<◌, ◌≤◌, ℕ, [], false, length, Some, Contains};
ghost use Rattle.std.specs.Prelude.{IfErr, IfOk};
ghost use Rattle.gc_graph.specs.declared.line.Line.{Line};
ghost use Rattle.oilpan.specs.declared.handles.Root.{Root};
ghost use Rattle.oilpan.specs.declared.handles.SharedRoot.{SharedRoot};
ghost use Rattle.oilpan.specs.declared.handles.WeakRoot.{WeakRoot};
ghost use Rattle.oilpan.specs.Clearing.{AreFreed, AreNull, AreQueued, HasReleased, HaveRun};
ghost use Rattle.oilpan.specs.Clearing.{told_cleared};
ghost use Rattle.oilpan.specs.Handles.{HasRoom, Holds, Shares, Watches};
ghost use Rattle.oilpan.specs.Rest.{IsRegionAtRest};

use crate::heap::Oilpan;
use crate::sharing::{Sharing, has_released};
use gc_graph::{
    Command, Entry, Line, NoMemory, Op, Order, calls_change_their_slot, joins_tell_all,
    orders_wait_for_their_thread, steps_stay_in_their_family,
};
use heap_engine::{Gate, Heap};
use std::sync::Wait;
use std::thread::Threads;

impl<'a, G: Gate + Send + Sync + 'static> Oilpan<'a, G> {
    /// A thread clears the slots of shared roots that were given back. It is started and joined within the
    /// call. Where memory was wanting, some slots still wait for the next call.
    pub fn clear_released<R: Threads + Wait + Copy + Send + 'static>(
        &mut self,
        rt: &R,
    ) -> Result<(), NoMemory>
        requires room { HasRoom self.old.heap.core.state 34 }
        ensures setup { self.new.heap.core.setup ≡ self.old.heap.core.setup }
        ensures ordinal { self.new.heap.core.state.ordinal ≤ self.old.heap.core.state.ordinal + 34 }
        ensures nodes { self.new.heap.core.state.nodes ≡ self.old.heap.core.state.nodes }
        ensures cleared { IfOk result (λ _.
            AreNull self.old.shared self.new.heap.core.state) }
        ensures none { IfOk result (λ _. ¬ (HasReleased self.new.shared)) }
        ensures left { IfErr result (λ _. HasReleased self.new.shared) }
        ensures stays { (o : Root) →
            Holds self.old.heap.core.state o → Holds self.new.heap.core.state o }
        ensures watches { (o : WeakRoot) →
            Watches self.old.heap.core.state self.old.watched o →
            Watches self.new.heap.core.state self.new.watched o }
        ensures shares { (o : SharedRoot) →
            Shares self.old.heap.core.state self.old.shared o →
            Shares self.new.heap.core.state self.new.shared o }
    {
        let count = run_orders(&mut self.heap, rt, &self.shared);
        self.heap.is_valid();
        free_cleared(&mut self.heap, count, &mut self.shared);
        if has_released(&self.shared) {
            return Err(NoMemory);
        }
        Ok(())
    }
}

/// A thread does an order for each slot that was given back, as far as there is memory for it. The answer is
/// the number of lines that tell of it.
fn run_orders<R: Threads + Wait + Copy + Send + 'static, G: Gate + Send + Sync + 'static>(
    heap: &mut Heap<'_, G>,
    rt: &R,
    shared: &[Sharing; 32],
) -> u64
    requires room { HasRoom heap.old.core.state 34 }
    requires opened { heap.old.core.closed ≡ false }
    requires running { heap.old.core.state.running ≡ [] }
    requires rest { IsRegionAtRest heap.old.core.state shared.now }
    ensures run { HaveRun heap.old.core.state shared.now heap.new.core.lines
        heap.new.core.state }
    ensures count { result ≡ length heap.new.core.lines }
    ensures ordinal { heap.new.core.state.ordinal ≤ heap.old.core.state.ordinal + 34 }
    ensures setup { heap.new.core.setup ≡ heap.old.core.setup }
    ensures opened { heap.new.core.closed ≡ false }
{
    calls_change_their_slot();
    joins_tell_all();
    orders_wait_for_their_thread();
    steps_stay_in_their_family();
    queue_orders(heap, rt, shared);
    let _going = heap.ask(rt, &Command::ThreadsGo);
    heap.act(rt, &Command::ThreadsJoin)
}

/// An order waits for each slot that was given back, as far as there is memory for it.
fn queue_orders<R: Threads + Wait + Copy + Send + 'static, G: Gate + Send + Sync + 'static>(
    heap: &mut Heap<'_, G>,
    rt: &R,
    shared: &[Sharing; 32],
)
    requires room { HasRoom heap.old.core.state 32 }
    requires opened { heap.old.core.closed ≡ false }
    requires rest { IsRegionAtRest heap.old.core.state shared.now }
    ensures queued { AreQueued heap.old.core.state heap.new.core.state shared.now }
    ensures ordinal { heap.new.core.state.ordinal ≤ heap.old.core.state.ordinal + 32 }
    ensures setup { heap.new.core.setup ≡ heap.old.core.setup }
    ensures opened { heap.new.core.closed ≡ false }
{
    for slot in 0..32u32 {
        if shared[slot as usize] == Sharing::Released {
            let command = Command::At {
                j: 1,
                order: Order::Clear { slot },
            };
            let _line = heap.ask(rt, &command);
        }
    }
}

/// The slots that lines tell as cleared are free.
fn free_cleared<G: Gate + Send + Sync + 'static>(
    heap: &mut Heap<'_, G>,
    count: u64,
    shared: &mut [Sharing; 32],
)
    requires count { count ≡ length heap.old.core.lines }
    requires low { (x : ℕ) → (line : Line) → Contains heap.old.core.lines line →
        told_cleared line ≡ Some x → x < 32 }
    ensures freed { AreFreed heap.old.core.lines shared.old shared.new }
    ensures same { heap.new.core ≡ heap.old.core }
{
    for i in 0..count {
        let line = heap.line(i);
        if let Some(slot) = told_cleared(&line) {
            shared[slot as usize] = Sharing::Free;
        }
    }
}

/// The slot that thread 1 has cleared.
fn told_cleared(line: &Line) -> Option<u32>
    ensures { result ≡ told_cleared line.now }
{
    match line {
        Line::Entry(
            Entry {
                thread: 1,
                op: Op::Clear { slot },
                ..
            },
        ) => Some(*slot),
        _ => None,
    }
}
