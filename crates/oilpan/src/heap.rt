// The heap that a program embeds.

ghost use Rattle.std.specs.Prelude.{◌≡◌, ◌+◌, ◌-◌, ◌^◌, ◌≤◌, false, length, IfOk};
ghost use Rattle.gc_graph.specs.Shapes.{IsShape};
ghost use Rattle.gc_graph.specs.State.{IsLive, empty_state};
ghost use Rattle.gc_graph.specs.Valid.{IsValid};
ghost use Rattle.callback_table.specs.Table.{callback_kinds};
ghost use Rattle.heap_engine.specs.Objects.{HaveCallbacks};
ghost use Rattle.oilpan.specs.declared.handles.Root.{Root};
ghost use Rattle.oilpan.specs.Cycles.{AreTotals};
ghost use Rattle.oilpan.specs.Handles.{Holds};
ghost use Rattle.oilpan.specs.Rest.{IsAtRest, IsRegionAtRest};

use crate::options::HeapOptions;
use crate::sharing::Sharing;
use crate::told::Totals;
use callback_table::CallbackTable;
use gc_graph::{Line, NoMemory, empty_is_valid, slots_name_the_live};
use heap_engine::{Config, Gate, Heap};
use std::alloc::Global;
use std::sync::{Arc, Wait};
use std::thread::Threads;
use type_table::TypeTable;

/// A heap, with what it has given out of its slots. It isn't `Drop`: whoever has one closes it.
pub struct Oilpan<'a, G> {
    pub(crate) heap: Heap<'a, G>,
    pub(crate) taken: [bool; 256],
    pub(crate) watched: [bool; 64],
    pub(crate) shared: [Sharing; 32],
    /// A slot that is likely not given out: the last one that was given back, or the next after the last one that was
    /// given out.
    pub(crate) likely: u8,
    pub ghost opened: { heap.core.closed ≡ false },
    pub ghost at_rest: { IsAtRest heap.core.setup heap.core.state taken },
    pub ghost region: { IsRegionAtRest heap.core.state shared },
    pub ghost valid: { ∥ IsValid heap.core.setup heap.core.state ∥₁ },
}

impl<'a, G: Gate + Send + Sync + 'static> Oilpan<'a, G> {
    /// An empty heap for objects of these types. Want of memory is free.
    pub fn open(
        alloc: Global,
        options: HeapOptions,
        types: TypeTable,
        callbacks: &'a CallbackTable,
        gate: &Arc<G>,
    ) -> Result<Oilpan<'a, G>, NoMemory>
        requires shape { IsShape (record { pages = options.pages; page_words = options.page_words }) }
        requires few { options.markers ≤ 8 }
        requires called { HaveCallbacks (length (callback_kinds callbacks.now)) types }
        ensures setup { IfOk result (λ h. h.heap.core.setup ≡ record {
          shape = record { pages = options.pages; page_words = options.page_words };
          markers = options.markers;
          types = types;
          callbacks = callback_kinds callbacks.now;
        }) }
        ensures state { IfOk result (λ h. h.heap.core.state ≡ empty_state) }
    {
        empty_is_valid();
        let config = Config {
            pages: options.pages,
            page_words: options.page_words,
            markers: options.markers,
        };
        let heap = Heap::new(alloc, config, types, callbacks, gate)?;
        Ok(Oilpan {
            heap,
            taken: [false; 256],
            watched: [false; 64],
            shared: [Sharing::Free; 32],
            likely: 0,
        })
    }

    /// How many commands are left of the 2^64 - 1 that a heap does. A call takes one, `collect` two,
    /// and `clear_released` 34.
    pub fn commands_left(&self) -> u64
        ensures { self.now.heap.core.state.ordinal + result ≡ 2 ^ 64 - 1 }
    {
        match self.heap.summary() {
            Line::Summary { c, .. } => u64::MAX - c,
            _ => unreachable!(),
        }
    }

    /// No more objects were made than commands were done. Whoever calls this has the law.
    pub fn nodes_are_few(&self)
        ensures { length self.now.heap.core.state.nodes ≤ self.now.heap.core.state.ordinal }
    {
        self.heap.nodes_are_few();
    }

    /// What roots hold lives. Whoever calls this has the law.
    pub fn held_objects_live(&self)
        ensures { (o : Root) → Holds self.now.heap.core.state o →
            IsLive self.now.heap.core.state.nodes o.node }
    {
        slots_name_the_live();
        self.heap.is_valid();
    }

    /// Ends the heap: markers that run are stopped and joined. The answer counts the objects that were
    /// not finalised, their words and their pages.
    pub fn close<R: Threads + Wait>(self, rt: &R) -> Totals
        ensures { AreTotals self.entry.heap.core.setup self.entry.heap.core.state result }
    {
        let Oilpan {
            mut heap,
            taken: _,
            watched: _,
            shared: _,
            likely: _,
        } = self;
        match heap.close(rt) {
            Line::End { n, u, g } => Totals {
                objects: n,
                words: u,
                pages: g,
            },
            _ => unreachable!(),
        }
    }
}
