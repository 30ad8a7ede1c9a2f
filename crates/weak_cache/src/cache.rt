// A cache whose entries die with their keys.

ghost use Rattle.oilpan.specs.Handles.{Holds};
ghost use Rattle.oilpan.specs.Frame.{Keeps};
ghost use Rattle.weak_cache.specs.Calls.{IsReady};

use anyhow::Result;
use oilpan::{FreeGate, Oilpan, Root};
use std::sync::Wait;
use std::thread::Threads;

const LAYOUT: u32 = 2;

const HEIGHT: u32 = 0;

pub type Heap<'a> = Oilpan<'a, FreeGate>;

/// What a heap wants of the runtime.
pub trait Runtime: Threads + Wait + Print + Copy + Send + 'static {}

impl<R: Threads + Wait + Print + Copy + Send + 'static> Runtime for R {}

/// Layouts of documents, by their numbers. A pair keeps each as long as its document lives.
pub struct WeakCache<R> {
    pub rt: R,
    pub entries: Root,
}

impl<R: Runtime> WeakCache<R> {
    /// The document with this number has a layout of this height.
    pub fn insert(&self, heap: &mut Heap, number: u8, document: &Root, height: u64) -> Result<()>
        requires ready { IsReady 4 heap.old.heap.core }
        requires cache { Holds heap.old.heap.core.state self.now.entries }
        requires document { Holds heap.old.heap.core.state document.now }
        ensures { Keeps 4 heap.old.heap.core heap.new.heap.core }
    {
        let field = u32::from(number);
        heap.nodes_are_few();
        let layout = heap.make(&self.rt, LAYOUT, 0)?;
        let written = heap.put_word(&self.rt, &layout, HEIGHT, height);
        let paired = heap.set_pair(&self.rt, &self.entries, field, document, &layout);
        heap.release(&self.rt, layout);
        Ok(written.and(paired)?)
    }

    /// The height of a document's layout, where the document lives.
    pub fn find(&self, heap: &mut Heap, number: u8) -> Result<Option<u64>>
        requires ready { IsReady 3 heap.old.heap.core }
        requires cache { Holds heap.old.heap.core.state self.now.entries }
        ensures { Keeps 3 heap.old.heap.core heap.new.heap.core }
    {
        let Some(layout) = heap.pair_value(&self.rt, &self.entries, u32::from(number))? else {
            return Ok(None);
        };
        let height = heap.word(&self.rt, &layout, HEIGHT);
        heap.release(&self.rt, layout);
        Ok(Some(height?))
    }
}
