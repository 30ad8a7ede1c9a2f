// An editor of a tree, which counts the elements that are torn down.

ghost use Rattle.std.specs.Prelude.{◌*◌, ◌<◌};
ghost use Rattle.oilpan.specs.Handles.{Holds};
ghost use Rattle.oilpan.specs.Frame.{Keeps};
ghost use Rattle.document_tree.specs.Calls.{IsReady, IsReadyWith};

use anyhow::{Context, Result};
use oilpan::{FreeGate, Oilpan, Root};
use std::sync::Wait;
use std::thread::Threads;

const EDITOR: u32 = 0;

const PAGE: u32 = 0;

const MARGIN: u32 = 1;

pub const TORN_DOWN: u32 = 2;

const ELEMENT: u32 = 1;

const CHILD: u32 = 0;

const NEXT: u32 = 1;

pub const OBSERVER: u32 = 2;

pub type Heap<'a> = Oilpan<'a, FreeGate>;

/// The object that elements name as their observer. Its fields are the tree's page and margin.
struct Editor<R> {
    rt: R,
    object: Root,
}

/// Makes an editor, and tells what becomes of its elements.
pub fn tell<R: Threads + Wait + Print + Copy + Send + 'static>(heap: &mut Heap, rt: R) -> Result<()>
    requires { IsReady 100 heap.old.heap.core }
{
    heap.nodes_are_few();
    let object = heap.make(&rt, EDITOR, 0)?;
    let editor = Editor { rt, object };
    let told = editor.build(heap);
    let Editor { rt, object } = editor;
    heap.release(&rt, object);
    told
}

impl<R: Threads + Wait + Print + Copy + Send + 'static> Editor<R> {
    /// Fills page and margin, unlinks what is in the margin, and collects.
    fn build(&self, heap: &mut Heap) -> Result<()>
        requires { IsReadyWith 60 heap.old.heap.core self.now.object }
        ensures { Keeps 60 heap.old.heap.core heap.new.heap.core }
    {
        self.grow(heap, &self.object, PAGE, 3)?;
        self.grow(heap, &self.object, MARGIN, 3)?;
        self.tell(heap, "built")?;
        heap.clear(&self.rt, &self.object, MARGIN)?;
        self.collect(heap)
    }

    /// Collects in steps, and edits the tree meanwhile.
    fn collect(&self, heap: &mut Heap) -> Result<()>
        requires { IsReadyWith 30 heap.old.heap.core self.now.object }
        ensures { Keeps 30 heap.old.heap.core heap.new.heap.core }
    {
        heap.start(&self.rt)?;
        let stepped = heap.step(&self.rt, 1)?;
        println!(self.rt; "{} traced before the edits", stepped.traced)?;
        let page = heap.get(&self.rt, &self.object, PAGE)?.context("no page")?;
        // The editor is traced by now, and the child isn't marked: the write into the margin marks it.
        let moved = self.move_child(heap, &page);
        // A new element takes its place, so that the margin alone names the child.
        let grown = self.grow(heap, &page, CHILD, 1);
        heap.release(&self.rt, page);
        moved.and(grown)?;
        heap.finish(&self.rt)?;
        self.tell(heap, "condemned")?;
        heap.sweep(&self.rt, u32::MAX)?;
        self.tell(heap, "swept")
    }

    /// So many new elements: one in the holder's field, and half of the others below it, half after it.
    fn grow(&self, heap: &mut Heap, holder: &Root, field: u32, count: u8) -> Result<()>
        requires ready { IsReadyWith (4 * count) heap.old.heap.core self.now.object }
        requires holder { Holds heap.old.heap.core.state holder.now }
        requires field { field < 67108864 }
        ensures { Keeps (4 * count) heap.old.heap.core heap.new.heap.core }
    {
        if count == 0 {
            return Ok(());
        }
        heap.nodes_are_few();
        let element = heap.make(&self.rt, ELEMENT, 0)?;
        let observed = heap.set(&self.rt, &element, OBSERVER, &self.object);
        let linked = heap.set(&self.rt, holder, field, &element);
        let grown = self.grow(heap, &element, CHILD, count / 2);
        let followed = self.grow(heap, &element, NEXT, (count - 1) / 2);
        heap.release(&self.rt, element);
        let linked = observed.and(linked).context("not linked");
        linked.and(grown).and(followed)
    }

    /// An element's child is in the margin too.
    fn move_child(&self, heap: &mut Heap, from: &Root) -> Result<()>
        requires ready { IsReadyWith 3 heap.old.heap.core self.now.object }
        requires from { Holds heap.old.heap.core.state from.now }
        ensures { Keeps 3 heap.old.heap.core heap.new.heap.core }
    {
        let child = heap.get(&self.rt, from, CHILD)?.context("no child")?;
        let moved = heap.set(&self.rt, &self.object, MARGIN, &child);
        heap.release(&self.rt, child);
        Ok(moved?)
    }

    /// Tells of the objects that aren't finalised, of the torn down, and of the margin's element.
    fn tell(&self, heap: &mut Heap, when: &str) -> Result<()>
        requires { IsReadyWith 4 heap.old.heap.core self.now.object }
        ensures { Keeps 4 heap.old.heap.core heap.new.heap.core }
    {
        let torn_down = heap.word(&self.rt, &self.object, TORN_DOWN)?;
        let objects = heap.totals(&self.rt).objects;
        let margin = heap.get(&self.rt, &self.object, MARGIN)?.context("empty")?;
        let number = margin.number();
        heap.release(&self.rt, margin);
        Ok(println!(self.rt; "{when}: {objects} objects, {torn_down} torn down, margin {number}")?)
    }
}
