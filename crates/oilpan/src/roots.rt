// Objects that are made, and roots that are released.

ghost use Rattle.std.specs.Prelude.{◌≡◌, ◌+◌, ◌-◌, ◌^◌, ◌<◌, ◌≤◌, length, IfOk, IfErr, None};
ghost use Rattle.gc_graph.specs.Outcomes.{answered, with_slot};
ghost use Rattle.oilpan.specs.declared.handles.Root.{Root};
ghost use Rattle.oilpan.specs.declared.handles.SharedRoot.{SharedRoot};
ghost use Rattle.oilpan.specs.declared.handles.WeakRoot.{WeakRoot};
ghost use Rattle.oilpan.specs.Handles.{HasRoom, Holds, Shares, Watches};
ghost use Rattle.oilpan.specs.Made.{IsMade, IsMakeFault};

use crate::asking::ask;
use crate::errors::MakeError;
use crate::flags::free_flag;
use crate::handles::Root;
use crate::heap::Oilpan;
use gc_graph::{Command, Line};
use heap_engine::Gate;
use std::sync::Wait;
use std::thread::Threads;

impl<'a, G: Gate + Send + Sync + 'static> Oilpan<'a, G> {
    /// A new object, named by a root.
    pub fn make<R: Threads + Wait + Copy + Send + 'static>(
        &mut self,
        rt: &R,
        ty: u32,
        extra: u32,
    ) -> Result<Root, MakeError>
        requires room { HasRoom self.old.heap.core.state 1 }
        requires numbered { length self.old.heap.core.state.nodes < 2 ^ 32 - 1 }
        requires ty { ty < length self.old.heap.core.setup.types }
        requires extra { extra ≤ 33554432 }
        ensures setup { self.new.heap.core.setup ≡ self.old.heap.core.setup }
        ensures ordinal { self.new.heap.core.state.ordinal ≤ self.old.heap.core.state.ordinal + 1 }
        ensures made { IfOk result (IsMade self.old.heap.core.setup
            self.old.heap.core.state ty extra self.new.heap.core.state) }
        ensures fault { IfErr result (IsMakeFault self.old.heap.core.state
            self.new.heap.core.state) }
        ensures held { IfOk result (Holds self.new.heap.core.state) }
        ensures fresh { IfOk result (λ r. (o : Root) →
            Holds self.old.heap.core.state o → ¬ (o.slot ≡ r.slot)) }
        ensures stays { (o : Root) →
            Holds self.old.heap.core.state o → Holds self.new.heap.core.state o }
        ensures watches { (o : WeakRoot) →
            Watches self.old.heap.core.state self.old.watched o →
            Watches self.new.heap.core.state self.new.watched o }
        ensures shares { (o : SharedRoot) →
            Shares self.old.heap.core.state self.old.shared o →
            Shares self.new.heap.core.state self.new.shared o }
    {
        let Some(slot) = free_flag(&self.taken, self.likely) else {
            return Err(MakeError::Handles);
        };
        let command = Command::New {
            p: slot,
            t: ty,
            e: extra,
        };
        self.taken[slot as usize] = true;
        match ask(&mut self.heap, rt, &command) {
            Line::Placed { k, .. } => {
                self.likely = (slot as u8).wrapping_add(1);
                Ok(Root { slot, node: k })
            }
            Line::Full => {
                self.taken[slot as usize] = false;
                Err(MakeError::Full)
            }
            Line::Memory => {
                self.taken[slot as usize] = false;
                Err(MakeError::Memory)
            }
            _ => unreachable!(),
        }
    }

    /// The root's slot is null afterwards, and may be given out again.
    #[inline(always)]
    pub fn release<R: Threads + Wait + Copy + Send + 'static>(&mut self, rt: &R, root: Root)
        requires room { HasRoom self.old.heap.core.state 1 }
        requires held { Holds self.old.heap.core.state root }
        ensures setup { self.new.heap.core.setup ≡ self.old.heap.core.setup }
        ensures state { self.new.heap.core.state
            ≡ answered (with_slot self.old.heap.core.state root.slot None) }
        ensures stays { (o : Root) → Holds self.old.heap.core.state o →
            ¬ (o.slot ≡ root.slot) → Holds self.new.heap.core.state o }
        ensures watches { (o : WeakRoot) →
            Watches self.old.heap.core.state self.old.watched o →
            Watches self.new.heap.core.state self.new.watched o }
        ensures shares { (o : SharedRoot) →
            Shares self.old.heap.core.state self.old.shared o →
            Shares self.new.heap.core.state self.new.shared o }
    {
        let Root { slot, node: _ } = root;
        let _line = ask(&mut self.heap, rt, &Command::Drop { p: slot });
        self.taken[slot as usize] = false;
        self.likely = slot as u8;
    }
}
