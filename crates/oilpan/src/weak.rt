// Roots that keep nothing alive.

ghost use Rattle.std.specs.Prelude.{◌≡◌, ◌+◌, ◌≤◌, IfOk, IfSome, option_map};
ghost use Rattle.gc_graph.specs.HandleLaw.{while_live};
ghost use Rattle.oilpan.specs.declared.handles.Root.{Root};
ghost use Rattle.oilpan.specs.declared.handles.SharedRoot.{SharedRoot};
ghost use Rattle.oilpan.specs.declared.handles.WeakRoot.{WeakRoot};
ghost use Rattle.oilpan.specs.Handles.{HasRoom, Holds, Shares, Watches};

use crate::asking::ask;
use crate::errors::HandleError;
use crate::flags::free_flag;
use crate::handles::{Root, WeakRoot};
use crate::heap::Oilpan;
use gc_graph::{Command, Line, slots_name_the_live};
use heap_engine::Gate;
use std::sync::Wait;
use std::thread::Threads;

impl<'a, G: Gate + Send + Sync + 'static> Oilpan<'a, G> {
    /// A weak root for what the root names.
    pub fn weak<R: Threads + Wait + Copy + Send + 'static>(
        &mut self,
        rt: &R,
        root: &Root,
    ) -> Result<WeakRoot, HandleError>
        requires room { HasRoom self.old.heap.core.state 1 }
        requires root { Holds self.old.heap.core.state root.now }
        ensures setup { self.new.heap.core.setup ≡ self.old.heap.core.setup }
        ensures ordinal { self.new.heap.core.state.ordinal ≤ self.old.heap.core.state.ordinal + 1 }
        ensures nodes { self.new.heap.core.state.nodes ≡ self.old.heap.core.state.nodes }
        ensures watched { IfOk result
            (Watches self.new.heap.core.state self.new.watched) }
        ensures node { IfOk result (λ w. w.node ≡ root.now.node) }
        ensures fresh { IfOk result (λ w. (o : WeakRoot) →
            Watches self.old.heap.core.state self.old.watched o → ¬ (o.slot ≡ w.slot)) }
        ensures stays { (o : Root) →
            Holds self.old.heap.core.state o → Holds self.new.heap.core.state o }
        ensures watches { (o : WeakRoot) →
            Watches self.old.heap.core.state self.old.watched o →
            Watches self.new.heap.core.state self.new.watched o }
        ensures shares { (o : SharedRoot) →
            Shares self.old.heap.core.state self.old.shared o →
            Shares self.new.heap.core.state self.new.shared o }
    {
        slots_name_the_live();
        let Some(slot) = free_flag(&self.watched, 0) else {
            return Err(HandleError::WeakRoots);
        };
        let command = Command::Weak {
            w: slot,
            p: root.slot,
        };
        let _line = ask(&mut self.heap, rt, &command);
        self.watched[slot as usize] = true;
        Ok(WeakRoot {
            slot,
            node: root.node,
        })
    }

    /// A root for the weak root's object, just where that lives.
    pub fn upgrade<R: Threads + Wait + Copy + Send + 'static>(
        &mut self,
        rt: &R,
        weak: &WeakRoot,
    ) -> Result<Option<Root>, HandleError>
        requires room { HasRoom self.old.heap.core.state 1 }
        requires watched { Watches self.old.heap.core.state self.old.watched weak.now }
        ensures setup { self.new.heap.core.setup ≡ self.old.heap.core.setup }
        ensures ordinal { self.new.heap.core.state.ordinal ≤ self.old.heap.core.state.ordinal + 1 }
        ensures nodes { self.new.heap.core.state.nodes ≡ self.old.heap.core.state.nodes }
        ensures lives { IfOk result (λ o. option_map (λ r. r.node) o
            ≡ while_live self.old.heap.core.state.nodes weak.now.node) }
        ensures held { IfOk result (λ o. IfSome o (Holds self.new.heap.core.state)) }
        ensures fresh { IfOk result (λ o. IfSome o (λ r. (o : Root) →
            Holds self.old.heap.core.state o → ¬ (o.slot ≡ r.slot))) }
        ensures stays { (o : Root) →
            Holds self.old.heap.core.state o → Holds self.new.heap.core.state o }
        ensures watches { (o : WeakRoot) →
            Watches self.old.heap.core.state self.old.watched o →
            Watches self.new.heap.core.state self.new.watched o }
        ensures shares { (o : SharedRoot) →
            Shares self.old.heap.core.state self.old.shared o →
            Shares self.new.heap.core.state self.new.shared o }
    {
        let Some(slot) = free_flag(&self.taken, self.likely) else {
            return Err(HandleError::Roots);
        };
        let command = Command::Read {
            w: weak.slot,
            p: slot,
        };
        self.taken[slot as usize] = true;
        match ask(&mut self.heap, rt, &command) {
            Line::Node { k } => Ok(Some(Root { slot, node: k })),
            Line::Null => {
                self.taken[slot as usize] = false;
                Ok(None)
            }
            _ => unreachable!(),
        }
    }

    /// The weak slot may be given out again.
    pub fn release_weak(&mut self, weak: WeakRoot)
        requires watched { Watches self.old.heap.core.state self.old.watched weak }
        ensures core { self.new.heap.core ≡ self.old.heap.core }
        ensures stays { (o : Root) →
            Holds self.old.heap.core.state o → Holds self.new.heap.core.state o }
        ensures watches { (o : WeakRoot) →
            Watches self.old.heap.core.state self.old.watched o →
            ¬ (o.slot ≡ weak.slot) →
            Watches self.new.heap.core.state self.new.watched o }
        ensures shares { (o : SharedRoot) →
            Shares self.old.heap.core.state self.old.shared o →
            Shares self.new.heap.core.state self.new.shared o }
    {
        let WeakRoot { slot, node: _ } = weak;
        self.watched[slot as usize] = false;
    }
}
