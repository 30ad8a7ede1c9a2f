// Roots that other threads clear.

ghost use Rattle.std.specs.Prelude.{◌≡◌, ◌+◌, ◌≤◌, IfErr, IfOk};
ghost use Rattle.oilpan.specs.declared.handles.Root.{Root};
ghost use Rattle.oilpan.specs.declared.handles.SharedRoot.{SharedRoot};
ghost use Rattle.oilpan.specs.declared.handles.WeakRoot.{WeakRoot};
ghost use Rattle.oilpan.specs.Handles.{HasRoom, Holds, IsShareFault, Shares, Watches};

use crate::asking::ask;
use crate::errors::ShareError;
use crate::flags::free_flag;
use crate::handles::{Root, SharedRoot};
use crate::heap::Oilpan;
use crate::sharing::{Sharing, free_slot};
use gc_graph::{Command, Line};
use heap_engine::Gate;
use std::sync::Wait;
use std::thread::Threads;

impl<'a, G: Gate + Send + Sync + 'static> Oilpan<'a, G> {
    /// A shared root for what the root names.
    pub fn share<R: Threads + Wait + Copy + Send + 'static>(
        &mut self,
        rt: &R,
        root: &Root,
    ) -> Result<SharedRoot, ShareError>
        requires room { HasRoom self.old.heap.core.state 1 }
        requires root { Holds self.old.heap.core.state root.now }
        ensures setup { self.new.heap.core.setup ≡ self.old.heap.core.setup }
        ensures ordinal { self.new.heap.core.state.ordinal ≤ self.old.heap.core.state.ordinal + 1 }
        ensures nodes { self.new.heap.core.state.nodes ≡ self.old.heap.core.state.nodes }
        ensures shared { IfOk result (Shares self.new.heap.core.state self.new.shared) }
        ensures node { IfOk result (λ r. r.node ≡ root.now.node) }
        ensures fresh { IfOk result (λ r. (o : SharedRoot) →
            Shares self.old.heap.core.state self.old.shared o → ¬ (o.slot ≡ r.slot)) }
        ensures fault { IfErr result (IsShareFault self.old.heap.core.state
            self.new.heap.core.state) }
        ensures stays { (o : Root) →
            Holds self.old.heap.core.state o → Holds self.new.heap.core.state o }
        ensures watches { (o : WeakRoot) →
            Watches self.old.heap.core.state self.old.watched o →
            Watches self.new.heap.core.state self.new.watched o }
        ensures shares { (o : SharedRoot) →
            Shares self.old.heap.core.state self.old.shared o →
            Shares self.new.heap.core.state self.new.shared o }
    {
        let Some(slot) = free_slot(&self.shared) else {
            return Err(ShareError::Handles);
        };
        let command = Command::Export {
            p: root.slot,
            x: slot,
        };
        match ask(&mut self.heap, rt, &command) {
            Line::Fine => {
                self.shared[slot as usize] = Sharing::Given;
                Ok(SharedRoot {
                    slot,
                    node: root.node,
                })
            }
            Line::Memory => Err(ShareError::Memory),
            _ => unreachable!(),
        }
    }

    /// A root for what the shared root names.
    pub fn root_of<R: Threads + Wait + Copy + Send + 'static>(
        &mut self,
        rt: &R,
        shared: &SharedRoot,
    ) -> Result<Root, ShareError>
        requires room { HasRoom self.old.heap.core.state 1 }
        requires shared { Shares self.old.heap.core.state self.old.shared shared.now }
        ensures setup { self.new.heap.core.setup ≡ self.old.heap.core.setup }
        ensures ordinal { self.new.heap.core.state.ordinal ≤ self.old.heap.core.state.ordinal + 1 }
        ensures nodes { self.new.heap.core.state.nodes ≡ self.old.heap.core.state.nodes }
        ensures held { IfOk result (Holds self.new.heap.core.state) }
        ensures node { IfOk result (λ r. r.node ≡ shared.now.node) }
        ensures fresh { IfOk result (λ r. (o : Root) →
            Holds self.old.heap.core.state o → ¬ (o.slot ≡ r.slot)) }
        ensures fault { IfErr result (IsShareFault self.old.heap.core.state
            self.new.heap.core.state) }
        ensures stays { (o : Root) →
            Holds self.old.heap.core.state o → Holds self.new.heap.core.state o }
        ensures watches { (o : WeakRoot) →
            Watches self.old.heap.core.state self.old.watched o →
            Watches self.new.heap.core.state self.new.watched o }
        ensures shares { (o : SharedRoot) →
            Shares self.old.heap.core.state self.old.shared o →
            Shares self.new.heap.core.state self.new.shared o }
    {
        let Some(slot) = free_flag(&self.taken, self.likely) else {
            return Err(ShareError::Handles);
        };
        let command = Command::Import {
            x: shared.slot,
            p: slot,
        };
        self.taken[slot as usize] = true;
        match ask(&mut self.heap, rt, &command) {
            Line::Node { k } => Ok(Root { slot, node: k }),
            Line::Memory => {
                self.taken[slot as usize] = false;
                Err(ShareError::Memory)
            }
            _ => unreachable!(),
        }
    }

    /// The shared root's slot waits for `clear_released`, and keeps its object until then.
    pub fn release_shared(&mut self, shared: SharedRoot)
        requires shared { Shares self.old.heap.core.state self.old.shared shared }
        ensures core { self.new.heap.core ≡ self.old.heap.core }
        ensures stays { (o : Root) →
            Holds self.old.heap.core.state o → Holds self.new.heap.core.state o }
        ensures watches { (o : WeakRoot) →
            Watches self.old.heap.core.state self.old.watched o →
            Watches self.new.heap.core.state self.new.watched o }
        ensures shares { (o : SharedRoot) →
            Shares self.old.heap.core.state self.old.shared o →
            ¬ (o.slot ≡ shared.slot) →
            Shares self.new.heap.core.state self.new.shared o }
    {
        let SharedRoot { slot, node: _ } = shared;
        self.shared[slot as usize] = Sharing::Released;
    }
}
